//! The difference at a place of a model, looked up in a list of differences.

ghost use Rattle.std.specs.Prelude.{◌≡◌, ◌<◌, ◌≤◌, length, IfSome};
ghost use Rattle.std.specs.FinSet as set;
ghost use Rattle.model_kit.specs.Differences.{number_from};
ghost use Rattle.model_kit.specs.Places.{same_place};
ghost use Rattle.model_kit.specs.Same.{same_schema_atom};
ghost use Rattle.feature_diff.specs.Differing.{place_of, places_of};
ghost use Rattle.feature_diff.specs.Blending.{action_place, is_told_at};
ghost use Rattle.feature_diff.specs.Telling.{fact_place, place_in};

use crate::Difference;
use crate::facts::FactKind;
use crate::schema_parts::{ActionPart, SchemaPart};
use crate::worths::Worths;
use model_kit::{GroundAtom, SchemaAtom, are_same_terms};
use mre_base::{Copied, List, Places};

/// The content of a place of a model, of one kind of places.
pub trait Spot<K>: Copied {
    ghost use Rattle.model_kit.specs.Places.{Place};

    ghost place: { K → Self → Place };

    /// Whether a difference is at that place.
    fn is_at(&self, kind: &K, difference: &Difference) -> bool
        ensures { result ≡ same_place (place_of difference.now) (place kind.now self.now) };
}

/// The two places of an action that aren't lists of atoms: whether it is known, and its cost.
#[derive(Clone, Copy)]
pub enum ActionKind {
    Knows,
    Cost,
}

impl Spot<FactKind> for GroundAtom {
    ghost place = { fact_place };

    fn is_at(&self, kind: &FactKind, difference: &Difference) -> bool {
        match (kind, difference) {
            (FactKind::Init, Difference::Init { atom, .. }) => atom == self,
            (FactKind::Goal, Difference::Goal { atom, .. }) => atom == self,
            _ => false,
        }
    }
}

impl Spot<ActionPart> for SchemaAtom {
    ghost place = { λ kind. place_in kind.part kind.action };

    fn is_at(&self, kind: &ActionPart, difference: &Difference) -> bool {
        match (kind.part, difference) {
            (SchemaPart::Pre, Difference::Pre { action, atom, .. }) => {
                *action == kind.action && is_same_atom(atom, self)
            }
            (SchemaPart::Add, Difference::Add { action, atom, .. }) => {
                *action == kind.action && is_same_atom(atom, self)
            }
            (SchemaPart::Del, Difference::Del { action, atom, .. }) => {
                *action == kind.action && is_same_atom(atom, self)
            }
            _ => false,
        }
    }
}

impl Spot<Worths> for (u32, List<u32>, u32) {
    ghost use Rattle.model_kit.specs.Places.{Value};

    ghost place = { λ kind value. Value value.0 value.1 };

    fn is_at(&self, _kind: &Worths, difference: &Difference) -> bool {
        match difference {
            Difference::Value {
                function,
                objects,
                ..
            } => *function == self.0 && objects.as_slice() == self.1.as_slice(),
            _ => false,
        }
    }
}

impl Spot<ActionKind> for u32 {
    ghost place = { action_place };

    fn is_at(&self, kind: &ActionKind, difference: &Difference) -> bool {
        match (kind, difference) {
            (ActionKind::Knows, Difference::Knows { action, .. }) => *action == *self,
            (ActionKind::Cost, Difference::Cost { action, .. }) => *action == *self,
            _ => false,
        }
    }
}

// Whether two atoms of schemas are the same, term by term.
fn is_same_atom(one: &SchemaAtom, other: &SchemaAtom) -> bool
    ensures { result ≡ same_schema_atom one.now other.now }
{
    one.predicate == other.predicate && are_same_terms(&one.args, &other.args)
}

/// The place in the list of the difference at a place of a model, where there is one.
pub fn place_at<K, T: Spot<K>>(item: &T, kind: &K, differences: &List<Difference>) -> Option<usize>
    ensures place { result ≡ number_from 0 (places_of differences.now) (T.place kind.now item.now) }
    ensures within { IfSome result (λ place. place < length differences.now) }
{
    for place in 0..differences.len() {
        if item.is_at(kind, differences.item(place)) {
            return Some(place);
        }
    }
    None
}

// Whether the number of the difference at a place is told.
pub(crate) fn is_told<K, T: Spot<K>>(
    item: &T,
    kind: &K,
    differences: &List<Difference>,
    told: &Places,
) -> bool
    requires few { length differences.now ≤ 256 }
    ensures { result ≡ is_told_at differences.now told.now (T.place kind.now item.now) }
{
    match place_at(item, kind, differences) {
        Some(place) => told.has(place as u32 + 1),
        None => false,
    }
}
