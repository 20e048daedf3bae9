//! Things in the order of their printed forms.

ghost use Rattle.std.specs.Prelude.{◌≡◌, All, IfOk};
ghost use Rattle.model_kit.specs.Printed.{atom_form, action_form};
ghost use Rattle.model_kit.specs.Vocabulary.{IsGroundAction, is_ground_atom};
ghost use Rattle.ground_core.specs.Ordered.{IsIndex, IsLaidOut, IsInOrder};

use model_kit::{GroundAction, GroundAtom, Vocabulary, print_action, print_atom};
use mre_base::{List, NoMemory, Text};
use std::alloc::Global;
use std::collections::BTreeMap;

/// Things that are printed in the words of a vocabulary, no two of which have the same form.
pub(crate) trait Printable: Drop {
    ghost use Rattle.std.specs.Prelude.{◌≡◌, List as ListOf, ℕ};
    ghost use Rattle.model_kit.specs.declared.vocabulary.Vocabulary.{Vocabulary};

    ghost Fits: { Vocabulary → Self → Type 0 };

    ghost form: { Vocabulary → Self → ListOf ℕ };

    ghost apart: { (words : Vocabulary) (one other : Self) → Fits words one → Fits words other →
        form words one ≡ form words other → one ≡ other };

    fn print(&self, alloc: Global, words: &Vocabulary) -> Result<Text, NoMemory>
        requires { Fits words.now self.now }
        ensures { IfOk result (λ text. text ≡ form words.now self.now) };

    /// A copy.
    fn again(&self, alloc: Global) -> Result<Self, NoMemory>
        ensures { IfOk result (λ made. made ≡ self.now) };
}

impl Printable for GroundAtom {
    ghost use Rattle.std.specs.Prelude.{IsTrue};
    ghost use Rattle.model_kit.proofs.FormLemmas.{atom_form-injective};

    ghost Fits = { λ words atom. IsTrue (is_ground_atom words atom) };

    ghost form = { atom_form };

    ghost apart = { atom_form-injective };

    fn print(&self, alloc: Global, words: &Vocabulary) -> Result<Text, NoMemory> {
        print_atom(alloc, words, self)
    }

    fn again(&self, alloc: Global) -> Result<GroundAtom, NoMemory> {
        self.copy(alloc)
    }
}

impl Printable for GroundAction {
    ghost use Rattle.ground_core.specs.ActionForms.{action_form-injective};

    ghost Fits = { IsGroundAction };

    ghost form = { action_form };

    ghost apart = { action_form-injective };

    fn print(&self, alloc: Global, words: &Vocabulary) -> Result<Text, NoMemory> {
        print_action(alloc, words, self)
    }

    fn again(&self, alloc: Global) -> Result<GroundAction, NoMemory> {
        Ok(GroundAction {
            schema: self.schema,
            objects: self.objects.copy(alloc)?,
        })
    }
}

/// Things and their printed forms, place by place, in ASCII order.
#[derive(Drop)]
pub(crate) struct InOrder<T> {
    pub(crate) names: Vec<Text>,
    pub(crate) things: List<T>,
}

// The things under their printed forms.
fn index_of<T: Printable>(
    alloc: Global,
    words: &Vocabulary,
    things: &List<T>,
) -> Result<BTreeMap<Text, T>, NoMemory>
    requires { All (T.Fits words.now) things.now }
    ensures { IfOk result (IsIndex (T.form words.now) things.now) }
{
    let mut index = BTreeMap::new(alloc);
    for place in 0..things.len() {
        let thing = things.item(place);
        let name = thing.print(alloc, words)?;
        index.insert(name, thing.again(alloc)?)?;
    }
    Ok(index)
}

// The entries of the map in their order.
fn lay_out<T: Printable>(alloc: Global, index: BTreeMap<Text, T>) -> Result<InOrder<T>, NoMemory>
    ensures { IfOk result (IsLaidOut index) }
{
    let mut names = Vec::new(alloc);
    let mut things = List::empty(alloc);
    for (name, thing) in index {
        names.push(name)?;
        things.push(thing)?;
    }
    Ok(InOrder { names, things })
}

/// The things in the order of their printed forms.
pub(crate) fn in_order<T: Printable>(
    alloc: Global,
    words: &Vocabulary,
    things: &List<T>,
) -> Result<InOrder<T>, NoMemory>
    requires { All (T.Fits words.now) things.now }
    ensures { IfOk result (IsInOrder (T.form words.now) things.now) }
{
    let index = index_of(alloc, words, things)?;
    Ok(lay_out(alloc, index)?)
}
