//! The action schemas of two models, each with the conditions on its features.

ghost use Rattle.std.specs.Prelude.{◌≡◌, ◌<◌, ◌≤◌, length, IfOk};
ghost use Rattle.model_kit.specs.declared.atom.GroundAtom.{GroundAtom};
ghost use Rattle.model_kit.specs.declared.atom.SchemaAtom.{SchemaAtom};
ghost use Rattle.model_kit.specs.Places.{Knows};
ghost use Rattle.feature_diff.specs.Differing.{AreDifferencesOf};
ghost use Rattle.feature_diff.specs.Telling.{fact_place, place_in};
ghost use Rattle.named_tables.specs.Models.{EitherHas};
ghost use Rattle.named_tables.specs.Tables.{IsWhen};
ghost use Rattle.pair_rules.specs.Ruled.{models_of};
ghost use Rattle.pair_tables.specs.Featured.{AreFeatures};
ghost use Rattle.pair_tables.specs.Schemas.{IsSchemaCases, AreSchemaCases};

use crate::features::{features_of, number_at};
use case_kit::When;
use feature_diff::{
    ActionKind, ActionPart, Difference, FactKind, Pair, SchemaPart, atoms_in, facts_in, knows,
};
use model_kit::{GroundAtom, SchemaAtom};
use mre_base::{List, NoMemory, narrowed};
use std::alloc::Global;

/// The features of an action schema in two models, each with its condition.
pub(crate) struct SchemaCases {
    pub(crate) pre: List<(SchemaAtom, When)>,
    pub(crate) add: List<(SchemaAtom, When)>,
    pub(crate) del: List<(SchemaAtom, When)>,
    /// When a model knows the schema, where one does.
    pub(crate) known: When,
    /// The number of the difference on its cost, where there is one.
    pub(crate) cost: Option<u32>,
}

impl Drop for SchemaCases {
    fn drop(self) {
        let SchemaCases {
            pre: _,
            add: _,
            del: _,
            known: _,
            cost: _,
        } = self;
    }
}

/// The initial facts or the goal facts of two models.
pub(crate) fn fact_features(
    alloc: Global,
    pair: &Pair,
    differences: &List<Difference>,
    kind: FactKind,
) -> Result<List<(GroundAtom, When)>, NoMemory>
    requires few { length differences.now ≤ 256 }
    requires all { AreDifferencesOf pair.now.planner pair.now.user differences.now }
    ensures { IfOk result (AreFeatures (models_of pair.now.planner pair.now.user differences.now)
        GroundAtom (fact_place kind)) }
{
    let planner = facts_in(kind, pair.planner());
    let user = facts_in(kind, pair.user());
    Ok(features_of(alloc, &kind, planner, user, differences)?)
}

// The preconditions, adds or deletes of a schema.
fn part_features(
    alloc: Global,
    pair: &Pair,
    differences: &List<Difference>,
    action: u32,
    part: SchemaPart,
) -> Result<List<(SchemaAtom, When)>, NoMemory>
    requires few { length differences.now ≤ 256 }
    requires all { AreDifferencesOf pair.now.planner pair.now.user differences.now }
    requires listed { action < length pair.now.planner.words.actions }
    ensures { IfOk result (AreFeatures (models_of pair.now.planner pair.now.user differences.now)
        SchemaAtom (place_in part action)) }
{
    let kind = ActionPart { action, part };
    let place = action as usize;
    let planner = atoms_in(part, pair.planner().schemas.item(place));
    let user = atoms_in(part, pair.user().schemas.item(place));
    Ok(features_of(alloc, &kind, planner, user, differences)?)
}

// When a model knows a schema, where one does.
fn known_when(pair: &Pair, differences: &List<Difference>, action: u32) -> When
    requires few { length differences.now ≤ 256 }
    requires all { AreDifferencesOf pair.now.planner pair.now.user differences.now }
    requires listed { action < length pair.now.planner.words.actions }
    ensures { EitherHas (models_of pair.now.planner pair.now.user differences.now) (Knows action) →
        IsWhen (models_of pair.now.planner pair.now.user differences.now) (Knows action) result }
{
    match number_at(&action, &ActionKind::Knows, differences) {
        None => When::Always,
        Some(number) => {
            if knows(pair.planner(), action) {
                When::IfTold(number)
            } else {
                When::IfLeft(number)
            }
        }
    }
}

fn schema_cases(
    alloc: Global,
    pair: &Pair,
    differences: &List<Difference>,
    action: u32,
) -> Result<SchemaCases, NoMemory>
    requires few { length differences.now ≤ 256 }
    requires all { AreDifferencesOf pair.now.planner pair.now.user differences.now }
    requires listed { action < length pair.now.planner.words.actions }
    ensures { IfOk result (IsSchemaCases (models_of pair.now.planner pair.now.user differences.now)
        action) }
{
    Ok(SchemaCases {
        pre: part_features(alloc, pair, differences, action, SchemaPart::Pre)?,
        add: part_features(alloc, pair, differences, action, SchemaPart::Add)?,
        del: part_features(alloc, pair, differences, action, SchemaPart::Del)?,
        known: known_when(pair, differences, action),
        cost: number_at(&action, &ActionKind::Cost, differences),
    })
}

/// The cases of all action schemas, by the schemas' numbers.
pub(crate) fn all_schema_cases(
    alloc: Global,
    pair: &Pair,
    differences: &List<Difference>,
) -> Result<List<SchemaCases>, NoMemory>
    requires few { length differences.now ≤ 256 }
    requires all { AreDifferencesOf pair.now.planner pair.now.user differences.now }
    ensures { IfOk result (AreSchemaCases (models_of pair.now.planner pair.now.user differences.now)
        (length pair.now.planner.words.actions)) }
{
    let count = narrowed(pair.words().actions.len())?;
    let mut schemas = List::empty(alloc);
    for action in 0..count {
        schemas.push(schema_cases(alloc, pair, differences, action)?)?;
    }
    Ok(schemas)
}
