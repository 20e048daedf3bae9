//! The case table of two models.

ghost use Rattle.std.specs.Prelude.{◌≡◌, ◌≤◌, length, map, All, IfOk};
ghost use Rattle.model_kit.specs.Judging.{ArePlaced, IsTableOf as AreValuesOf};
ghost use Rattle.model_kit.specs.Runs.{instance};
ghost use Rattle.model_kit.specs.Vocabulary.{IsGroundAction};
ghost use Rattle.feature_diff.specs.Differing.{AreDifferencesOf};
ghost use Rattle.named_tables.specs.Numbered.{ListsReachable};
ghost use Rattle.named_tables.specs.Tables.{IsActionOf, IsTableOf};
ghost use Rattle.pair_rules.specs.Ruled.{models_of};
ghost use Rattle.pair_tables.specs.Featured.{case_of};
ghost use Rattle.pair_tables.specs.Numbers.{number_by};
ghost use Rattle.pair_tables.specs.Schemas.{AreSchemaCases};
ghost use Rattle.pair_tables.specs.Made.{AreActionsOf, MayBeDone};

use crate::numbers::AtomNumbers;
use crate::pricing::cost_case;
use crate::schemas::{SchemaCases, all_schema_cases, fact_features};
use case_kit::{Case, CaseAction, CaseTable, When};
use feature_diff::{Difference, FactKind, Pair};
use model_kit::{FunctionTerm, GroundAction, GroundAtom, SchemaAtom, instance_of, value_table};
use mre_base::{List, NoMemory};
use std::alloc::Global;
use std::collections::BTreeMap;

// The cases of facts.
fn fact_cases(
    alloc: Global,
    numbers: &AtomNumbers,
    features: &List<(GroundAtom, When)>,
) -> Result<List<Case>, NoMemory>
    ensures { IfOk result (λ made. made
        ≡ map (case_of (number_by numbers.now) (λ atom. atom)) features.now) }
{
    let mut made = List::empty(alloc);
    for place in 0..features.len() {
        let (fact, when) = features.item(place);
        let atom = numbers.number(fact);
        made.push(Case { atom, when: *when })?;
    }
    Ok(made)
}

// The cases of a schema's features with objects for the parameters.
fn part_cases(
    alloc: Global,
    numbers: &AtomNumbers,
    features: &List<(SchemaAtom, When)>,
    objects: &List<u32>,
) -> Result<List<Case>, NoMemory>
    requires placed { All (λ feature. ArePlaced objects.now feature.0.args) features.now }
    ensures { IfOk result (λ made. made
        ≡ map (case_of (number_by numbers.now) (instance objects.now)) features.now) }
{
    let mut made = List::empty(alloc);
    for place in 0..features.len() {
        let (feature, when) = features.item(place);
        let atom = numbers.number(&instance_of(alloc, feature, objects)?);
        made.push(Case { atom, when: *when })?;
    }
    Ok(made)
}

fn action_cases(
    alloc: Global,
    pair: &Pair,
    differences: &List<Difference>,
    numbers: &AtomNumbers,
    values: &BTreeMap<FunctionTerm, u32>,
    schemas: &List<SchemaCases>,
    action: &GroundAction,
) -> Result<CaseAction, NoMemory>
    requires few { length differences.now ≤ 256 }
    requires all { AreDifferencesOf pair.now.planner pair.now.user differences.now }
    requires values { AreValuesOf pair.now.planner.values values.now }
    requires schemas { AreSchemaCases (models_of pair.now.planner pair.now.user differences.now)
        (length pair.now.planner.words.actions) schemas.now }
    requires done { MayBeDone (models_of pair.now.planner pair.now.user differences.now)
        action.now }
    ensures { IfOk result (IsActionOf (models_of pair.now.planner pair.now.user differences.now)
        (number_by numbers.now) action.now) }
{
    let cases = schemas.item(action.schema as usize);
    let objects = &action.objects;
    Ok(CaseAction {
        pre: part_cases(alloc, numbers, &cases.pre, objects)?,
        add: part_cases(alloc, numbers, &cases.add, objects)?,
        del: part_cases(alloc, numbers, &cases.del, objects)?,
        cost: cost_case(alloc, pair, differences, values, cases, action)?,
        known: cases.known,
    })
}

fn all_cases(
    alloc: Global,
    pair: &Pair,
    differences: &List<Difference>,
    numbers: &AtomNumbers,
    actions: &List<GroundAction>,
) -> Result<List<CaseAction>, NoMemory>
    requires few { length differences.now ≤ 256 }
    requires all { AreDifferencesOf pair.now.planner pair.now.user differences.now }
    requires done { All (MayBeDone (models_of pair.now.planner pair.now.user differences.now))
        actions.now }
    ensures { IfOk result (AreActionsOf (models_of pair.now.planner pair.now.user differences.now)
        (number_by numbers.now) actions.now) }
{
    let values = value_table(alloc, &pair.planner().values)?;
    let schemas = all_schema_cases(alloc, pair, differences)?;
    let mut made = List::empty(alloc);
    for place in 0..actions.len() {
        let action = actions.item(place);
        made.push(action_cases(alloc, pair, differences, numbers, &values, &schemas, action)?)?;
    }
    Ok(made)
}

/// The table of two models over lists of their reachable atoms and ground actions: each is numbered
/// by its place in its list, and each condition names the difference on the feature. `NoMemory`
/// leaves all as it was; more than 32 bits of action schemas count as running out of memory.
pub fn table_of(
    alloc: Global,
    pair: &Pair,
    differences: &List<Difference>,
    atoms: &List<GroundAtom>,
    actions: &List<GroundAction>,
) -> Result<CaseTable, NoMemory>
    requires all { AreDifferencesOf pair.now.planner pair.now.user differences.now }
    requires few_differences { length differences.now ≤ 256 }
    requires reachable { ListsReachable (models_of pair.now.planner pair.now.user differences.now)
        atoms.now actions.now }
    requires few_atoms { length atoms.now ≤ 4096 }
    requires few_actions { length actions.now ≤ 50000 }
    ensures table { IfOk result (IsTableOf
        (models_of pair.now.planner pair.now.user differences.now) atoms.now actions.now) }
    ensures differences { IfOk result (λ table. table.d ≡ length differences.now) }
{
    let numbers = AtomNumbers::of(alloc, atoms)?;
    let init = fact_features(alloc, pair, differences, FactKind::Init)?;
    let goal = fact_features(alloc, pair, differences, FactKind::Goal)?;
    Ok(CaseTable {
        d: differences.len() as u32,
        atoms: atoms.len() as u32,
        start: fact_cases(alloc, &numbers, &init)?,
        goal: fact_cases(alloc, &numbers, &goal)?,
        actions: all_cases(alloc, pair, differences, &numbers, actions)?,
    })
}
