//! The cost cases of ground actions.

ghost use Rattle.std.specs.Prelude.{◌≡◌, ◌≤◌, length, IfOk};
ghost use Rattle.model_kit.specs.Judging.{IsTableOf};
ghost use Rattle.model_kit.specs.Places.{Price, Value};
ghost use Rattle.model_kit.specs.Vocabulary.{IsGroundAction};
ghost use Rattle.feature_diff.specs.Differing.{AreDifferencesOf};
ghost use Rattle.named_tables.specs.Tables.{IsWorth, IsValue, IsCostOf};
ghost use Rattle.pair_rules.specs.Ruled.{models_of};
ghost use Rattle.reach_kit.specs.Relaxed.{IsPlaced};
ghost use Rattle.pair_tables.specs.Pricing.{worths_of};
ghost use Rattle.pair_tables.specs.Schemas.{IsSchemaCases};

use crate::schemas::SchemaCases;
use case_kit::{CaseCost, CaseValue};
use feature_diff::{Difference, Pair, Worths, place_at};
use model_kit::{CostExpr, FunctionTerm, GroundAction, arguments, value_at};
use mre_base::{List, NoMemory};
use std::alloc::Global;
use std::collections::BTreeMap;

// The values of a function in both models, by the difference with this number.
fn worths(difference: &Difference, number: u32) -> CaseValue
    ensures { result ≡ worths_of difference.now number }
{
    match difference {
        Difference::Value { planner, user, .. } => CaseValue::Two {
            place: number,
            told: *planner,
            left: *user,
        },
        _ => CaseValue::One(None),
    }
}

// The value of a function at objects.
fn worth_case(
    pair: &Pair,
    differences: &List<Difference>,
    values: &BTreeMap<FunctionTerm, u32>,
    function: u32,
    objects: List<u32>,
) -> CaseValue
    requires few { length differences.now ≤ 256 }
    requires all { AreDifferencesOf pair.now.planner pair.now.user differences.now }
    requires table { IsTableOf pair.now.planner.values values.now }
    ensures { IsWorth (models_of pair.now.planner pair.now.user differences.now)
        (Value function objects) result }
{
    let term = (function, objects, 0);
    match place_at(&term, &Worths, differences) {
        Some(place) => worths(differences.item(place), place as u32 + 1),
        None => {
            let (function, objects, _) = term;
            CaseValue::One(value_at(values, function, objects))
        }
    }
}

// The value of a cost.
fn value_case(
    alloc: Global,
    pair: &Pair,
    differences: &List<Difference>,
    values: &BTreeMap<FunctionTerm, u32>,
    cost: &CostExpr,
    objects: &List<u32>,
) -> Result<CaseValue, NoMemory>
    requires few { length differences.now ≤ 256 }
    requires all { AreDifferencesOf pair.now.planner pair.now.user differences.now }
    requires table { IsTableOf pair.now.planner.values values.now }
    requires placed { IsPlaced (length objects.now) cost.now }
    ensures { IfOk result (IsValue (models_of pair.now.planner pair.now.user differences.now)
        objects.now (Price cost.now)) }
{
    match cost {
        CostExpr::Number(number) => Ok(CaseValue::One(Some(*number))),
        CostExpr::Call { function, args } => {
            let objects = arguments(alloc, args, objects)?;
            Ok(worth_case(pair, differences, values, *function, objects))
        }
    }
}

/// The cost of a ground action.
pub(crate) fn cost_case(
    alloc: Global,
    pair: &Pair,
    differences: &List<Difference>,
    values: &BTreeMap<FunctionTerm, u32>,
    cases: &SchemaCases,
    action: &GroundAction,
) -> Result<CaseCost, NoMemory>
    requires few { length differences.now ≤ 256 }
    requires all { AreDifferencesOf pair.now.planner pair.now.user differences.now }
    requires table { IsTableOf pair.now.planner.values values.now }
    requires fits { IsGroundAction pair.now.planner.words action.now }
    requires cases { IsSchemaCases (models_of pair.now.planner pair.now.user differences.now)
        action.now.schema cases.now }
    ensures { IfOk result (IsCostOf (models_of pair.now.planner pair.now.user differences.now)
        action.now) }
{
    let schema = action.schema as usize;
    let objects = &action.objects;
    let planner = &pair.planner().schemas.item(schema).cost;
    let told = value_case(alloc, pair, differences, values, planner, objects)?;
    match cases.cost {
        None => Ok(CaseCost::One(told)),
        Some(place) => {
            let user = &pair.user().schemas.item(schema).cost;
            let left = value_case(alloc, pair, differences, values, user, objects)?;
            Ok(CaseCost::Two { place, told, left })
        }
    }
}
