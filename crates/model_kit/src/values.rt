//! The function values of a model as an ordered map, and the costs of actions.

ghost use Rattle.std.specs.Prelude.{ℕ, ◌≡◌, ◌==◌, IsTrue, IfOk, List as ListOf};
ghost use Rattle.std.specs.Cmp.{partial_order_from_own_ties};
ghost use Rattle.std.specs.Cmp.Rules.{comparing};
ghost use Rattle.std.specs.Cmp.Lexicographic.{pointwise, slice_cmp};
ghost use Rattle.std.specs.Ordering.{nat_cmp, on, then_cmp, eq_of_both, as_partial_cmp};
ghost use Rattle.std.proofs.Common.{rules};
ghost use Rattle.model_kit.specs.Vocabulary.{is_ground_action};
ghost use Rattle.model_kit.specs.Places.{meaning, value_of};
ghost use Rattle.model_kit.specs.Runs.{cost_of};
ghost use Rattle.model_kit.specs.Judging.{IsTableOf};

use crate::state::arguments;
use crate::{CostExpr, GroundAction, Model};
use mre_base::{List, NoMemory};
use std::alloc::Global;
use std::cmp::Ordering;
use std::collections::BTreeMap;

/// A function at objects.
#[derive(Drop)]
pub struct FunctionTerm {
    function: u32,
    objects: List<u32>,
}

impl PartialEq for FunctionTerm {
    ghost eq = { eq_of_both (on (λ t. t.function) ◌==◌) (on (λ t. t.objects) (pointwise ◌==◌)) };

    ghost laws = { Prim.search (comparing, rules) };

    fn eq(&self, other: &FunctionTerm) -> bool {
        self.function == other.function && self.objects.as_slice() == other.objects.as_slice()
    }
}

impl Eq for FunctionTerm {
    ghost laws = { Prim.search (comparing, rules) };
}

impl Ord for FunctionTerm {
    ghost cmp = { then_cmp (on (λ t. t.function) nat_cmp)
        (on (λ t. t.objects) (slice_cmp nat_cmp)) };

    ghost total = { Prim.search (comparing, rules) };

    ghost matches_partial_cmp = { Prim.search (comparing, rules) };

    ghost matches_eq = { Prim.search (comparing, rules) };

    fn cmp(&self, other: &FunctionTerm) -> Ordering {
        self.function
            .cmp(&other.function)
            .then(self.objects.as_slice().cmp(&other.objects.as_slice()))
    }
}

impl PartialOrd for FunctionTerm {
    ghost partial_cmp = { as_partial_cmp
        (then_cmp (on (λ t. t.function) nat_cmp) (on (λ t. t.objects) (slice_cmp nat_cmp))) };

    ghost laws = { partial_order_from_own_ties
        (Prim.search (comparing, rules))
        (Prim.search (comparing, rules)) };

    fn partial_cmp(&self, other: &FunctionTerm) -> Option<Ordering> {
        Some(self.cmp(other))
    }
}

/// The values of a model, for look-ups. If a function were listed twice at the same objects, the
/// first value would count.
pub fn value_table(
    alloc: Global,
    values: &List<(u32, List<u32>, u32)>,
) -> Result<BTreeMap<FunctionTerm, u32>, NoMemory>
    ensures ok { IfOk result (IsTableOf values.now) }
{
    let mut table = BTreeMap::new(alloc);
    for place in (0..values.len()).rev() {
        let (function, objects, number) = values.item(place);
        let term = FunctionTerm {
            function: *function,
            objects: objects.copy(alloc)?,
        };
        table.insert(term, *number)?;
    }
    Ok(table)
}

/// The value of a function at objects, if it has one.
pub fn value_at(
    values: &BTreeMap<FunctionTerm, u32>,
    function: u32,
    objects: List<u32>,
) -> Option<u32>
    ensures { (list : ListOf (ℕ × ListOf ℕ × ℕ)) → IsTableOf list values.now
        → result ≡ value_of list function objects }
{
    values.get(&FunctionTerm { function, objects }).copied()
}

// The cost of an action in a model, if it has one.
pub(crate) fn price(
    alloc: Global,
    model: &Model,
    values: &BTreeMap<FunctionTerm, u32>,
    action: &GroundAction,
) -> Result<Option<u32>, NoMemory>
    requires fits { IsTrue (is_ground_action model.now.words action.now) }
    requires table { IsTableOf model.now.values values.now }
    ensures ok { IfOk result (λ cost. cost ≡ cost_of (meaning model.now) action.now) }
{
    if model.unknown.as_slice().contains(&action.schema) {
        return Ok(None);
    }
    match &model.schemas.item(action.schema as usize).cost {
        CostExpr::Number(number) => Ok(Some(*number)),
        CostExpr::Call { function, args } => {
            let objects = arguments(alloc, args, &action.objects)?;
            Ok(value_at(values, *function, objects))
        }
    }
}
