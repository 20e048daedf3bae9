//! The rules of two models.

ghost use Rattle.std.specs.Prelude.{◌≡◌, ◌<◌, IfOk, All, length};
ghost use Rattle.feature_diff.specs.Differing.{AreDifferencesOf};
ghost use Rattle.reach_kit.specs.Relaxed.{IsRule};
ghost use Rattle.pair_rules.specs.Made.{IsRuleMade, AreRulesMade};
ghost use Rattle.pair_rules.specs.Ruled.{HasRules};

use crate::fitting::fitting_of;
use crate::parts::{adds_of, costs_of, facts_of, keys_of, needs_of};
use feature_diff::{Difference, Pair, knows};
use mre_base::{List, NoMemory, narrowed};
use reach_kit::{Rule, World};
use std::alloc::Global;

fn rule_of(
    alloc: Global,
    pair: &Pair,
    differences: &List<Difference>,
    action: u32,
) -> Result<Rule, NoMemory>
    requires listed { action < length pair.now.planner.words.actions }
    ensures { IfOk result (IsRuleMade pair.now.planner pair.now.user differences.now action) }
{
    let schema = pair.planner().schemas.item(action as usize);
    let is_known = knows(pair.planner(), action) || knows(pair.user(), action);
    let costs = if is_known {
        costs_of(alloc, action, &schema.cost, differences)?
    } else {
        List::empty(alloc)
    };
    Ok(Rule {
        params: pair
            .words()
            .actions
            .item(action as usize)
            .params
            .copy(alloc)?,
        needs: needs_of(alloc, action, &schema.pre, differences)?,
        costs,
        adds: adds_of(alloc, action, &schema.add, differences)?,
    })
}

fn all_rules(
    alloc: Global,
    pair: &Pair,
    differences: &List<Difference>,
) -> Result<List<Rule>, NoMemory>
    ensures { IfOk result (AreRulesMade pair.now.planner pair.now.user differences.now
        (length pair.now.planner.words.actions)) }
{
    let count = narrowed(pair.words().actions.len())?;
    let mut rules = List::empty(alloc);
    for action in 0..count {
        rules.push(rule_of(alloc, pair, differences, action)?)?;
    }
    Ok(rules)
}

/// The rules of two models, from which reachability is computed: the objects of the types that
/// parameters have, the initial facts and the values of both models, and for each action the
/// preconditions that both have, its costs in both and what it adds in both. The rule of an action
/// that neither model knows has no cost. `NoMemory` leaves all as it was; more than 32 bits of
/// actions, types or objects count as running out of memory.
pub fn rules_of(
    alloc: Global,
    pair: &Pair,
    differences: &List<Difference>,
) -> Result<World, NoMemory>
    requires all { AreDifferencesOf pair.now.planner pair.now.user differences.now }
    ensures ok { IfOk result (HasRules pair.now.planner pair.now.user differences.now) }
    ensures rules { IfOk result (λ world. All (IsRule world) world.rules) }
{
    let planner = pair.planner();
    Ok(World {
        fitting: fitting_of(alloc, pair.words())?,
        initial: facts_of(alloc, &planner.init, differences)?,
        values: keys_of(alloc, &planner.values, differences)?,
        rules: all_rules(alloc, pair, differences)?,
    })
}
