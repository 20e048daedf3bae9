//! Differences on whether an action is known, and on its cost.

ghost use Rattle.std.specs.Prelude.{◌≡◌, ◌+◌, ◌*◌, ◌<◌, OnOk, length};
ghost use Rattle.model_kit.specs.Places.{Feature, Knows, meaning};
ghost use Rattle.feature_diff.specs.Telling.{same_cost};
ghost use Rattle.feature_diff.specs.Parts.{GainsGroup, IsGathered};

use crate::Difference;
use crate::gathered::Gathered;
use crate::schema_parts::{ActionPart, SchemaPart, tell_part};
use model_kit::{CostExpr, Model, are_same_terms};
use mre_base::{Copied, NoMemory};
use std::alloc::Global;

/// Whether a model knows an action of its vocabulary.
pub fn knows(model: &Model, action: u32) -> bool
    requires { action < length model.now.words.actions }
    ensures { meaning model.now (Knows action) ≡ Feature result }
{
    !model.unknown.as_slice().contains(&action)
}

// Adds the difference on an action that only one model knows.
fn tell_knowledge(
    planner: &Model,
    user: &Model,
    action: u32,
    gathered: &mut Gathered,
) -> Result<(), NoMemory>
    requires joint { user.now.words ≡ planner.now.words }
    requires listed { action < length planner.now.words.actions }
    ensures ok { OnOk result (GainsGroup planner.now user.now (2 + 5 * action) gathered.old
        gathered.new) }
{
    let planner_has = knows(planner, action);
    if planner_has == knows(user, action) {
        return Ok(());
    }
    gathered.add(Difference::Knows {
        action,
        planner_has,
    })
}

fn are_same_costs(one: &CostExpr, other: &CostExpr) -> bool
    ensures { result ≡ same_cost one.now other.now }
{
    match (one, other) {
        (CostExpr::Number(m), CostExpr::Number(n)) => *m == *n,
        (
            CostExpr::Call { function, args },
            CostExpr::Call {
                function: other_function,
                args: other_args,
            },
        ) => *function == *other_function && are_same_terms(args, other_args),
        (CostExpr::Number(_), CostExpr::Call { .. }) => false,
        (CostExpr::Call { .. }, CostExpr::Number(_)) => false,
    }
}

// Adds the difference on the cost of an action, if the models give it different ones.
fn tell_cost(
    alloc: Global,
    planner: &Model,
    user: &Model,
    action: u32,
    gathered: &mut Gathered,
) -> Result<(), NoMemory>
    requires joint { user.now.words ≡ planner.now.words }
    requires listed { action < length planner.now.words.actions }
    ensures ok { OnOk result (GainsGroup planner.now user.now (6 + 5 * action) gathered.old
        gathered.new) }
{
    let one = planner.schemas.item(action as usize);
    let other = user.schemas.item(action as usize);
    if are_same_costs(&one.cost, &other.cost) {
        return Ok(());
    }
    let planner_cost = one.cost.copied(alloc)?;
    let user_cost = other.cost.copied(alloc)?;
    gathered.add(Difference::Cost {
        action,
        planner: planner_cost,
        user: user_cost,
    })
}

// Adds all differences on an action.
fn tell_action(
    alloc: Global,
    planner: &Model,
    user: &Model,
    action: u32,
    gathered: &mut Gathered,
) -> Result<(), NoMemory>
    requires joint { user.now.words ≡ planner.now.words }
    requires listed { action < length planner.now.words.actions }
    ensures ok { OnOk result (IsGathered planner.now user.now (2 + 5 * action) gathered.old
        → IsGathered planner.now user.now (2 + 5 * (action + 1)) gathered.new) }
{
    tell_knowledge(planner, user, action, gathered)?;
    let pre = ActionPart {
        action,
        part: SchemaPart::Pre,
    };
    tell_part(alloc, planner, user, pre, gathered)?;
    let add = ActionPart {
        action,
        part: SchemaPart::Add,
    };
    tell_part(alloc, planner, user, add, gathered)?;
    let del = ActionPart {
        action,
        part: SchemaPart::Del,
    };
    tell_part(alloc, planner, user, del, gathered)?;
    tell_cost(alloc, planner, user, action, gathered)
}

// Adds all differences on all actions. Action numbers past 32 bits count as running out of memory.
pub(crate) fn tell_actions(
    alloc: Global,
    planner: &Model,
    user: &Model,
    gathered: &mut Gathered,
) -> Result<(), NoMemory>
    requires joint { user.now.words ≡ planner.now.words }
    requires facts { IsGathered planner.now user.now 2 gathered.old }
    ensures ok { OnOk result (IsGathered planner.now user.now
        (2 + 5 * length planner.now.words.actions) gathered.new) }
{
    if planner.words.actions.len() > u32::MAX as usize {
        return Err(NoMemory);
    }
    for action in 0..planner.words.actions.len() as u32 {
        tell_action(alloc, planner, user, action, gathered)?;
    }
    Ok(())
}
