//! Grounds a pair of models.

ghost use Rattle.std.specs.Prelude.{◌≤◌, length, IfOk, IfErr};
ghost use Rattle.feature_diff.specs.Differing.{AreDifferencesOf};
ghost use Rattle.ground_core.specs.Grounds.{IsGroundOf, IsFull};
ghost use Rattle.ground_core.specs.Stops.{Exceeds};

use crate::ordering::in_order;
use crate::{Ground, GroundStop, NameTable};
use feature_diff::{Difference, Pair};
use mre_base::List;
use pair_rules::rules_of;
use pair_tables::table_of;
use reach_kit::{Limits, reach};
use std::alloc::Global;

/// The most atoms that a table may list.
pub const MOST_ATOMS: u32 = 4096;

/// The most ground actions that a table may list.
pub const MOST_ACTIONS: u32 = 50_000;

/// Puts a pair into a table on numbers: the atoms and ground actions that are reachable when the
/// initial facts and the adds of both models count, an action has a cost after some set of
/// differences, and only the preconditions that both models have are asked for (delete relaxation,
/// Bonet and Geffner 2001). Atoms and actions are numbered by the ASCII order of their printed
/// forms. `NoMemory` leaves all as it was; more than 32 bits of actions, types or objects count as
/// running out of memory.
pub fn ground(
    alloc: Global,
    pair: &Pair,
    differences: &List<Difference>,
) -> Result<Ground, GroundStop>
    requires all { AreDifferencesOf pair.now.planner pair.now.user differences.now }
    requires few { length differences.now ≤ 256 }
    ensures ok { IfOk result (IsGroundOf pair.now.planner pair.now.user differences.now) }
    ensures within { IfOk result (λ _. ¬ IsFull pair.now.planner pair.now.user differences.now) }
    ensures err { IfErr result (Exceeds pair.now.planner pair.now.user differences.now) }
{
    let world = rules_of(alloc, pair, differences)?;
    let limits = Limits {
        atoms: MOST_ATOMS,
        actions: MOST_ACTIONS,
    };
    let reached = reach(alloc, &world, limits)?;
    let atoms = in_order(alloc, pair.words(), &reached.atoms)?;
    let actions = in_order(alloc, pair.words(), &reached.actions)?;
    Ok(Ground {
        table: table_of(alloc, pair, differences, &atoms.things, &actions.things)?,
        names: NameTable {
            atoms: atoms.names,
            actions: actions.names,
        },
    })
}
