//! Tests of case tables.

ghost use Rattle.std.specs.Prelude.{◌≡◌, ◌≤◌, IfOk};
ghost use Rattle.cube_kit.specs.Cubes.{IsCube};

use crate::cases::{always, left, number, told};
use crate::making::{GivenAction, Size, table_of};
use case_kit::{
    Case, CaseCost, CaseTable, CaseValue, When, law_child, law_lists, law_members, law_relaxed,
    law_sums,
};
use cube_kit::Cube;
use mre_base::Side;
use std::alloc::Global;
use std::process::Abort;
use std::test::Fail;
use task_kit::{Task, TaskView, cheapest_below};

// N. Atoms: 0 (at a), 1 (at b), 2 (at c), 3 (link a b), 4 (link b c). Actions: 0 (go a b), 1 (go b
// c), 2 (ride). The cost of go differs: 4 where it is left, and the road where it is told; the road
// from b to c is 9 or 5.
fn n_table(alloc: Global) -> Result<CaseTable, Fail>
    ensures { IfOk result (λ table. table.d ≡ 2) }
{
    let four = CaseValue::One(Some(4));
    let first = GivenAction {
        pre: &[always(0), always(3)],
        add: &[always(1)],
        del: &[always(0)],
        cost: CaseCost::Two {
            place: 1,
            told: CaseValue::One(Some(2)),
            left: four,
        },
        known: When::Always,
    };
    let road = CaseValue::Two {
        place: 2,
        told: Some(9),
        left: Some(5),
    };
    let second = GivenAction {
        pre: &[always(1), always(4)],
        add: &[always(2)],
        del: &[always(1)],
        cost: CaseCost::Two {
            place: 1,
            told: road,
            left: four,
        },
        known: When::Always,
    };
    let ride = GivenAction {
        pre: &[always(0)],
        add: &[always(2)],
        del: &[],
        cost: number(10),
        known: When::Always,
    };
    let size = Size {
        d: 2,
        split: 2,
        atoms: 5,
    };
    let start = [always(0), always(3), always(4)];
    Ok(table_of(alloc, size, &start, &[always(2)], &[first, second, ride])?)
}

// The cube of the differences to d in which some are told and some are left.
fn cube_of(d: u32, told: &[u32], left: &[u32]) -> Cube
    requires { d ≤ 256 }
    ensures { IsCube d result }
{
    let mut cube = Cube::root(d);
    for &place in told {
        cube = decided(d, cube, place, Side::Told);
    }
    for &place in left {
        cube = decided(d, cube, place, Side::Left);
    }
    cube
}

fn decided(d: u32, cube: Cube, place: u32, side: Side) -> Cube
    requires few { d ≤ 256 }
    requires cube { IsCube d cube }
    ensures { IsCube d result }
{
    if 1 <= place && place <= d && cube.undecided.has(place) {
        cube.decide(place, side)
    } else {
        cube
    }
}

// The least and the greatest cost of an action over a cube.
#[derive(Clone, Copy)]
struct Costs<'a> {
    told: &'a [u32],
    left: &'a [u32],
    action: u32,
    low: Option<u32>,
    high: Option<u32>,
}

fn assert_costs(rt: &impl Abort, table: &CaseTable, wanted: &Costs<'_>) {
    let cube = cube_of(table.d, wanted.told, wanted.left);
    let action = wanted.action;
    assert!(rt; (action as usize) < table.actions.len());
    assert_eq!(rt; table.low(action, &cube), wanted.low, "the low of {action}");
    assert_eq!(rt;
        table.high(action, &cube),
        wanted.high,
        "the high of {action}"
    );
}

fn assert_cheapest(rt: &impl Abort, alloc: Global, task: &Task, cost: u64) -> Result<(), Fail> {
    assert!(rt; cost < 1000000);
    let found = cheapest_below(alloc, task, cost + 1)?;
    assert!(rt; found.is_some(), "a list that costs {cost}");
    let none = cheapest_below(alloc, task, cost)?;
    assert!(rt; none.is_none(), "a list that costs less than {cost}");
    Ok(())
}

#[test]
fn the_root_of_n_has_costs_that_no_member_has_together(rt: HostRuntime) -> Result<(), Fail> {
    let table = n_table(rt.alloc())?;
    let costs = |told, left, action, low, high| Costs {
        told,
        left,
        action,
        low: Some(low),
        high: Some(high),
    };
    let rows: [Costs<'_>; 8] = [
        costs(&[], &[], 0, 2, 4),
        costs(&[], &[], 1, 4, 9),
        costs(&[], &[], 2, 10, 10),
        costs(&[1], &[], 0, 2, 2),
        costs(&[1], &[], 1, 5, 9),
        costs(&[], &[1], 1, 4, 4),
        costs(&[2], &[], 1, 4, 9),
        costs(&[], &[2], 1, 4, 5),
    ];
    for row in &rows {
        assert_costs(&rt, &table, row);
    }
    let root = cube_of(table.d, &[], &[]);
    assert_cheapest(&rt, rt.alloc(), &table.permissive(rt.alloc(), &root)?, 6)?;
    assert_cheapest(&rt, rt.alloc(), &table.restrictive(rt.alloc(), &root)?, 10)
}

// The told sets of N, and the cost of the cheapest list after each.
#[test]
fn both_tasks_of_a_single_cube_of_n_are_its_member(rt: HostRuntime) -> Result<(), Fail> {
    let table = n_table(rt.alloc())?.copy(rt.alloc())?;
    let rows: [(&[u32], &[u32], u64); 4] = [
        (&[], &[1, 2], 8),
        (&[1], &[2], 7),
        (&[2], &[1], 8),
        (&[1, 2], &[], 10),
    ];
    for (told, left, cost) in rows {
        let cube = cube_of(table.d, told, left);
        assert_eq!(rt; cube.undecided.count(), 0, "a single cube");
        assert_cheapest(&rt, rt.alloc(), &table.permissive(rt.alloc(), &cube)?, cost)?;
        assert_cheapest(
            &rt,
            rt.alloc(),
            &table.restrictive(rt.alloc(), &cube)?,
            cost,
        )?;
    }
    Ok(())
}

// Five differences: 1 and 2 of what only the planner's model has, 3 to 5 of what only the user's
// model has. Atom 1 is true at the start by either of two differences, and the action is known
// where difference 5 is left.
fn sided_table(alloc: Global) -> Result<CaseTable, Fail>
    ensures { IfOk result (λ table. table.d ≡ 5) }
{
    let action = GivenAction {
        pre: &[told(1, 2), always(0)],
        add: &[always(2), left(3, 3)],
        del: &[told(0, 1), left(1, 4)],
        cost: number(5),
        known: When::IfLeft(5),
    };
    let size = Size {
        d: 5,
        split: 2,
        atoms: 4,
    };
    let start = [always(0), told(1, 1), left(1, 3)];
    let goal = [always(2), left(3, 4)];
    Ok(table_of(alloc, size, &start, &goal, &[action])?)
}

// The start, the goal and the one action of a task.
#[derive(Clone, Copy)]
struct Parts<'a> {
    start: &'a [u32],
    goal: &'a [u32],
    pre: &'a [u32],
    add: &'a [u32],
    del: &'a [u32],
    cost: Option<u32>,
}

fn assert_parts(rt: &impl Abort, task: &Task, wanted: &Parts<'_>) {
    for atom in 0..task.atoms() {
        let starts = task.start().contains(atom);
        assert_eq!(rt; starts, wanted.start.contains(&atom), "{atom} at the start");
        let is_goal = task.goal().contains(atom);
        assert_eq!(rt; is_goal, wanted.goal.contains(&atom), "{atom} as a goal");
    }
    assert_eq!(rt; task.actions.len(), 1);
    let action = task.actions.item(0);
    assert_eq!(rt; action.pre.as_slice(), wanted.pre);
    assert_eq!(rt; action.add.as_slice(), wanted.add);
    assert_eq!(rt; action.del.as_slice(), wanted.del);
    assert_eq!(rt; action.cost, wanted.cost);
}

fn assert_tasks(
    rt: &impl Abort,
    alloc: Global,
    told: &[u32],
    left: &[u32],
    permissive: &Parts<'_>,
    restrictive: &Parts<'_>,
) -> Result<(), Fail> {
    let table = sided_table(alloc)?;
    let cube = cube_of(table.d, told, left);
    assert_parts(rt, &table.permissive(alloc, &cube)?, permissive);
    assert_parts(rt, &table.restrictive(alloc, &cube)?, restrictive);
    Ok(())
}

#[test]
fn what_is_open_helps_in_one_task_and_hinders_in_the_other(rt: HostRuntime) -> Result<(), Fail> {
    let permissive = Parts {
        start: &[0, 1],
        goal: &[2],
        pre: &[0],
        add: &[2, 3],
        del: &[],
        cost: Some(5),
    };
    let restrictive = Parts {
        start: &[0],
        goal: &[2, 3],
        pre: &[1, 0],
        add: &[2],
        del: &[0, 1],
        cost: None,
    };
    assert_tasks(&rt, rt.alloc(), &[], &[], &permissive, &restrictive)
}

#[test]
fn what_is_decided_is_in_both_tasks(rt: HostRuntime) -> Result<(), Fail> {
    let permissive = Parts {
        start: &[0, 1],
        goal: &[2, 3],
        pre: &[0],
        add: &[2, 3],
        del: &[0, 1],
        cost: Some(5),
    };
    let restrictive = Parts {
        pre: &[1, 0],
        add: &[2],
        ..permissive
    };
    assert_tasks(&rt, rt.alloc(), &[1], &[4, 5], &permissive, &restrictive)?;
    let permissive = Parts {
        start: &[0],
        goal: &[2],
        pre: &[0],
        add: &[2],
        del: &[],
        cost: None,
    };
    let restrictive = Parts {
        goal: &[2, 3],
        pre: &[1, 0],
        del: &[1],
        ..permissive
    };
    assert_tasks(&rt, rt.alloc(), &[3, 5], &[1], &permissive, &restrictive)?;
    let member = Parts {
        start: &[0, 1],
        goal: &[2],
        pre: &[1, 0],
        add: &[2, 3],
        del: &[],
        cost: Some(5),
    };
    assert_tasks(&rt, rt.alloc(), &[2, 4], &[1, 3, 5], &member, &member)
}

// The differences that have a part in an action, up to the fifth.
fn assert_touched(rt: &impl Abort, table: &CaseTable, action: usize, wanted: &[u32]) {
    assert!(rt; action < table.actions.len());
    for place in 1..6u32 {
        let touches = table.actions.item(action).touches(place);
        assert_eq!(rt; touches, wanted.contains(&place), "{place} in {action}");
    }
}

#[test]
fn an_action_is_touched_by_its_cases_its_knowledge_and_its_cost(
    rt: HostRuntime,
) -> Result<(), Fail> {
    let n = n_table(rt.alloc())?;
    assert_touched(&rt, &n, 0, &[1]);
    assert_touched(&rt, &n, 1, &[1, 2]);
    assert_touched(&rt, &n, 2, &[]);
    assert_touched(&rt, &sided_table(rt.alloc())?, 0, &[1, 2, 3, 4, 5]);
    Ok(())
}

#[test]
fn a_cost_may_have_a_number(rt: HostRuntime) {
    let none = CaseValue::One(None);
    let some = CaseValue::Two {
        place: 1,
        told: None,
        left: Some(3),
    };
    assert!(rt; number(3).has_number());
    assert!(rt; !CaseCost::One(none).has_number());
    assert!(rt; CaseCost::One(some).has_number());
    let both = CaseCost::Two {
        place: 2,
        told: none,
        left: some,
    };
    assert!(rt; both.has_number());
}

#[test]
fn the_laws_are_there() {
    law_child();
    law_relaxed();
    law_members();
    law_lists();
    law_sums();
}
