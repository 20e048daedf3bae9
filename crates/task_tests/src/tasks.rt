//! Tests of judging and searching.

use crate::making::{action, list_below, task_of};
use mre_base::{Bits, List};
use std::alloc::Global;
use std::process::Abort;
use std::test::Fail;
use task_kit::{Cut, Cuts, Judgement, Task, TaskView, cheapest_below, judge, law_bounds, law_cuts};

// W with the facts (p) (q) or fewer. Atoms: 0 (g), 1 (p), 2 (q). Actions: 0 (jump), 1 (walk).
fn w_task(alloc: Global, start: &[u32]) -> Result<Task, Fail> {
    let jump = action(&[2], &[0], &[], Some(1));
    let walk = action(&[1], &[0], &[], Some(2));
    Ok(task_of(alloc, 3, start, &[0], &[jump, walk])?)
}

// V with the precondition and the cost of jump. Atoms: 0 (g), 1 (p), 2 (r). Actions: 0 (jump), 1
// (walk).
fn v_task(alloc: Global, start: &[u32], needs: &[u32], cost: u32) -> Result<Task, Fail> {
    let jump = action(needs, &[0], &[], Some(cost));
    let walk = action(&[1], &[0], &[], Some(2));
    Ok(task_of(alloc, 3, start, &[0], &[jump, walk])?)
}

// O with the precondition of open and the costs of hop and jump. Atoms: 0 (g), 1 (p), 2 (r), 3 (s).
// Actions: 0 (hop), 1 (jump), 2 (open), 3 (walk).
fn o_task(alloc: Global, start: &[u32], needs: &[u32], hop: u32, jump: u32) -> Result<Task, Fail> {
    let hop = action(&[3], &[0], &[], Some(hop));
    let jump = action(&[3], &[0], &[], Some(jump));
    let open = action(needs, &[3], &[], Some(0));
    let walk = action(&[1], &[0], &[], Some(2));
    Ok(task_of(alloc, 4, start, &[0], &[hop, jump, open, walk])?)
}

// N with the costs of the two steps of go. Atoms: 0 (at a), 1 (at b), 2 (at c), 3 (link a b), 4
// (link b c). Actions: 0 (go a b), 1 (go b a), which has no cost, 2 (go b c), 3 (ride).
fn n_task(alloc: Global, first: u32, second: u32) -> Result<Task, Fail> {
    let there = action(&[0, 3], &[1], &[0], Some(first));
    let back = action(&[1], &[0], &[1], None);
    let on = action(&[1, 4], &[2], &[1], Some(second));
    let ride = action(&[0], &[2], &[], Some(10));
    Ok(task_of(alloc, 5, &[0, 3, 4], &[2], &[there, back, on, ride])?)
}

// A list of actions, and its judgement.
#[derive(Clone, Copy)]
struct Trial<'a> {
    plan: &'a [u32],
    wanted: Judgement,
}

fn judged<'a>(plan: &'a [u32], wanted: Judgement) -> Trial<'a> {
    Trial { plan, wanted }
}

fn assert_judged(
    rt: &impl Abort,
    alloc: Global,
    task: &Task,
    trial: &Trial<'_>,
) -> Result<(), Fail> {
    let plan = list_below(alloc, task.actions(), trial.plan)?;
    assert!(rt; plan.len() < 100);
    let mut one = task.start().copy(alloc)?;
    let mut two = task.start().copy(alloc)?;
    let told = judge(task, plan.as_slice(), &mut one, &mut two);
    assert_eq!(rt; told, trial.wanted, "{:?}", trial.plan);
    Ok(())
}

fn assert_all_judged(
    rt: &impl Abort,
    alloc: Global,
    task: &Task,
    trials: &[Trial<'_>],
) -> Result<(), Fail> {
    for trial in trials {
        assert_judged(rt, alloc, task, trial)?;
    }
    Ok(())
}

fn assert_found(
    rt: &impl Abort,
    alloc: Global,
    task: &Task,
    k: u64,
    plan: &[u32],
) -> Result<(), Fail> {
    assert!(rt; k < 70368744177664);
    let found = cheapest_below(alloc, task, k)?.expect(rt, "a list");
    assert_eq!(rt; found.as_slice(), plan);
    Ok(())
}

fn assert_none(rt: &impl Abort, alloc: Global, task: &Task, k: u64) -> Result<(), Fail> {
    assert!(rt; k < 70368744177664);
    let found = cheapest_below(alloc, task, k)?;
    assert!(rt; found.is_none());
    Ok(())
}

// Checks the cost of the cheapest list: a search below one more and a search below the greatest
// bound find it, and a search below the cost finds none.
fn assert_cheapest(
    rt: &impl Abort,
    alloc: Global,
    task: Task,
    cost: u64,
    plan: &[u32],
) -> Result<(), Fail> {
    assert!(rt; cost < 1000000);
    assert_found(rt, alloc, &task, cost + 1, plan)?;
    assert_found(rt, alloc, &task, 70368744177663, plan)?;
    assert_none(rt, alloc, &task, cost)?;
    assert_judged(rt, alloc, &task, &judged(plan, Judgement::Valid { cost }))
}

#[test]
fn w_is_judged(rt: HostRuntime) -> Result<(), Fail> {
    let trials = [
        judged(&[1], Judgement::Valid { cost: 2 }),
        judged(&[1, 1], Judgement::Valid { cost: 4 }),
        judged(&[0], Judgement::Fails { step: 1, atom: 2 }),
        judged(&[1, 0], Judgement::Fails { step: 2, atom: 2 }),
        judged(&[], Judgement::GoalMissing { atom: 0 }),
    ];
    assert_all_judged(&rt, rt.alloc(), &w_task(rt.alloc(), &[1])?, &trials)
}

#[test]
fn v_is_judged(rt: HostRuntime) -> Result<(), Fail> {
    let trials = [
        judged(&[0], Judgement::Valid { cost: 3 }),
        judged(&[1], Judgement::Valid { cost: 2 }),
        judged(&[0, 1], Judgement::Valid { cost: 5 }),
    ];
    assert_all_judged(
        &rt,
        rt.alloc(),
        &v_task(rt.alloc(), &[1, 2], &[2], 3)?,
        &trials,
    )
}

#[test]
fn o_is_judged(rt: HostRuntime) -> Result<(), Fail> {
    let trials = [
        judged(&[2, 1], Judgement::Valid { cost: 1 }),
        judged(&[2, 2, 0], Judgement::Valid { cost: 1 }),
        judged(&[1, 2], Judgement::Fails { step: 1, atom: 3 }),
        judged(&[2], Judgement::GoalMissing { atom: 0 }),
    ];
    assert_all_judged(
        &rt,
        rt.alloc(),
        &o_task(rt.alloc(), &[1], &[], 1, 1)?,
        &trials,
    )
}

#[test]
fn n_is_judged(rt: HostRuntime) -> Result<(), Fail> {
    let trials = [
        judged(&[0, 2], Judgement::Valid { cost: 11 }),
        judged(&[3], Judgement::Valid { cost: 10 }),
        judged(&[0, 0], Judgement::Fails { step: 2, atom: 0 }),
        judged(&[0, 1, 0], Judgement::NoCost { step: 2 }),
        judged(&[1], Judgement::Fails { step: 1, atom: 1 }),
        judged(&[0], Judgement::GoalMissing { atom: 2 }),
    ];
    assert_all_judged(&rt, rt.alloc(), &n_task(rt.alloc(), 2, 9)?, &trials)
}

#[test]
fn w_has_its_cheapest_lists(rt: HostRuntime) -> Result<(), Fail> {
    assert_cheapest(&rt, rt.alloc(), w_task(rt.alloc(), &[1])?, 2, &[1])?;
    assert_cheapest(&rt, rt.alloc(), w_task(rt.alloc(), &[1, 2])?, 1, &[0])
}

#[test]
fn v_has_its_cheapest_lists(rt: HostRuntime) -> Result<(), Fail> {
    assert_cheapest(
        &rt,
        rt.alloc(),
        v_task(rt.alloc(), &[1, 2], &[2], 3)?,
        2,
        &[1],
    )?;
    assert_cheapest(&rt, rt.alloc(), v_task(rt.alloc(), &[1], &[], 1)?, 1, &[0])?;
    assert_cheapest(&rt, rt.alloc(), v_task(rt.alloc(), &[1], &[2], 1)?, 2, &[1])?;
    assert_cheapest(
        &rt,
        rt.alloc(),
        v_task(rt.alloc(), &[1, 2], &[2], 1)?,
        1,
        &[0],
    )
}

#[test]
fn o_has_its_cheapest_lists(rt: HostRuntime) -> Result<(), Fail> {
    assert_cheapest(
        &rt,
        rt.alloc(),
        o_task(rt.alloc(), &[1, 2], &[2], 3, 3)?,
        2,
        &[3],
    )?;
    assert_cheapest(
        &rt,
        rt.alloc(),
        o_task(rt.alloc(), &[1], &[], 1, 3)?,
        1,
        &[2, 0],
    )?;
    assert_cheapest(
        &rt,
        rt.alloc(),
        o_task(rt.alloc(), &[1], &[], 3, 1)?,
        1,
        &[2, 1],
    )?;
    assert_cheapest(
        &rt,
        rt.alloc(),
        o_task(rt.alloc(), &[1], &[2], 1, 1)?,
        2,
        &[3],
    )
}

#[test]
fn n_has_its_cheapest_lists(rt: HostRuntime) -> Result<(), Fail> {
    assert_cheapest(&rt, rt.alloc(), n_task(rt.alloc(), 4, 4)?, 8, &[0, 2])?;
    assert_cheapest(&rt, rt.alloc(), n_task(rt.alloc(), 2, 5)?, 7, &[0, 2])?;
    assert_cheapest(&rt, rt.alloc(), n_task(rt.alloc(), 2, 9)?, 10, &[3])
}

#[test]
fn no_list_leads_to_what_is_never_true(rt: HostRuntime) -> Result<(), Fail> {
    let walk = action(&[1], &[0], &[], Some(0));
    let leap = action(&[2], &[0], &[], Some(0));
    let task = task_of(rt.alloc(), 2, &[1], &[2], &[walk, leap])?;
    let trials = [
        judged(&[0], Judgement::GoalMissing { atom: 2 }),
        judged(&[1], Judgement::Fails { step: 1, atom: 2 }),
    ];
    assert_all_judged(&rt, rt.alloc(), &task, &trials)?;
    assert_none(&rt, rt.alloc(), &task, 70368744177663)
}

#[test]
fn a_goal_at_the_start_costs_nothing(rt: HostRuntime) -> Result<(), Fail> {
    assert_cheapest(
        &rt,
        rt.alloc(),
        task_of(rt.alloc(), 1, &[0], &[0], &[])?,
        0,
        &[],
    )?;
    assert_cheapest(
        &rt,
        rt.alloc(),
        task_of(rt.alloc(), 0, &[], &[], &[])?,
        0,
        &[],
    )
}

// The path over 2 is found later and is cheaper. Atom 1 stays true when an action deletes and adds
// it.
#[test]
fn a_cheaper_way_is_taken(rt: HostRuntime) -> Result<(), Fail> {
    let dear = action(&[0], &[1], &[0], Some(5));
    let first = action(&[0], &[2], &[0], Some(1));
    let second = action(&[2], &[1], &[2], Some(2));
    let last = action(&[1], &[1, 3], &[1], Some(4294967295));
    let task = task_of(rt.alloc(), 4, &[0], &[1, 3], &[dear, first, second, last])?;
    assert_judged(
        &rt,
        rt.alloc(),
        &task,
        &judged(&[0, 3, 3], Judgement::Valid { cost: 8589934595 }),
    )?;
    assert_found(&rt, rt.alloc(), &task, 4294967299, &[1, 2, 3])?;
    assert_none(&rt, rt.alloc(), &task, 4294967298)
}

#[test]
fn a_view_tells_its_task(rt: HostRuntime) -> Result<(), Fail> {
    let n = n_task(rt.alloc(), 2, 9)?;
    assert_eq!(rt; n.atoms(), 5);
    assert_eq!(rt; n.actions(), 4);
    assert_eq!(rt; n.cost(1), None);
    assert_eq!(rt; n.cost(2), Some(9));
    assert!(rt; n.goal().contains(2));
    assert!(rt; n.applies(0, n.start()));
    assert!(rt; !n.applies(2, n.start()));
    assert_eq!(rt; n.missing(2, n.start()), Some(1));
    assert_eq!(rt; n.missing(3, n.start()), None);
    assert!(rt; n.adds_outside(0, n.start()));
    assert_eq!(rt; n.outside(0, n.start()), Some(1));
    let mut next = Bits::empty(rt.alloc(), 6)?;
    n.next_into(0, n.start(), &mut next);
    assert!(rt; !next.contains(0) && next.contains(1) && next.contains(3));
    assert!(rt; !n.adds_outside(0, &next));
    assert_eq!(rt; n.outside(0, &next), None);
    Ok(())
}

#[test]
fn cuts_name_what_they_lack(rt: HostRuntime) -> Result<(), Fail> {
    let mut cuts: Cuts = List::empty(rt.alloc());
    cuts.push(Cut {
        weight: 2,
        lacks: list_below(rt.alloc(), 3, &[0, 7])?,
    })?;
    assert_eq!(rt; cuts.len(), 1);
    assert_eq!(rt; cuts.item(0).weight, 2);
    assert_eq!(rt; cuts.item(0).lacks.as_slice(), [0].as_slice());
    law_cuts();
    law_bounds();
    Ok(())
}
