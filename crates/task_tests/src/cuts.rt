//! Tests of cuts.

use crate::making::{action, task_of};
use mre_base::NoMemory;
use relax_cuts::cuts_for;
use std::alloc::Global;
use std::process::Abort;
use std::test::Fail;
use task_kit::{Cuts, Task, TaskView};

const MOST: u64 = 70368744177663;

// An expected cut.
#[derive(Clone, Copy)]
struct Wanted<'a> {
    weight: u64,
    lacks: &'a [u32],
}

fn cut<'a>(weight: u64, lacks: &'a [u32]) -> Wanted<'a> {
    Wanted { weight, lacks }
}

fn cuts_of_start(alloc: Global, task: &Task) -> Result<Cuts, NoMemory> {
    let _atoms = task.atoms();
    cuts_for(alloc, task, task.start())
}

fn assert_cuts(
    rt: &impl Abort,
    alloc: Global,
    task: Task,
    wanted: &[Wanted<'_>],
) -> Result<(), Fail> {
    let cuts = cuts_of_start(alloc, &task)?;
    assert_eq!(rt; cuts.len(), wanted.len());
    for (place, one) in wanted.iter().enumerate() {
        let cut = cuts.item(place);
        assert_eq!(rt; cut.weight, one.weight, "at {place}");
        assert_eq!(rt; cut.lacks.as_slice(), one.lacks, "at {place}");
    }
    Ok(())
}

// Atoms: 0 (the goal), 1 (the start), 2 (between them).
#[test]
fn each_step_of_a_way_is_a_cut(rt: HostRuntime) -> Result<(), Fail> {
    let first = action(&[1], &[2], &[1], Some(2));
    let second = action(&[2], &[0], &[], Some(3));
    let task = task_of(rt.alloc(), 3, &[1], &[0], &[first, second])?;
    assert_cuts(&rt, rt.alloc(), task, &[cut(3, &[0]), cut(2, &[0, 2])])
}

// Cut only by the closures of the start, the cuts would weigh 4.
#[test]
fn each_goal_atom_is_paid_for(rt: HostRuntime) -> Result<(), Fail> {
    let one = action(&[2], &[0], &[], Some(3));
    let other = action(&[2], &[1], &[], Some(4));
    let task = task_of(rt.alloc(), 3, &[2], &[0, 1], &[one, other])?;
    assert_cuts(&rt, rt.alloc(), task, &[cut(4, &[1]), cut(3, &[0])])
}

// Atoms: 0 (the goal), 1 (the start), 2 (never true), 3 (after the open action).
#[test]
fn what_costs_nothing_is_taken(rt: HostRuntime) -> Result<(), Fail> {
    let hop = action(&[3], &[0], &[], Some(3));
    let jump = action(&[3], &[0], &[], Some(1));
    let open = action(&[], &[3], &[], Some(0));
    let walk = action(&[1], &[0], &[], Some(2));
    let task = task_of(rt.alloc(), 4, &[1], &[0], &[hop, jump, open, walk])?;
    assert_cuts(&rt, rt.alloc(), task, &[cut(1, &[0, 2])])?;
    let free = action(&[3], &[0], &[], Some(0));
    let task = task_of(rt.alloc(), 4, &[1], &[0], &[free, open])?;
    assert_cuts(&rt, rt.alloc(), task, &[])
}

// The number 2 means what can never be true, and the first action has no cost.
#[test]
fn a_dead_end_has_a_cut_that_counts_nothing(rt: HostRuntime) -> Result<(), Fail> {
    let never = action(&[1], &[0], &[], None);
    let after = action(&[0], &[0], &[], Some(1));
    let task = task_of(rt.alloc(), 2, &[1], &[0], &[never, after])?;
    assert_cuts(&rt, rt.alloc(), task, &[cut(MOST, &[0])])?;
    let walk = action(&[1], &[0], &[], Some(5));
    let task = task_of(rt.alloc(), 2, &[1], &[2], &[walk])?;
    assert_cuts(&rt, rt.alloc(), task, &[cut(MOST, &[])])
}
