//! Tests of bound proofs.

use crate::forming::are_formed;
use crate::making::{GivenCut, GivenState, action, proof_of, task_of};
use bound_cert::{BoundFault, BoundRule, Scratch, check_bound};
use std::alloc::Global;
use std::process::Abort;
use std::test::Fail;
use task_kit::Task;

// Atoms: 0 (g), 1 (p), 2 (r), 3 (s). Actions: 0 (hop), 1 (jump), 2 (open), 3 (walk). The cheapest
// list costs 2.
fn o_task(alloc: Global) -> Result<Task, Fail> {
    let hop = action(&[3], &[0], &[], Some(3));
    let jump = action(&[3], &[0], &[], Some(3));
    let open = action(&[2], &[3], &[], Some(0));
    let walk = action(&[1], &[0], &[], Some(2));
    Ok(task_of(alloc, 4, &[1, 2], &[0], &[hop, jump, open, walk])?)
}

// The start, expanded.
const START: GivenState<'static> = GivenState {
    number: 0,
    state: &[1, 2],
    cuts: None,
};

// The state after open, pruned by these cuts.
fn opened<'a>(cuts: &'a [GivenCut<'a>]) -> GivenState<'a> {
    GivenState {
        number: 0,
        state: &[1, 2, 3],
        cuts: Some(cuts),
    }
}

fn cut(weight: u64, lacks: &[u32]) -> GivenCut<'_> {
    GivenCut { weight, lacks }
}

fn fault(line: u32, rule: BoundRule) -> Result<(), BoundFault> {
    Err(BoundFault { line, rule })
}

fn assert_told(
    rt: &impl Abort,
    alloc: Global,
    k: u64,
    list: &[GivenState<'_>],
    wanted: Result<(), BoundFault>,
) -> Result<(), Fail> {
    let task = o_task(alloc)?;
    let proof = proof_of(alloc, 4, k, list)?;
    assert!(rt; are_formed(&task, &proof.states));
    let mut scratch = Scratch::for_task(alloc, &task)?;
    let told = check_bound(&task, k, &proof, &mut scratch);
    assert_eq!(rt; told, wanted);
    Ok(())
}

#[test]
fn bound_proofs_are_right(rt: HostRuntime) -> Result<(), Fail> {
    let alloc = rt.alloc();
    assert_told(&rt, alloc, 2, &[START, opened(&[cut(2, &[0])])], Ok(()))?;
    assert_told(&rt, alloc, 0, &[], Ok(()))
}

#[test]
fn wrong_states_are_told_by_their_lines(rt: HostRuntime) -> Result<(), Fail> {
    let alloc = rt.alloc();
    assert_told(&rt, alloc, 2, &[START], fault(2, BoundRule::Successor))?;
    assert_told(&rt, alloc, 1, &[], fault(1, BoundRule::Start))?;
    let few = [cut(1, &[0])];
    assert_told(
        &rt,
        alloc,
        2,
        &[START, opened(&few)],
        fault(3, BoundRule::Sum),
    )
}

#[test]
fn wrong_cuts_are_told_by_their_lines(rt: HostRuntime) -> Result<(), Fail> {
    let alloc = rt.alloc();
    let much = [cut(1, &[0]), cut(2, &[0])];
    assert_told(
        &rt,
        alloc,
        2,
        &[START, opened(&much)],
        fault(5, BoundRule::Charge),
    )?;
    let without = [cut(2, &[3])];
    assert_told(
        &rt,
        alloc,
        2,
        &[START, opened(&without)],
        fault(4, BoundRule::Cut),
    )
}
