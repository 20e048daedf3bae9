//! Cuts of pruned states.
ghost use Rattle.std.specs.Prelude.{ℕ, ◌≡◌, ◌+◌, ◌^◌, ◌≤◌, ◌<◌, [], ◌∷◌, ◌++◌, List, length};
ghost use Rattle.std.specs.Prelude.{slice_index, All, IsTrue, IfSome, IfNone};
ghost use Rattle.std.specs.FinSet as set;
ghost use Rattle.task_kit.specs.Cuts.{CutMeaning};
ghost use Rattle.task_kit.specs.Kept.{cut_meaning, cuts_meaning};
ghost use Rattle.task_kit.specs.Tasks.{price, set_of};
ghost use Rattle.bound_cert.specs.declared.proof.BoundState.{BoundState};
ghost use Rattle.bound_cert.specs.Formed.{IsInRange};
ghost use Rattle.bound_cert.specs.Lines.{Line, OfCut, cut_lines, BreaksFirst, Keeps, IsFirstFault};
ghost use Rattle.bound_cert.specs.Rooms.{IsScratchOf, AreCharged};

use crate::charging::{charge, charge_none};
use crate::proof::{BoundFault, BoundRule};
use crate::scratch::Scratch;
use mre_base::Bits;
use task_kit::{Cut, Cuts, TaskView};

// Makes the set of a cut.
fn make_set(all: &Bits, lacks: &[u32], among: &mut Bits)
    requires width { among.old.width ≡ all.now.width }
    requires lacks { All (λ atom. atom < all.now.width) lacks.now }
    ensures { among.new ≡ record all.now {
      members = set.difference all.now.members
          (set_of lacks.now);
    } }
{
    among.copy_from(all);
    for &atom in lacks {
        among.take_out(atom);
    }
}

// The first rule that the line of a cut breaks, after the charges of the cuts before it.
fn broken_by_cut<T: TaskView>(
    task: &T,
    state: &Bits,
    cut: &Cut,
    scratch: &mut Scratch,
) -> Option<BoundRule>
    requires width { state.now.width ≡ (T.seen task.now).atoms + 1 }
    requires in_range { IsInRange (T.seen task.now).atoms cut.now }
    requires scratch { IsScratchOf (T.seen task.now) scratch.old }
    requires within { (action : ℕ) → action < length (T.seen task.now).actions →
        slice_index scratch.old.charged.items action ≤ price (T.seen task.now) action }
    ensures kept { (before : List CutMeaning) (k : ℕ) (states : List BoundState) →
        AreCharged (T.seen task.now) before scratch.old.charged.items →
        IfNone result (Keeps (T.seen task.now) k states
        (OfCut state.now.members before (cut_meaning (T.seen task.now).atoms cut.now))) }
    ensures charged { (before : List CutMeaning) →
        AreCharged (T.seen task.now) before scratch.old.charged.items →
        IfNone result (AreCharged (T.seen task.now)
        (before ++ cut_meaning (T.seen task.now).atoms cut.now ∷ []) scratch.new.charged.items) }
    ensures broken { (before : List CutMeaning) (k : ℕ) (states : List BoundState) →
        AreCharged (T.seen task.now) before scratch.old.charged.items →
        IfSome result (λ rule. BreaksFirst (T.seen task.now) k states
        (OfCut state.now.members before (cut_meaning (T.seen task.now).atoms cut.now)) rule) }
    ensures scratch { IsScratchOf (T.seen task.now) scratch.new }
{
    make_set(&scratch.all, cut.lacks.as_slice(), &mut scratch.among);
    if !state.is_subset(&scratch.among) {
        return Some(BoundRule::Cut);
    }
    if task.goal().is_subset(&scratch.among) {
        return Some(BoundRule::Cut);
    }
    if !charge(task, cut.weight, &scratch.among, &mut scratch.charged) {
        return Some(BoundRule::Charge);
    }
    None
}

/// The first fault in the lines of a state's cuts, which count from `line` on.
pub fn fault_in_cuts<T: TaskView>(
    task: &T,
    state: &Bits,
    cuts: &Cuts,
    scratch: &mut Scratch,
    line: u32,
) -> Option<BoundFault>
    requires width { state.now.width ≡ (T.seen task.now).atoms + 1 }
    requires in_range { All (IsInRange (T.seen task.now).atoms) cuts.now }
    requires scratch { IsScratchOf (T.seen task.now) scratch.old }
    requires few { line + length cuts.now < 2 ^ 32 }
    ensures kept { IfNone result ((k : ℕ) (states : List BoundState)
        → All (Keeps (T.seen task.now) k states)
        (cut_lines state.now.members [] (cuts_meaning (T.seen task.now).atoms cuts.now))) }
    ensures broken { IfSome result (λ fault. (k : ℕ) (states : List BoundState)
        → IsFirstFault (T.seen task.now) k states
        (cut_lines state.now.members [] (cuts_meaning (T.seen task.now).atoms cuts.now))
        line fault) }
    ensures scratch { IsScratchOf (T.seen task.now) scratch.new }
{
    charge_none(&mut scratch.charged);
    for place in 0..cuts.len() {
        let broken = broken_by_cut(task, state, cuts.item(place), scratch);
        if let Some(rule) = broken {
            return Some(BoundFault {
                line: line + place as u32,
                rule,
            });
        }
    }
    None
}
