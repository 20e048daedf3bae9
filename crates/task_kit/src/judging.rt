//! Judging a list of actions on a task.

ghost use Rattle.std.specs.Prelude.{◌≡◌, ◌+◌, ◌*◌, ◌^◌, ◌<◌, ◌↔◌, IsTrue, All, length};
ghost use Rattle.task_kit.specs.Judged.{IsJudged, IsStepFault, says_valid, CostsAtMost};
ghost use Rattle.task_kit.specs.Tasks.{IsValid, IsFirstLack};

use crate::price::price_of;
use crate::view::TaskView;
use mre_base::Bits;

/// The judgement of a list of actions on a task. Steps count from 1, and the atom is the least that
/// is missing there.
#[derive(Clone, Copy, Debug, PartialEq, Eq)]
pub enum Judgement {
    /// The actions apply one after another and lead to the goal, at this cost.
    Valid { cost: u64 },
    /// The first step that doesn't apply lacks a precondition.
    Fails { step: u32, atom: u32 },
    /// The first step that doesn't apply has its preconditions, but no cost.
    NoCost { step: u32 },
    /// All steps apply, and the last state lacks a goal atom.
    GoalMissing { atom: u32 },
}

// The least wanted atom that the state lacks.
fn first_lack(wanted: &Bits, state: &Bits) -> Option<u32>
    requires { wanted.now.width ≡ state.now.width }
    ensures { IsFirstLack wanted.now.members state.now.members result }
{
    for atom in 0..wanted.width() {
        if wanted.contains(atom) && !state.contains(atom) {
            return Some(atom);
        }
    }
    None
}

// Why a step can't be made in a state, if it can't.
fn fault_at<T: TaskView>(task: &T, action: u32, state: &Bits, step: u32) -> Option<Judgement>
    requires listed { action < length (T.seen task.now).actions }
    requires width { state.now.width ≡ (T.seen task.now).atoms + 1 }
    ensures { IsStepFault (T.seen task.now) action state.now.members step result }
{
    match task.missing(action, state) {
        Some(atom) => Some(Judgement::Fails { step, atom }),
        None => match task.cost(action) {
            Some(_) => None,
            None => Some(Judgement::NoCost { step }),
        },
    }
}

/// Judges a list of actions: whether they apply one after another from the start and lead to the
/// goal. A valid list costs at most 4294967295 for each action. The two sets are room for the states
/// in between.
pub fn judge<T: TaskView>(task: &T, plan: &[u32], one: &mut Bits, two: &mut Bits) -> Judgement
    requires listed { All (λ action. action < length (T.seen task.now).actions) plan.now }
    requires few { length plan.now < 2 ^ 32 }
    requires one { one.old.width ≡ (T.seen task.now).atoms + 1 }
    requires two { two.old.width ≡ (T.seen task.now).atoms + 1 }
    ensures judged { IsJudged (T.seen task.now) plan.now result }
    ensures valid { IsTrue (says_valid result) ↔ IsValid (T.seen task.now) plan.now }
    ensures cost { CostsAtMost (length plan.now * 4294967295) result }
    ensures one { one.new.width ≡ one.old.width }
    ensures two { two.new.width ≡ two.old.width }
{
    one.copy_from(task.start());
    let mut cost = 0;
    for (place, &action) in plan.iter().enumerate() {
        if let Some(fault) = fault_at(task, action, one, place as u32 + 1) {
            return fault;
        }
        cost += price_of(task, action);
        task.next_into(action, one, two);
        one.copy_from(two);
    }
    match first_lack(task.goal(), one) {
        None => Judgement::Valid { cost },
        Some(atom) => Judgement::GoalMissing { atom },
    }
}
