//! A task that keeps its actions as lists.

ghost use Rattle.std.specs.Prelude.{◌≡◌, ◌+◌};
ghost use Rattle.task_kit.specs.Tasks.{IsTask};
ghost use Rattle.task_kit.specs.Kept.{task_meaning};

use crate::action::TaskAction;
use crate::atoms::{has_all, least_missing, put_all, take_all};
use crate::view::TaskView;
use mre_base::{Bits, List};

/// A task on numbers that keeps its actions as lists. The start and the adds are below `atoms`; the
/// goal, the preconditions and the deletes are at most `atoms`. Each set is one number wider than
/// `atoms`.
#[derive(Debug)]
pub struct Task {
    pub atoms: u32,
    pub start: Bits,
    pub goal: Bits,
    pub actions: List<TaskAction>,
    ghost start_width: { start.width ≡ atoms + 1 },
    ghost goal_width: { goal.width ≡ atoms + 1 },
    ghost in_range: { IsTask (task_meaning atoms start goal actions) },
}

impl Drop for Task {
    fn drop(self) {
        let Task {
            atoms: _,
            start: _,
            goal: _,
            actions: _,
        } = self;
    }
}

impl TaskView for Task {
    ghost seen = { λ t. task_meaning t.atoms t.start t.goal t.actions };

    fn atoms(&self) -> u32 {
        self.atoms
    }

    fn start(&self) -> &Bits {
        &self.start
    }

    fn goal(&self) -> &Bits {
        &self.goal
    }

    fn actions(&self) -> u32 {
        self.actions.len() as u32
    }

    fn cost(&self, action: u32) -> Option<u32> {
        self.actions.item(action as usize).cost
    }

    fn applies(&self, action: u32, state: &Bits) -> bool {
        let action = self.actions.item(action as usize);
        action.cost.is_some() && has_all(state, action.pre.as_slice())
    }

    fn missing(&self, action: u32, state: &Bits) -> Option<u32> {
        let action = self.actions.item(action as usize);
        least_missing(state, action.pre.as_slice())
    }

    fn next_into(&self, action: u32, state: &Bits, into: &mut Bits) {
        let action = self.actions.item(action as usize);
        into.copy_from(state);
        take_all(into, action.del.as_slice());
        put_all(into, action.add.as_slice());
    }

    fn adds_outside(&self, action: u32, among: &Bits) -> bool {
        let action = self.actions.item(action as usize);
        !has_all(among, action.add.as_slice())
    }

    fn outside(&self, action: u32, among: &Bits) -> Option<u32> {
        let action = self.actions.item(action as usize);
        least_missing(among, action.add.as_slice())
    }
}
