//! The adds of all actions, by action and by atom.
ghost use Rattle.std.specs.Prelude.{◌≡◌, ◌+◌, ◌<◌, length, OnOk};

use mre_base::{Bits, NoMemory};
use std::alloc::Global;
use task_kit::TaskView;

/// An action that adds an atom, and the place of the previous action that adds the same atom.
#[derive(Clone, Copy)]
pub struct Add {
    pub action: u32,
    pub atom: u32,
    pub before: Option<usize>,
}

/// The adds of all actions, one action after another.
pub struct Adding {
    adds: Vec<Add>,
    // The end of each action's adds.
    ends: Vec<usize>,
    // The place of the last action that adds each atom.
    last: Vec<Option<usize>>,
}

impl Drop for Adding {
    fn drop(self) {
        let Adding {
            adds: _,
            ends: _,
            last: _,
        } = self;
    }
}

impl Adding {
    pub fn for_task<T: TaskView>(alloc: Global, task: &T) -> Result<Adding, NoMemory> {
        let mut adding = Adding {
            adds: Vec::new(alloc),
            ends: Vec::new(alloc),
            last: Vec::from_elem(alloc, None, task.atoms() as usize)?,
        };
        let none = Bits::empty(alloc, task.atoms() + 1)?;
        let mut listed = none.copy(alloc)?;
        for action in 0..task.actions() {
            listed.copy_from(&none);
            adding.list(task, action, &mut listed)?;
            adding.ends.push(adding.adds.len())?;
        }
        Ok(adding)
    }

    // Lists the adds of an action that aren't in the set, and puts them into it.
    fn list<T: TaskView>(
        &mut self,
        task: &T,
        action: u32,
        listed: &mut Bits,
    ) -> Result<(), NoMemory>
        requires listed { action < length (T.seen task.now).actions }
        requires width { listed.old.width ≡ (T.seen task.now).atoms + 1 }
        ensures { OnOk result (listed.new.width ≡ listed.old.width) }
    {
        for _ in 0..task.atoms() {
            let Some(atom) = task.outside(action, listed) else {
                break;
            };
            listed.put(atom);
            self.push(action, atom)?;
        }
        Ok(())
    }

    fn push(&mut self, action: u32, atom: u32) -> Result<(), NoMemory> {
        let place = self.adds.len();
        if (atom as usize) < self.last.len() {
            let before = self.last[atom as usize];
            self.last[atom as usize] = Some(place);
            self.adds.push(Add {
                action,
                atom,
                before,
            })?;
        }
        Ok(())
    }

    /// The adds of an action.
    pub fn of_action(&self, action: u32) -> &[Add] {
        let start = match action.checked_sub(1) {
            None => 0,
            Some(before) => self.end_of(before),
        };
        let end = self.end_of(action);
        if start <= end && end <= self.adds.len() {
            &self.adds.as_slice()[start..end]
        } else {
            &[]
        }
    }

    fn end_of(&self, action: u32) -> usize {
        self.ends.get(action as usize).copied().unwrap_or(0)
    }

    /// The place of the last action that adds an atom.
    pub fn last_to(&self, atom: u32) -> Option<usize> {
        self.last.get(atom as usize).copied().unwrap_or(None)
    }

    pub fn at(&self, place: usize) -> Option<Add> {
        self.adds.get(place).copied()
    }

    pub fn len(&self) -> usize {
        self.adds.len()
    }
}
