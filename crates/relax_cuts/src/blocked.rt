//! Blocked actions: each waits for one missing precondition and is expanded again only when that
//! atom is reached.
ghost use Rattle.std.specs.Prelude.{◌<◌, length, All, IfOk, IfSome, OnOk};
ghost use Rattle.relax_cuts.specs.Blocked.{IsBelow, AreBelow};

use mre_base::NoMemory;
use std::alloc::Global;

/// The actions blocked by each atom, as linked lists, and the actions that are ready. An action is
/// blocked by one atom at a time.
pub struct BlockedActions {
    // The action that each atom blocked last.
    last: Vec<Option<u32>>,
    // The action that the same atom blocked before.
    before: Vec<Option<u32>>,
    ready: Vec<u32>,
    ghost last_listed: { AreBelow (length before.items) last.items },
    ghost before_listed: { AreBelow (length before.items) before.items },
    ghost ready_listed: { All (λ action. action < length before.items) ready.items },
}

impl Drop for BlockedActions {
    fn drop(self) {
        let BlockedActions {
            last: _,
            before: _,
            ready: _,
        } = self;
    }
}

impl BlockedActions {
    ghost use Rattle.relax_cuts.specs.BlockedSize.{HasRoom, IsAsLarge};

    /// Room for this number of atoms and actions, with no action blocked.
    pub fn empty(alloc: Global, atoms: u32, actions: u32) -> Result<BlockedActions, NoMemory>
        ensures { IfOk result (λ made. HasRoom atoms actions made) }
    {
        Ok(BlockedActions {
            last: Vec::from_elem(alloc, None, atoms as usize)?,
            before: Vec::from_elem(alloc, None, actions as usize)?,
            ready: Vec::new(alloc),
        })
    }

    /// From now on the atom blocks the action.
    pub fn block(&mut self, action: u32, atom: u32)
        requires atom { atom < length self.old.last.items }
        requires action { action < length self.old.before.items }
        ensures { IsAsLarge self.old self.new }
    {
        self.before[action as usize] = self.last[atom as usize];
        self.last[atom as usize] = Some(action);
    }

    /// Makes ready all actions that the atom blocks.
    pub fn release(&mut self, atom: u32) -> Result<(), NoMemory>
        requires { atom < length self.old.last.items }
        ensures { OnOk result (IsAsLarge self.old self.new) }
    {
        let mut next = self.last[atom as usize];
        for _ in 0..self.before.len() {
            let Some(action) = next else { break };
            self.ready.push(action)?;
            next = self.before[action as usize];
        }
        self.last[atom as usize] = None;
        Ok(())
    }

    /// Takes a ready action.
    pub fn next(&mut self) -> Option<u32>
        ensures listed { IfSome result (λ action. action < length self.old.before.items) }
        ensures room { IsAsLarge self.old self.new }
    {
        self.ready.pop()
    }
}
