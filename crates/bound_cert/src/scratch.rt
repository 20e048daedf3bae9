//! The working memory of a check.

ghost use Rattle.std.specs.Prelude.{◌≡◌, ◌+◌, ◌^◌, ◌<◌, IfOk};
ghost use Rattle.bound_cert.specs.Rooms.{all_below, IsScratchOf};

use mre_base::{Bits, NoMemory};
use std::alloc::Global;
use task_kit::TaskView;

/// The working memory in which the bound proofs of one task are checked.
pub struct Scratch {
    // A successor.
    pub(crate) into: Bits,
    // The set of a cut.
    pub(crate) among: Bits,
    // Every atom.
    pub(crate) all: Bits,
    // The charge of the cuts of a state on each action.
    pub(crate) charged: Vec<u64>,
}

impl Drop for Scratch {
    fn drop(self) {
        let Scratch {
            into: _,
            among: _,
            all: _,
            charged: _,
        } = self;
    }
}

impl Scratch {
    pub fn for_task<T: TaskView>(alloc: Global, task: &T) -> Result<Scratch, NoMemory>
        ensures { IfOk result (λ made. IsScratchOf (T.seen task.now) made) }
    {
        let all = every_atom(alloc, task.atoms())?;
        let into = all.copy(alloc)?;
        let among = all.copy(alloc)?;
        let charged = Vec::from_elem(alloc, 0, task.actions() as usize)?;
        Ok(Scratch {
            into,
            among,
            all,
            charged,
        })
    }
}

// The set of all atoms, with room for one number more.
fn every_atom(alloc: Global, atoms: u32) -> Result<Bits, NoMemory>
    requires { atoms + 1 < 2 ^ 32 }
    ensures { IfOk result (λ all. all ≡ record { width = atoms + 1; members = all_below atoms }) }
{
    let mut all = Bits::empty(alloc, atoms + 1)?;
    for atom in 0..atoms {
        all.put(atom);
    }
    Ok(all)
}
