//! The atoms that a set lacks.

ghost use Rattle.std.specs.Prelude.{◌≡◌, ◌<◌, ◌≤◌, All, IfOk};
ghost use Rattle.std.specs.List.Sorted.{IsStrictlyIncreasing};
ghost use Rattle.task_kit.specs.Kept.{all_but};
ghost use Rattle.task_kit.specs.Tasks.{AllBelow};

use mre_base::{Bits, List, NoMemory};
use std::alloc::Global;

/// The atoms that a set lacks, in ascending order.
pub fn lacks_of(alloc: Global, atoms: u32, among: &Bits) -> Result<List<u32>, NoMemory>
    requires width { atoms ≤ among.now.width }
    requires below { AllBelow atoms among.now.members }
    ensures all { IfOk result (λ lacks. all_but atoms lacks ≡ among.now.members) }
    ensures ascending { IfOk result IsStrictlyIncreasing }
    ensures below { IfOk result (All (λ atom. atom < atoms)) }
{
    let mut lacks = List::empty(alloc);
    for atom in 0..atoms {
        if !among.contains(atom) {
            lacks.push(atom)?;
        }
    }
    Ok(lacks)
}
