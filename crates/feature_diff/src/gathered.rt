//! Differences so far: counted, and kept while they are at most 256.

ghost use Rattle.std.specs.Prelude.{◌≡◌, [], ◌∷◌, OnOk};

use crate::Difference;
use mre_base::{List, NoMemory};
use std::alloc::Global;

// The most differences that are listed.
pub(crate) const MOST_DIFFERENCES: u32 = 256;

// The number of the differences so far, and these themselves while they are few enough to be
// listed.
#[derive(Drop)]
pub(crate) struct Gathered {
    pub(crate) found: u32,
    pub(crate) kept: List<Difference>,
}

impl Gathered {
    ghost use Rattle.feature_diff.specs.Gathering.{Grows};

    pub(crate) fn none(alloc: Global) -> Gathered
        ensures found { result.found ≡ 0 }
        ensures kept { result.kept ≡ [] }
    {
        Gathered {
            found: 0,
            kept: List::empty(alloc),
        }
    }

    // Adds a difference. A number of differences past 32 bits counts as running out of memory.
    pub(crate) fn add(&mut self, difference: Difference) -> Result<(), NoMemory>
        ensures ok { OnOk result (Grows self.old self.new (difference ∷ [])) }
    {
        if self.found == u32::MAX {
            return Err(NoMemory);
        }
        if self.found < MOST_DIFFERENCES {
            self.kept.push(difference)?;
        }
        self.found += 1;
        Ok(())
    }
}
