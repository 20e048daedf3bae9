//! Cases: an atom, and the condition under which it is there.

ghost use Rattle.std.specs.Prelude.{◌≡◌};
ghost use Rattle.case_kit.specs.Parts.{speaks_of};

use mre_base::{Copied, NoMemory};
use std::alloc::Global;

/// A condition. Differences count from 1.
#[derive(Clone, Copy, Debug)]
pub enum When {
    /// In both models.
    Always,
    /// Only in the planner's model: where this difference is told.
    IfTold(u32),
    /// Only in the user's model: where this difference is left.
    IfLeft(u32),
}

/// The number of an atom, and its condition.
#[derive(Clone, Copy, Debug)]
pub struct Case {
    pub atom: u32,
    pub when: When,
}

impl Copied for Case {
    fn copied(&self, _alloc: Global) -> Result<Case, NoMemory> {
        Ok(*self)
    }
}

impl When {
    /// Whether the condition depends on this difference.
    pub fn speaks_of(self, place: u32) -> bool
        ensures { result ≡ speaks_of self place }
    {
        match self {
            When::Always => false,
            When::IfTold(on) => on == place,
            When::IfLeft(on) => on == place,
        }
    }
}
