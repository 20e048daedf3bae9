//! A ground action of a case table.

ghost use Rattle.std.specs.Prelude.{◌≡◌};
ghost use Rattle.case_kit.specs.Parts.{stands_among, touches};

use crate::cases::{Case, When};
use crate::costs::CaseCost;
use mre_base::{Copied, List, NoMemory};
use std::alloc::Global;

/// A ground action in all models: the cases of its preconditions, adds and deletes, its cost, and
/// the condition under which a model knows it. In a model that doesn't know it, it has no cost.
#[derive(Debug)]
pub struct CaseAction {
    pub pre: List<Case>,
    pub add: List<Case>,
    pub del: List<Case>,
    pub cost: CaseCost,
    pub known: When,
}

impl Drop for CaseAction {
    fn drop(self) {
        let CaseAction {
            pre: _,
            add: _,
            del: _,
            cost: _,
            known: _,
        } = self;
    }
}

impl Copied for CaseAction {
    fn copied(&self, alloc: Global) -> Result<CaseAction, NoMemory> {
        Ok(CaseAction {
            pre: self.pre.copied(alloc)?,
            add: self.add.copied(alloc)?,
            del: self.del.copied(alloc)?,
            cost: self.cost,
            known: self.known,
        })
    }
}

fn any_speaks_of(cases: &List<Case>, number: u32) -> bool
    ensures { result ≡ stands_among cases.now number }
{
    for place in 0..cases.len() {
        if cases.item(place).when.speaks_of(number) {
            return true;
        }
    }
    false
}

impl CaseAction {
    /// Whether the difference has a part in the action: in a case, in its cost, or in the condition
    /// under which it is known.
    pub fn touches(&self, number: u32) -> bool
        ensures { result ≡ touches self.now number }
    {
        any_speaks_of(&self.pre, number)
            || any_speaks_of(&self.add, number)
            || any_speaks_of(&self.del, number)
            || self.known.speaks_of(number)
            || self.cost.speaks_of(number)
    }
}
