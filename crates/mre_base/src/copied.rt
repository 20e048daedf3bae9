//! Values that can be copied into memory of their own.
ghost use Rattle.std.specs.Prelude.{◌≡◌, IfOk};

use crate::{List, NoMemory, Text};
use std::alloc::Global;

/// A value that can be copied into memory of its own.
pub trait Copied: Drop {
    /// A copy. After `NoMemory` the value is unchanged.
    fn copied(&self, alloc: Global) -> Result<Self, NoMemory>
        ensures ok { IfOk result (λ made. made ≡ self.now) };
}

impl Copied for u32 {
    fn copied(&self, _alloc: Global) -> Result<u32, NoMemory> {
        Ok(*self)
    }
}

impl Copied for Text {
    fn copied(&self, alloc: Global) -> Result<Text, NoMemory> {
        self.copy(alloc)
    }
}

/// Item by item.
impl<T: Copied> Copied for List<T> {
    fn copied(&self, alloc: Global) -> Result<List<T>, NoMemory> {
        let mut made = List::empty(alloc);
        for place in 0..self.len() {
            made.push(self.item(place).copied(alloc)?)?;
        }
        Ok(made)
    }
}

impl<A: Copied, B: Copied> Copied for (A, B) {
    fn copied(&self, alloc: Global) -> Result<(A, B), NoMemory> {
        Ok((self.0.copied(alloc)?, self.1.copied(alloc)?))
    }
}

impl<A: Copied, B: Copied, C: Copied> Copied for (A, B, C) {
    fn copied(&self, alloc: Global) -> Result<(A, B, C), NoMemory> {
        Ok((
            self.0.copied(alloc)?,
            self.1.copied(alloc)?,
            self.2.copied(alloc)?,
        ))
    }
}
