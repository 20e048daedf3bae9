//! Shelves: what holds bytes under names.
ghost use Rattle.std.specs.Prelude.{◌≡◌, ◌<◌, ◌≤◌, ◌++◌, ℕ, List, Option, Some, None, length};
ghost use Rattle.std.specs.Prelude.{option_map, IfSome, IsSomeAnd, IfOk, OnOk, OnErr, IsErrOf};
ghost use Rattle.std.specs.FinMap as map;
ghost use Rattle.mre_outside.specs.Failures.{Rose};
ghost use Rattle.mre_outside.specs.Shelves.{Files, BothKnown, LeavesPart, KeepsOthers, read_entry};
ghost use Rattle.mre_outside.specs.Shelves.{put_entry};
ghost use Rattle.mre_outside.specs.declared.shelf.ShelfCall.{ShelfCall};

use mre_base::{NoMemory, Text};

/// What was asked of a shelf.
#[derive(Clone, Copy, Debug, PartialEq, Eq)]
pub enum Act {
    /// The bytes under a name.
    Read,
    /// To hold bytes under a name.
    Put,
}

/// A call on a shelf that didn't run out of memory.
#[derive(Debug, Drop)]
pub struct ShelfCall {
    pub name: Text,
    pub act: Act,
    pub failed: bool,
}

/// Why a read gave no bytes. What the shelf holds stays.
#[derive(Clone, Copy, Debug, PartialEq, Eq)]
pub enum ShelfStop {
    /// There is nothing under the name, or reading it failed.
    Failed,
    /// There are more bytes under the name than the limit.
    TooLong,
    /// Memory ran out.
    NoMemory,
}

/// Why a shelf doesn't hold all the bytes that were put. Under the name is then what was there
/// before, nothing, or a prefix of the bytes.
#[derive(Clone, Copy, Debug, PartialEq, Eq)]
pub enum PutStop {
    /// Writing under the name failed.
    Failed,
    /// Memory ran out.
    NoMemory,
}

impl From<NoMemory> for ShelfStop {
    ghost use Rattle.std.specs.Prelude.{◌≡◌};
    ghost use Rattle.mre_outside.specs.declared.shelf.ShelfStop.TheVariants.{NoMemory};

    ghost from_gives = { λ _ stop. stop ≡ NoMemory };

    fn from(_failure: NoMemory) -> ShelfStop {
        ShelfStop::NoMemory
    }
}

impl From<NoMemory> for PutStop {
    ghost use Rattle.std.specs.Prelude.{◌≡◌};
    ghost use Rattle.mre_outside.specs.declared.shelf.PutStop.TheVariants.{NoMemory};

    ghost from_gives = { λ _ stop. stop ≡ NoMemory };

    fn from(_failure: NoMemory) -> PutStop {
        PutStop::NoMemory
    }
}

/// What holds bytes under names, as a folder holds files.
pub trait Shelf {
    /// The bytes under each name, where they are known.
    ghost held: { Self → Option Files };

    /// The calls that it answered, in order, where they are known. A call that ran out of memory
    /// isn't among them.
    ghost asked: { Self → Option (List ShelfCall) };

    /// How often it has failed. The count stops at the largest `u64`.
    ghost failures: { Self → ℕ };

    /// No call on it fails, except a read of a name that it doesn't hold.
    ghost is_sound: { Self → Type 0 } = { λ _. ⊥ };

    /// All the bytes under the name, if they are at most `limit`. What the shelf holds stays.
    fn read(&mut self, name: &str, limit: u32) -> Result<Vec<u8>, ShelfStop>
        ensures ok { IfSome (held self.old) (λ files.
            IfOk result (λ bytes. map.get files name.now ≡ Some bytes.items)) }
        ensures within { IfOk result (λ bytes. length bytes.items ≤ limit) }
        ensures too_long { IsErrOf result ShelfStop.TooLong → IfSome (held self.old) (λ files.
            IsSomeAnd (map.get files name.now) (λ bytes. limit < length bytes)) }

        ensures held { held self.new ≡ held self.old }
        ensures asked { asked self.new
            ≡ option_map (λ calls. calls ++ read_entry name.now result) (asked self.old) }

        // It answers `Failed` only where the count of failures rose, and that never falls.
        ensures failed { IsErrOf result ShelfStop.Failed
            → Rose (failures self.old) (failures self.new) }
        ensures no_failure { IsErrOf result ShelfStop.NoMemory → failures self.new ≡ failures self.old }
        ensures never_falls { failures self.old ≤ failures self.new }

        ensures sound { is_sound self.old → IsErrOf result ShelfStop.Failed
            → IfSome (held self.old) (λ files. map.get files name.now ≡ None) }
        ensures stays_sound { is_sound self.old → is_sound self.new };

    /// Puts the bytes under the name, in place of what was there.
    fn put(&mut self, name: &str, bytes: &[u8]) -> Result<(), PutStop>
        ensures ok { OnOk result (held self.new
            ≡ option_map (λ files. map.insert files name.now bytes.now) (held self.old)) }
        ensures err { OnErr result
            (BothKnown (held self.old) (held self.new) (LeavesPart name.now bytes.now)) }
        ensures others { BothKnown (held self.old) (held self.new) (KeepsOthers name.now) }

        ensures asked { asked self.new
            ≡ option_map (λ calls. calls ++ put_entry name.now result) (asked self.old) }

        // It answers `Failed` only where the count of failures rose, and that never falls.
        ensures failed { IsErrOf result PutStop.Failed → Rose (failures self.old) (failures self.new) }
        ensures no_failure { IsErrOf result PutStop.NoMemory → failures self.new ≡ failures self.old }
        ensures never_falls { failures self.old ≤ failures self.new }

        ensures sound { is_sound self.old → ¬ IsErrOf result PutStop.Failed }
        ensures stays_sound { is_sound self.old → is_sound self.new };
}
