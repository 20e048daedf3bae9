//! The files of the system as a shelf.
ghost use Rattle.std.specs.Prelude.{◌≡◌, ◌≤◌, IsErrOf};
ghost use Rattle.mre_outside.specs.Failures.{Rose};
ghost use Rattle.mre_outside.specs.Adapters.{shelf_failures};

use crate::stream::{raise, read_from, write_to};
use crate::{PutStop, Shelf, ShelfStop};
use mre_base::NoMemory;
use std::alloc::Global;
use std::fs;
use std::rt::Files;

/// A shelf over the files of the system, where a name is a path. Neither what it holds nor what it
/// was asked is known.
#[derive(Debug, Drop)]
pub struct FileShelf<R> {
    alloc: Global,
    files: R,
    failures: u64,
}

impl<R: Files> FileShelf<R> {
    /// The files that the runtime reaches.
    pub fn new(alloc: Global, files: R) -> FileShelf<R>
        ensures { shelf_failures result ≡ 0 }
    {
        FileShelf {
            alloc,
            files,
            failures: 0,
        }
    }
}

impl<R: Files> Shelf for FileShelf<R> {
    ghost use Rattle.std.specs.Prelude.{None};

    ghost held = { λ _. None };

    ghost asked = { λ _. None };

    ghost failures = { shelf_failures };

    fn read(&mut self, name: &str, limit: u32) -> Result<Vec<u8>, ShelfStop> {
        let room = Vec::with_capacity(self.alloc, limit as usize + 1).map_err(NoMemory::from)?;
        match fs::open(&self.files, name) {
            Ok(mut file) => read_from(&mut file, room, limit, &mut self.failures),
            Err(_) => {
                raise(&mut self.failures);
                Err(ShelfStop::Failed)
            }
        }
    }

    fn put(&mut self, name: &str, bytes: &[u8]) -> Result<(), PutStop>
        ensures failed { IsErrOf result PutStop.Failed
            → Rose (shelf_failures self.old) (shelf_failures self.new) }
        ensures no_memory { ¬ IsErrOf result PutStop.NoMemory }
        ensures never_falls { shelf_failures self.old ≤ shelf_failures self.new }
    {
        match fs::create(&self.files, name) {
            Ok(mut file) => Ok(write_to(&mut file, bytes, &mut self.failures)?),
            Err(_) => {
                raise(&mut self.failures);
                Err(PutStop::Failed)
            }
        }
    }
}
