//! Reading the files of a request.
ghost use Rattle.std.specs.Prelude.{◌≡◌, ◌<◌, ◌≤◌, length, map, OnOk, IfOk, IfErr};
ghost use Rattle.mre_outside.specs.Failures.{Rose};
ghost use Rattle.mre_top.specs.Reads.{AreRead, Stops, IsReadFailed, IsMissingWhereFailed};
ghost use Rattle.mre_top.specs.Reads.{asked_then, reads, name_at, IsRead, StopsAt, calls_of};

use crate::Refusal;
use mre_base::{List, Text};
use mre_outside::{Shelf, ShelfStop};
use std::alloc::Global;

/// The most bytes that a file may have: a domain, a problem, a plan.
pub const FILE_LIMIT: u32 = 4_194_304;

/// The contents of the files, each read whole, in order.
pub fn read_files<H: Shelf>(
    alloc: Global,
    shelf: &mut H,
    files: &List<Text>,
) -> Result<List<Vec<u8>>, Refusal>
    ensures held { H.held shelf.new ≡ H.held shelf.old }
    ensures never_falls { H.failures shelf.old ≤ H.failures shelf.new }
    ensures contents { IfOk result (λ contents. AreRead (H.held shelf.old) files.now
        (map (λ bytes. bytes.items) contents)) }
    ensures asked { OnOk result (H.asked shelf.new
        ≡ asked_then (H.asked shelf.old) (reads files.now)) }
    ensures err { IfErr result (Stops files.now (H.held shelf.old) (H.asked shelf.old)
        (H.asked shelf.new)) }
    ensures failed { IfErr result (λ refusal. IsReadFailed refusal
        → Rose (H.failures shelf.old) (H.failures shelf.new)) }
    ensures sound { H.is_sound shelf.old
        → IfErr result (IsMissingWhereFailed (H.held shelf.old) files.now) }
    ensures stays_sound { H.is_sound shelf.old → H.is_sound shelf.new }
{
    let mut contents = List::empty(alloc);
    for file in 0..files.len() {
        match read_file(shelf, files, file) {
            Ok(bytes) => {
                if let Err(_) = contents.push(bytes) {
                    return Err(Refusal::NoMemory);
                }
            }
            Err(refusal) => return Err(refusal),
        }
    }
    Ok(contents)
}

// The content of one file.
fn read_file<H: Shelf>(shelf: &mut H, files: &List<Text>, file: usize) -> Result<Vec<u8>, Refusal>
    requires { file < length files.now }
    ensures held { H.held shelf.new ≡ H.held shelf.old }
    ensures never_falls { H.failures shelf.old ≤ H.failures shelf.new }
    ensures read { IfOk result (λ bytes. IsRead (H.held shelf.old) (name_at files.now file)
        bytes.items) }
    ensures asked { H.asked shelf.new ≡ asked_then (H.asked shelf.old) (calls_of
        (name_at files.now file) result) }
    ensures err { IfErr result (StopsAt files.now file (H.held shelf.old)) }
    ensures failed { IfErr result (λ refusal. IsReadFailed refusal
        → Rose (H.failures shelf.old) (H.failures shelf.new)) }
    ensures sound { H.is_sound shelf.old
        → IfErr result (IsMissingWhereFailed (H.held shelf.old) files.now) }
    ensures stays_sound { H.is_sound shelf.old → H.is_sound shelf.new }
{
    match shelf.read(files.item(file).as_str(), FILE_LIMIT) {
        Ok(bytes) => Ok(bytes),
        Err(ShelfStop::Failed) => Err(Refusal::ReadFailed { file }),
        Err(ShelfStop::TooLong) => Err(Refusal::TooLong { file }),
        Err(ShelfStop::NoMemory) => Err(Refusal::NoMemory),
    }
}
