//! A shelf in memory, for tests and cases.
ghost use Rattle.std.specs.Prelude.{◌≡◌, ◌⊎◌, ◌↔◌, ◌++◌, [], ◌∷◌, None, option_copied, IfOk, OnOk};
ghost use Rattle.std.specs.Prelude.{OnErr, IsErrOf, IsTrue};
ghost use Rattle.std.specs.FinMap as map;
ghost use Rattle.mre_outside.specs.Kept.{kept_entries};
ghost use Rattle.mre_outside.specs.Shelves.{first_under};

use crate::{Act, FailingCalls, PutStop, Shelf, ShelfCall, ShelfStop};
use mre_base::{List, NoMemory, Text};
use std::alloc::Global;
use std::collections::VecDeque;
use std::marker::Model;

/// Bytes that were put under a name.
#[derive(Debug)]
struct Kept {
    name: Text,
    bytes: Vec<u8>,
}

impl Drop for Kept {
    fn drop(self) {
        let Kept { name: _, bytes: _ } = self;
    }
}

/// A shelf in memory, on which chosen calls fail. A put that fails leaves the first half of its
/// bytes, rounded down. Reads and puts are counted together, from 1, except those that run out of
/// memory.
#[derive(Debug)]
pub struct MemoryShelf {
    alloc: Global,
    given: List<(Text, Text)>,
    // The last put comes first.
    puts: VecDeque<Kept>,
    asked: Vec<ShelfCall>,
    failing: FailingCalls,
}

impl Drop for MemoryShelf {
    fn drop(self) {
        let MemoryShelf {
            alloc: _,
            given: _,
            puts: _,
            asked: _,
            failing: _,
        } = self;
    }
}

impl Model for MemoryShelf {
    ghost use Rattle.std.specs.Prelude.{◌++◌};
    ghost use Rattle.std.specs.FinMap as map;
    ghost use Rattle.std.specs.Coded.{codes};
    ghost use Rattle.mre_outside.specs.Shelves.{files_code};
    ghost use Rattle.mre_outside.specs.MemoryShelves.{ShelfInMemory};

    ghost Value = { ShelfInMemory };

    ghost coded = { Prim.hlevel (codes, files_code) };

    ghost use Rattle.mre_outside.specs.Kept.{kept_entries};

    ghost view = { λ shelf. record {
      held = map.from_entries (kept_entries shelf.puts.items ++ shelf.given);
      asked = shelf.asked.items;
      failing = shelf.failing;
    } };
}

impl MemoryShelf {
    ghost use Rattle.mre_outside.specs.MemoryShelves.{made_of, NextCallFails, Reads, IsTooLong};
    ghost use Rattle.mre_outside.specs.MemoryShelves.{after_put};
    ghost use Rattle.mre_outside.specs.declared.shelf.Act.TheVariants.{Put};
    ghost use Rattle.mre_outside.specs.declared.failing.FailingCalls.TheVariants.{Listed, From};

    /// A shelf with these files, each a name and its content; if a name occurs twice, its first file
    /// counts. The calls with these numbers will fail.
    pub fn new(alloc: Global, files: List<(Text, Text)>, failing: List<u32>) -> MemoryShelf
        ensures { result ≡ made_of files (Listed failing) }
    {
        MemoryShelf::with_failing(alloc, files, FailingCalls::Listed(failing))
    }

    /// A shelf with these files, each a name and its content; if a name occurs twice, its first file
    /// counts. The call with this number and each later one will fail.
    pub fn stopping(alloc: Global, files: List<(Text, Text)>, from: u32) -> MemoryShelf
        ensures { result ≡ made_of files (From from) }
    {
        MemoryShelf::with_failing(alloc, files, FailingCalls::From(from))
    }

    fn with_failing(alloc: Global, files: List<(Text, Text)>, failing: FailingCalls) -> MemoryShelf
        ensures { result ≡ made_of files failing }
    {
        MemoryShelf {
            alloc,
            given: files,
            puts: VecDeque::new(alloc),
            asked: Vec::new(alloc),
            failing,
        }
    }

    /// The bytes under the name.
    pub fn file(&self, name: &str) -> Option<&[u8]>
        ensures { option_copied result ≡ map.get self.now.held name.now }
    {
        match put_under(&self.puts, name) {
            Some(bytes) => Some(bytes),
            None => given_under(&self.given, name),
        }
    }

    /// The calls that it answered, in order.
    pub fn asked(&self) -> &[ShelfCall]
        ensures { result.now ≡ self.now.asked }
    {
        self.asked.as_slice()
    }

    fn next_call_fails(&self) -> bool
        ensures { IsTrue result ↔ NextCallFails self.now }
    {
        self.failing.fails(self.asked.len() as u64 + 1)
    }

    // What a read answers.
    fn answer(&self, name: &str, limit: u32) -> Result<Vec<u8>, ShelfStop>
        ensures ok { IfOk result (λ bytes. Reads self.now name.now limit bytes.items) }
        ensures failed { IsErrOf result ShelfStop.Failed
            → NextCallFails self.now ⊎ (map.get self.now.held name.now ≡ None) }
        ensures too_long { IsErrOf result ShelfStop.TooLong → IsTooLong self.now name.now limit }
    {
        if self.next_call_fails() {
            return Err(ShelfStop::Failed);
        }
        let Some(bytes) = self.file(name) else {
            return Err(ShelfStop::Failed);
        };
        if bytes.len() > limit as usize {
            return Err(ShelfStop::TooLong);
        }
        Ok(Vec::from_slice(self.alloc, bytes).map_err(NoMemory::from)?)
    }

    // Keeps the bytes under the name, and notes the put. If memory runs out, nothing changes.
    fn keep(&mut self, name: &str, bytes: &[u8], failed: bool) -> Result<(), NoMemory>
        ensures ok { OnOk result (self.new ≡ after_put self.old name.now bytes.now
            (record { name = name.now; act = Put; failed = failed } ∷ [])) }
        ensures err { OnErr result (self.new ≡ self.old) }
    {
        let kept = Kept {
            name: Text::of(self.alloc, name)?,
            bytes: Vec::from_slice(self.alloc, bytes)?,
        };
        self.puts.reserve(1)?;
        note(self.alloc, &mut self.asked, name, Act::Put, failed)?;
        self.puts.push_front(kept).unwrap();
        Ok(())
    }
}

impl Shelf for MemoryShelf {
    ghost use Rattle.std.specs.Prelude.{◌≡◌, ◌⊎◌, Some, None, OnOk, IfOk, IsErrOf};
    ghost use Rattle.std.specs.FinMap as map;
    ghost use Rattle.mre_outside.specs.Failing.{NoneFails, first_half};
    ghost use Rattle.mre_outside.specs.MemoryShelves.{failed_calls, NextCallFails, Reads};
    ghost use Rattle.mre_outside.specs.MemoryShelves.{IsTooLong, after_read, after_put};
    ghost use Rattle.mre_outside.specs.Shelves.{KeepsOthers, read_entry, put_entry};

    ghost held = { λ shelf. Some shelf.held };

    ghost asked = { λ shelf. Some shelf.asked };

    ghost failures = { λ shelf. failed_calls shelf.asked };

    ghost is_sound = { λ shelf. NoneFails shelf.failing };

    fn read(&mut self, name: &str, limit: u32) -> Result<Vec<u8>, ShelfStop>
        ensures ok { IfOk result (λ bytes. Reads self.old name.now limit bytes.items) }
        ensures failed { IsErrOf result ShelfStop.Failed
            → NextCallFails self.old ⊎ (map.get self.old.held name.now ≡ None) }
        ensures too_long { IsErrOf result ShelfStop.TooLong → IsTooLong self.old name.now limit }
        ensures after { self.new ≡ after_read self.old (read_entry name.now result) }
    {
        let answer = self.answer(name, limit);
        if let Err(ShelfStop::NoMemory) = answer {
            return answer;
        }
        let failed = matches!(&answer, Err(ShelfStop::Failed));
        note(self.alloc, &mut self.asked, name, Act::Read, failed)?;
        answer
    }

    fn put(&mut self, name: &str, bytes: &[u8]) -> Result<(), PutStop>
        ensures ok { OnOk result
            (self.new ≡ after_put self.old name.now bytes.now (put_entry name.now result)) }
        ensures half { IsErrOf result PutStop.Failed → self.new
            ≡ after_put self.old name.now (first_half bytes.now) (put_entry name.now result) }
        ensures no_memory { IsErrOf result PutStop.NoMemory → self.new ≡ self.old }
        ensures others { KeepsOthers name.now self.old.held self.new.held }

        // Unless memory runs out, exactly the chosen puts fail.
        ensures failed { IsErrOf result PutStop.Failed → NextCallFails self.old }
        ensures spared { OnOk result (¬ NextCallFails self.old) }
    {
        if self.next_call_fails() {
            self.keep(name, &bytes[..bytes.len() / 2], true)?;
            return Err(PutStop::Failed);
        }
        self.keep(name, bytes, false)?;
        Ok(())
    }
}

// Notes a call. If memory runs out, the calls stay as they were.
fn note(
    alloc: Global,
    asked: &mut Vec<ShelfCall>,
    name: &str,
    act: Act,
    failed: bool,
) -> Result<(), NoMemory>
    ensures ok { OnOk result (asked.new.items
        ≡ asked.old.items ++ record { name = name.now; act = act; failed = failed } ∷ []) }
    ensures err { OnErr result (asked.new.items ≡ asked.old.items) }
{
    let name = Text::of(alloc, name)?;
    asked.push(ShelfCall { name, act, failed })?;
    Ok(())
}

/// The bytes that were put last under the name.
fn put_under<'a>(puts: &'a VecDeque<Kept>, name: &str) -> Option<&'a [u8]>
    ensures { option_copied result ≡ first_under (kept_entries puts.now.items) name.now }
{
    for kept in puts {
        if name == kept.name.as_str() {
            return Some(kept.bytes.as_slice());
        }
    }
    None
}

/// The bytes under the name in the files that the shelf was made with.
fn given_under<'a>(given: &'a List<(Text, Text)>, name: &str) -> Option<&'a [u8]>
    ensures { option_copied result ≡ first_under given.now name.now }
{
    for place in 0..given.len() {
        let file = given.item(place);
        if name == file.0.as_str() {
            return Some(file.1.bytes());
        }
    }
    None
}
