//! A sink in memory that never fails.
ghost use Rattle.std.specs.Prelude.{◌≡◌, ◌++◌, [], OnOk, OnErr};

use crate::{Sink, SinkStop};
use mre_base::NoMemory;
use std::alloc::Global;
use std::marker::Model;

/// A sink in memory that never fails, seen as the list of the bytes that it holds.
#[derive(Debug, Drop)]
pub struct SoundSink {
    bytes: Vec<u8>,
}

impl Model for SoundSink {
    ghost use Rattle.std.specs.Prelude.{List, ℕ};

    ghost Value = { List ℕ };

    ghost view = { λ sink. sink.bytes.items };
}

impl SoundSink {
    /// An empty sink.
    pub fn new(alloc: Global) -> SoundSink
        ensures { result ≡ [] }
    {
        SoundSink {
            bytes: Vec::new(alloc),
        }
    }

    /// The bytes that it holds.
    pub fn bytes(&self) -> &[u8]
        ensures { result.now ≡ self.now }
    {
        self.bytes.as_slice()
    }

    /// Puts all the bytes at the end.
    pub(crate) fn append(&mut self, bytes: &[u8]) -> Result<(), NoMemory>
        ensures ok { OnOk result (self.new ≡ self.old ++ bytes.now) }
        ensures err { OnErr result (self.new ≡ self.old) }
    {
        self.bytes.extend_from_slice(bytes)?;
        Ok(())
    }
}

impl Sink for SoundSink {
    ghost use Rattle.std.specs.Prelude.{Some};

    ghost written = { λ sink. Some sink };

    ghost failures = { λ _. 0 };

    ghost is_sound = { λ _. Unit {0} };

    fn write_all(&mut self, bytes: &[u8]) -> Result<(), SinkStop> {
        self.append(bytes)?;
        Ok(())
    }
}
