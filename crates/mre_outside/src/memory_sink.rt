//! A sink in memory whose writes may fail, for tests and cases.
ghost use Rattle.std.specs.Prelude.{◌≡◌};

use crate::{FailingCalls, Sink, SinkStop, SoundSink};
use mre_base::List;
use std::alloc::Global;
use std::marker::Model;

/// A sink in memory, on which chosen writes fail. A write that fails takes the first half of its
/// bytes, rounded down. Writes are counted from 1, except those that run out of memory.
#[derive(Debug)]
pub struct MemorySink {
    taken: SoundSink,
    writes: u64,
    failures: u64,
    failing: FailingCalls,
}

impl Drop for MemorySink {
    fn drop(self) {
        let MemorySink {
            taken: _,
            writes: _,
            failures: _,
            failing: _,
        } = self;
    }
}

impl Model for MemorySink {
    ghost use Rattle.mre_outside.specs.MemorySinks.{SinkInMemory};

    ghost Value = { SinkInMemory };

    ghost view = { λ sink. record {
      written = sink.taken;
      writes = sink.writes;
      failures = sink.failures;
      failing = sink.failing;
    } };
}

impl MemorySink {
    ghost use Rattle.mre_outside.specs.MemorySinks.{made_empty};
    ghost use Rattle.mre_outside.specs.declared.failing.FailingCalls.TheVariants.{Listed, From};

    /// An empty sink. The writes with these numbers will fail.
    pub fn new(alloc: Global, failing: List<u32>) -> MemorySink
        ensures { result ≡ made_empty (Listed failing) }
    {
        MemorySink::with_failing(alloc, FailingCalls::Listed(failing))
    }

    /// An empty sink. The write with this number and each later one will fail.
    pub fn stopping(alloc: Global, from: u32) -> MemorySink
        ensures { result ≡ made_empty (From from) }
    {
        MemorySink::with_failing(alloc, FailingCalls::From(from))
    }

    fn with_failing(alloc: Global, failing: FailingCalls) -> MemorySink
        ensures { result ≡ made_empty failing }
    {
        MemorySink {
            taken: SoundSink::new(alloc),
            writes: 0,
            failures: 0,
            failing,
        }
    }

    /// The bytes that it holds.
    pub fn bytes(&self) -> &[u8]
        ensures { result.now ≡ self.now.written }
    {
        self.taken.bytes()
    }
}

impl Sink for MemorySink {
    ghost use Rattle.std.specs.Prelude.{◌≡◌, ◌≤◌, Some, OnOk, IsErrOf};
    ghost use Rattle.mre_outside.specs.Failing.{NoneFails};
    ghost use Rattle.mre_outside.specs.MemorySinks.{NextWriteFails, after_write, after_failure};

    ghost written = { λ sink. Some sink.written };

    ghost failures = { λ sink. sink.failures };

    ghost is_sound = { λ sink. NoneFails sink.failing };

    fn write_all(&mut self, bytes: &[u8]) -> Result<(), SinkStop>
        ensures ok { OnOk result (self.new ≡ after_write self.old bytes.now) }
        ensures half { IsErrOf result SinkStop.Failed
            → self.new ≡ after_failure self.old bytes.now }
        ensures no_memory { IsErrOf result SinkStop.NoMemory → self.new ≡ self.old }

        // Unless memory runs out, exactly the chosen writes fail.
        ensures failed { IsErrOf result SinkStop.Failed → NextWriteFails self.old }
        ensures spared { OnOk result (¬ NextWriteFails self.old) }

        ensures never_falls { self.old.failures ≤ self.new.failures }
    {
        let write = self.writes.saturating_add(1);
        if self.failing.fails(write) {
            self.taken.append(&bytes[..bytes.len() / 2])?;
            self.writes = write;
            self.failures = self.failures.saturating_add(1);
            return Err(SinkStop::Failed);
        }
        self.taken.append(bytes)?;
        self.writes = write;
        Ok(())
    }
}
