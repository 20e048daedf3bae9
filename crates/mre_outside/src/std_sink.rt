//! The system's writers as sinks.
ghost use Rattle.std.specs.Prelude.{◌≡◌, ◌≤◌, OnOk, IsErrOf};
ghost use Rattle.std.specs.Io.KnownBytes.{Appends};
ghost use Rattle.mre_outside.specs.Failures.{Rose};
ghost use Rattle.mre_outside.specs.Sinks.{AppendsPrefix};
ghost use Rattle.mre_outside.specs.Adapters.{writer_of, sink_failures};

use crate::stream::write_to;
use crate::{Sink, SinkStop};
use std::io::{Stderr, Stdout, Write};

/// A sink over a writer of the system, such as standard output or a file. Its bytes are known where
/// the writer's are, and it allocates nothing.
#[derive(Debug, Drop)]
pub struct StdSink<W> {
    writer: W,
    failures: u64,
}

impl<W: Write> StdSink<W> {
    /// A sink over this writer.
    pub fn over(writer: W) -> StdSink<W>
        ensures writer { writer_of result ≡ writer }
        ensures failures { sink_failures result ≡ 0 }
    {
        StdSink {
            writer,
            failures: 0,
        }
    }
}

impl StdSink<Stdout> {
    /// Standard output.
    pub fn output(stream: Stdout) -> StdSink<Stdout>
        ensures writer { writer_of result ≡ stream }
        ensures failures { sink_failures result ≡ 0 }
    {
        StdSink::over(stream)
    }
}

impl StdSink<Stderr> {
    /// Standard error.
    pub fn errors(stream: Stderr) -> StdSink<Stderr>
        ensures writer { writer_of result ≡ stream }
        ensures failures { sink_failures result ≡ 0 }
    {
        StdSink::over(stream)
    }
}

impl<W: Write> Sink for StdSink<W> {
    ghost written = { λ sink. W.contents (writer_of sink) };

    ghost failures = { sink_failures };

    fn write_all(&mut self, bytes: &[u8]) -> Result<(), SinkStop>
        ensures ok { OnOk result (Appends
            (W.contents (writer_of self.old)) (W.contents (writer_of self.new)) bytes.now) }
        ensures part { IsErrOf result SinkStop.Failed → AppendsPrefix
            (W.contents (writer_of self.old)) (W.contents (writer_of self.new)) bytes.now }
        ensures no_memory { ¬ IsErrOf result SinkStop.NoMemory }

        ensures failed { IsErrOf result SinkStop.Failed
            → Rose (sink_failures self.old) (sink_failures self.new) }
        ensures never_falls { sink_failures self.old ≤ sink_failures self.new }
    {
        write_to(&mut self.writer, bytes, &mut self.failures)?;
        Ok(())
    }
}
