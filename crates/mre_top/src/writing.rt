//! Writing lines on a sink.
ghost use Rattle.std.specs.Prelude.{ℕ, ◌≡◌, ◌<◌, ◌≤◌, length, take, OnOk, OnErr, IsErrOf};
ghost use Rattle.std.specs.List.{concat};
ghost use Rattle.std.specs.Io.KnownBytes.{Appends};
ghost use Rattle.mre_outside.specs.Failures.{Rose};
ghost use Rattle.mre_outside.specs.Sinks.{AppendsPrefix};

use mre_base::{List, Text};
use mre_outside::{Sink, SinkStop};

/// Writes the lines, one call for each, up to the first that isn't written.
pub fn write_lines<S: Sink>(sink: &mut S, lines: &List<Text>) -> Result<(), SinkStop>
    ensures ok { OnOk result (Appends (S.written sink.old) (S.written sink.new)
        (concat lines.now)) }
    ensures err { OnErr result (AppendsPrefix (S.written sink.old) (S.written sink.new)
        (concat lines.now)) }
    ensures no_memory { IsErrOf result SinkStop.NoMemory → (count : ℕ) × (count < length lines.now)
        × Appends (S.written sink.old) (S.written sink.new) (concat (take count lines.now)) }
    ensures failed { IsErrOf result SinkStop.Failed
        → Rose (S.failures sink.old) (S.failures sink.new) }
    ensures never_falls { S.failures sink.old ≤ S.failures sink.new }
    ensures sound { S.is_sound sink.old → ¬ IsErrOf result SinkStop.Failed }
    ensures stays_sound { S.is_sound sink.old → S.is_sound sink.new }
{
    for place in 0..lines.len() {
        if let Err(stop) = write_line(sink, lines.item(place)) {
            return Err(stop);
        }
    }
    Ok(())
}

// Writes one line.
fn write_line<S: Sink>(sink: &mut S, line: &Text) -> Result<(), SinkStop>
    ensures ok { OnOk result (Appends (S.written sink.old) (S.written sink.new) line.now) }
    ensures err { OnErr result (AppendsPrefix (S.written sink.old) (S.written sink.new) line.now) }
    ensures no_memory { IsErrOf result SinkStop.NoMemory → S.written sink.new ≡ S.written sink.old }
    ensures failed { IsErrOf result SinkStop.Failed
        → Rose (S.failures sink.old) (S.failures sink.new) }
    ensures never_falls { S.failures sink.old ≤ S.failures sink.new }
    ensures sound { S.is_sound sink.old → ¬ IsErrOf result SinkStop.Failed }
    ensures stays_sound { S.is_sound sink.old → S.is_sound sink.new }
{
    sink.write_all(line.bytes())
}
