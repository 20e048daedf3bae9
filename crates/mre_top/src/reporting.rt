//! Reporting a refusal on the sink of refusals.
ghost use Rattle.std.specs.Prelude.{◌≡◌, ◌≤◌};
ghost use Rattle.mre_top.specs.Calls.{sink_change};
ghost use Rattle.mre_top.specs.Refusals.{IsOfFile};
ghost use Rattle.mre_top.specs.Reporting.{IsReported, IsMemoryReported};

use crate::Refusal;
use crate::writing::write_lines;
use mre_base::{List, Text};
use mre_outside::{Sink, SinkStop};
use std::alloc::Global;

/// Writes the lines of a refusal, and returns the status with which the call ends. If memory runs
/// out at a line, that is status 9; a failed write doesn't change it.
pub fn report<E: Sink>(alloc: Global, refusal: &Refusal, files: &List<Text>, faults: &mut E) -> u8
    requires { IsOfFile files.now refusal.now }
    ensures reported { IsReported (sink_change E.Sink faults.old faults.new) files.now refusal.now
        result }
    ensures never_falls { E.failures faults.old ≤ E.failures faults.new }
    ensures stays_sound { E.is_sound faults.old → E.is_sound faults.new }
{
    if matches!(refusal, Refusal::NoMemory) {
        return report_no_memory(faults);
    }
    let Ok(lines) = refusal.lines(alloc, files) else {
        return report_no_memory(faults);
    };
    match write_lines(faults, &lines) {
        Ok(()) | Err(SinkStop::Failed) => refusal.status(),
        Err(SinkStop::NoMemory) => report_no_memory(faults),
    }
}

/// Writes the line of status 9, which needs no memory.
pub(crate) fn report_no_memory<E: Sink>(faults: &mut E) -> u8
    ensures status { result ≡ 9 }
    ensures reported { IsMemoryReported (sink_change E.Sink faults.old faults.new) }
    ensures never_falls { E.failures faults.old ≤ E.failures faults.new }
    ensures stays_sound { E.is_sound faults.old → E.is_sound faults.new }
{
    let _ = faults.write_all(b"mre: out of memory\n");
    9
}
