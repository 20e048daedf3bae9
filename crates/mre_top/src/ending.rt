//! The end of a process: from the words that the system hands over to the exit code.
ghost use Rattle.std.specs.Prelude.{◌≡◌, IfOk, IsErrOf};
ghost use Rattle.mre_top.specs.Calls.{call_of, asked_by, sink_change};
ghost use Rattle.mre_top.specs.Exits.{code_of, EndsAs};
ghost use Rattle.mre_top.specs.Reporting.{IsMemoryReported};

use crate::reporting::report_no_memory;
use crate::top::explain_top;
use mre_outside::{Shelf, Sink, StdSink};
use std::alloc::Global;
use std::env;
use std::io::{ErrorKind, Stderr, Stdout};
use std::process::{ExitCode, Termination};
use std::rt::Env;

/// The status where the system's words are no texts. The top call never answers it.
const NO_TEXT: u8 = 1;

/// Why the system hands over no words.
#[derive(Clone, Copy, Debug, PartialEq, Eq)]
pub enum NoWords {
    /// A word isn't a text.
    NoText,
    /// Memory ran out.
    NoMemory,
}

/// The end of a process, which `main` returns. Only `end_process` makes one.
#[derive(Debug, Drop)]
pub struct Ending {
    code: u8,
}

impl Termination for Ending {
    ghost use Rattle.std.specs.Prelude.{◌≡◌};
    ghost use Rattle.std.specs.Process.{exit_status};
    ghost use Rattle.mre_top.specs.Exits.{code_of};

    fn report<R: Eprint>(self, _rt: &R) -> ExitCode
        ensures { exit_status result ≡ code_of self }
    {
        ExitCode::from(self.code)
    }
}

/// Ends with the status of the top call, whose answers go to standard output and whose refusals go
/// to standard error.
pub fn end_process<H: Shelf>(
    alloc: Global,
    words: Result<Vec<String>, NoWords>,
    shelf: &mut H,
    out: &mut StdSink<Stdout>,
    faults: &mut StdSink<Stderr>,
) -> Ending
    ensures called { IfOk words (λ given. EndsAs (call_of
        H.Shelf ⟦<StdSink<Stdout> as Sink>⟧ ⟦<StdSink<Stderr> as Sink>⟧ (asked_by given.items)
        shelf.old shelf.new out.old out.new faults.old faults.new) (code_of result)) }
    ensures no_text { IsErrOf words NoWords.NoText → (code_of result ≡ 1)
        × (shelf.new ≡ shelf.old) × (out.new ≡ out.old) × (faults.new ≡ faults.old) }
    ensures no_memory { IsErrOf words NoWords.NoMemory → (code_of result ≡ 9)
        × (shelf.new ≡ shelf.old) × (out.new ≡ out.old)
        × IsMemoryReported (sink_change ⟦<StdSink<Stderr> as Sink>⟧ faults.old faults.new) }
{
    match words {
        Ok(words) => Ending {
            code: explain_top(alloc, words.as_slice(), shelf, out, faults).status,
        },
        Err(NoWords::NoText) => Ending { code: NO_TEXT },
        Err(NoWords::NoMemory) => Ending {
            code: report_no_memory(faults),
        },
    }
}

/// The words that the system hands over after the program's name.
pub fn words_of<R: Env + AllocGlobal>(rt: &R) -> Result<Vec<String>, NoWords> {
    let mut arguments = match env::args(rt) {
        Ok(arguments) => arguments,
        Err(error) => {
            if error.kind() == ErrorKind::OutOfMemory {
                return Err(NoWords::NoMemory);
            }
            return Err(NoWords::NoText);
        }
    };
    let _program = arguments.next();
    match arguments.collect::<Vec<String>>(rt.alloc()) {
        Ok(words) => Ok(words),
        Err(_) => Err(NoWords::NoMemory),
    }
}
