//! Runs the top call over the cases of standard input, and prints how each call ends.
//!
//! A case is two lines: the words of a call, and `over` with the names of five texts, the contents
//! of the files `pd`, `pp`, `ud`, `up` and `plan`. A text comes before the cases that name it:
//! `text NAME`, its lines, and `end`, or `cut` if its last line has no line feed. In a text, a line
//! `times COUNT BEFORE|AFTER` is short for COUNT lines, each with a number from 0 on between BEFORE
//! and AFTER. If a name has several texts, the last one before the case counts; a name without a
//! text, such as `nothing`, has an empty content.
//!
//! Between the two lines there may be a third, `failing READ ANSWER REFUSAL`: the read of the
//! shelf, the write on the sink of answers and the write on the sink of refusals that fail, each
//! counted from 1, or 0 if none fails. In other cases nothing fails.
//!
//! For each case the program prints the case, the status and the number of told differences, the
//! lines on the sink of answers, and the lines on the sink of refusals, each after `!`; `cut` comes
//! after a last line that has no line feed. If a line `failing` says what fails, the case ends with
//! `asked` and the names that were asked of the shelf, in order, each with `(failed)` after it if
//! the call failed, and with `(put)` if it wasn't a read.
#![tactic(auto)]

mod calling;
mod cases;
mod failing;
mod printing;
mod repeating;

use cases::Cases;
use mre_base::NoMemory;
use std::io;
use std::io::ErrorKind;

fn main(rt: HostRuntime) -> io::Result<()> {
    let mut cases = Cases::new(rt.alloc());
    for line in rt.lines(rt.alloc()) {
        match cases.take(rt.alloc(), line?.as_str()) {
            Ok(ended) => print!(rt; "{ended}")?,
            Err(NoMemory) => return Err(ErrorKind::OutOfMemory.into()),
        }
    }
    Ok(())
}
