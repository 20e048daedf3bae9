//! Reads the texts of pairs of models from standard input, a text a line, and prints their tables.
//!
//! The lines `domain TEXT` and `problem TEXT` give the planner's model, `user-domain TEXT` and
//! `user-problem TEXT` the user's. A line `counts` prints how many atoms and ground actions the
//! pair's table lists, a line `names` their printed forms too, and a line `table` all of it. A line
//! `told N` prints the user's model after the first N differences are told.
#![tactic(auto)]

mod cases;
mod grounding;
mod patching;
mod telling;

use cases::Cases;
use mre_base::NoMemory;
use std::io;
use std::io::ErrorKind;

fn main(rt: HostRuntime) -> io::Result<()> {
    let mut cases = Cases::new(rt.alloc());
    for line in rt.lines(rt.alloc()) {
        match cases.take(rt.alloc(), line?.as_str()) {
            Ok(told) => print!(rt; "{told}")?,
            Err(NoMemory) => return Err(ErrorKind::OutOfMemory.into()),
        }
    }
    Ok(())
}
