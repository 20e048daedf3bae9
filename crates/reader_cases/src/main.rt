//! Reads the texts of standard input, and prints after each what it is read as.
//!
//! A line is a text, with `|` for the end of a line. A line `= KIND` says how the texts after it
//! are read, and lines `domain TEXT` and `problem TEXT` give the domain and the problem that this
//! needs.
#![tactic(auto)]

mod cases;
mod forms;
mod reading;

use cases::Cases;
use mre_base::NoMemory;
use std::io;
use std::io::ErrorKind;

fn main(rt: HostRuntime) -> io::Result<()> {
    let mut cases = Cases::new(rt.alloc());
    for line in rt.lines(rt.alloc()) {
        match cases.take(rt.alloc(), line?.as_str()) {
            Ok(printed) => print!(rt; "{printed}")?,
            Err(NoMemory) => return Err(ErrorKind::OutOfMemory.into()),
        }
    }
    Ok(())
}
