//! Calls of the top call over a shelf and sinks in memory.
use crate::failing::{Failing, NONE_FAILS};
use crate::printing::{ended, ended_and_asked};
use mre_base::{List, NoMemory, Text};
use mre_outside::{MemoryShelf, MemorySink};
use mre_top::{Outcome, explain_top};
use std::alloc::Global;

/// A call that has ended: its outcome, the shelf, and the two sinks.
pub struct Left {
    pub outcome: Outcome,
    pub files: MemoryShelf,
    pub out: MemorySink,
    pub faults: MemorySink,
}

impl Drop for Left {
    fn drop(self) {
        let Left {
            outcome: _,
            files: _,
            out: _,
            faults: _,
        } = self;
    }
}

// The list of one number.
fn only(alloc: Global, number: u32) -> Result<List<u32>, NoMemory> {
    let mut numbers = List::empty(alloc);
    numbers.push(number)?;
    Ok(numbers)
}

// A shelf with the five contents, on which the read with this number fails.
fn shelf(alloc: Global, texts: [&str; 5], failing: u32) -> Result<MemoryShelf, NoMemory> {
    let [pd, pp, ud, up, plan] = texts;
    let mut files = List::empty(alloc);
    files.push((Text::of(alloc, "pd")?, Text::of(alloc, pd)?))?;
    files.push((Text::of(alloc, "pp")?, Text::of(alloc, pp)?))?;
    files.push((Text::of(alloc, "ud")?, Text::of(alloc, ud)?))?;
    files.push((Text::of(alloc, "up")?, Text::of(alloc, up)?))?;
    files.push((Text::of(alloc, "plan")?, Text::of(alloc, plan)?))?;
    Ok(MemoryShelf::new(alloc, files, only(alloc, failing)?))
}

// A sink, on which the write with this number fails.
fn sink(alloc: Global, failing: u32) -> Result<MemorySink, NoMemory> {
    Ok(MemorySink::new(alloc, only(alloc, failing)?))
}

// The words of a line.
fn words_of(alloc: Global, line: &str) -> Result<Vec<String>, NoMemory> {
    let mut words = Vec::new(alloc);
    for word in line.split(' ') {
        words.push(String::from_str(alloc, word)?)?;
    }
    Ok(words)
}

// The call with the words of a line over these contents.
fn left_by(
    alloc: Global,
    line: &str,
    texts: [&str; 5],
    failing: Failing,
) -> Result<Left, NoMemory> {
    let words = words_of(alloc, line)?;
    let mut files = shelf(alloc, texts, failing.read)?;
    let mut out = sink(alloc, failing.answer)?;
    let mut faults = sink(alloc, failing.refusal)?;
    let outcome = explain_top(alloc, words.as_slice(), &mut files, &mut out, &mut faults);
    Ok(Left {
        outcome,
        files,
        out,
        faults,
    })
}

/// How a call over these contents ends; and if the case says what fails, also what it asks of the
/// shelf.
pub fn call(
    alloc: Global,
    line: &str,
    texts: [&str; 5],
    failing: Option<Failing>,
) -> Result<String, NoMemory> {
    match failing {
        Some(numbers) => ended_and_asked(alloc, &left_by(alloc, line, texts, numbers)?),
        None => ended(alloc, &left_by(alloc, line, texts, NONE_FAILS)?),
    }
}
