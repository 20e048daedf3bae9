//! What the tests are made of.
use mre_base::{List, Text};
use mre_outside::MemoryShelf;
use std::alloc::Global;
use std::test::Fail;

pub fn words(alloc: Global, line: &str) -> Result<Vec<String>, Fail> {
    let mut words = Vec::new(alloc);
    for word in line.split(' ') {
        words.push(String::from_str(alloc, word)?)?;
    }
    Ok(words)
}

/// A shelf with the five files.
pub fn shelf(alloc: Global, texts: [&str; 5]) -> Result<MemoryShelf, Fail> {
    let [pd, pp, ud, up, plan] = texts;
    let mut files = List::empty(alloc);
    files.push((Text::of(alloc, "pd")?, Text::of(alloc, pd)?))?;
    files.push((Text::of(alloc, "pp")?, Text::of(alloc, pp)?))?;
    files.push((Text::of(alloc, "ud")?, Text::of(alloc, ud)?))?;
    files.push((Text::of(alloc, "up")?, Text::of(alloc, up)?))?;
    files.push((Text::of(alloc, "plan")?, Text::of(alloc, plan)?))?;
    Ok(MemoryShelf::new(alloc, files, List::empty(alloc)))
}
