//! Lines that are short for many.
use mre_base::NoMemory;

// The count of a line `times COUNT BEFORE|AFTER`, and the texts before and after each number.
fn repeated(line: &str) -> Option<(u32, &str, &str)> {
    let (count, around) = line.strip_prefix("times ")?.split_once(' ')?;
    let (before, after) = around.split_once('|')?;
    Some((count.parse::<u32>().ok()?, before, after))
}

// Adds this number of lines, with the numbers from 0 on.
fn push_numbered(text: &mut String, count: u32, before: &str, after: &str) -> Result<(), NoMemory> {
    for number in 0..count {
        write!(text, "{before}{number}{after}\n")?;
    }
    Ok(())
}

/// Adds a line of a text, or the lines that it is short for.
pub fn push_line(text: &mut String, line: &str) -> Result<(), NoMemory> {
    match repeated(line) {
        Some((count, before, after)) => push_numbered(text, count, before, after),
        None => {
            write!(text, "{line}\n")?;
            Ok(())
        }
    }
}
