//! How a call ended, as lines.
use crate::calling::Left;
use mre_base::NoMemory;
use mre_outside::{Act, ShelfCall};
use mre_top::Outcome;
use std::alloc::Global;

// The status, and the number of told differences.
fn status_line(alloc: Global, outcome: &Outcome) -> Result<String, NoMemory> {
    let status = outcome.status;
    match &outcome.answer {
        Some(answer) => {
            let told = answer.told.count();
            Ok(format!(in alloc; "status {status}, told {told}\n")?)
        }
        None => Ok(format!(in alloc; "status {status}\n")?),
    }
}

// Adds the lines, each after a mark, and whether the last one is cut.
fn push_lines(text: &mut String, mark: &str, written: &[u8]) -> Result<(), NoMemory> {
    let Ok(lines) = std::str::from_utf8(written) else {
        text.push_str("bytes that are no text\n")?;
        return Ok(());
    };
    for line in lines.lines() {
        write!(text, "{mark}{line}\n")?;
    }
    if !lines.is_empty() && !lines.ends_with('\n') {
        text.push_str("cut\n")?;
    }
    Ok(())
}

// Adds the names that were asked for, each with whether it was put and whether the call failed.
fn push_asked(text: &mut String, calls: &[ShelfCall]) -> Result<(), NoMemory> {
    text.push_str("asked")?;
    for call in calls {
        let name = call.name.as_str();
        let act = match call.act {
            Act::Read => "",
            Act::Put => "(put)",
        };
        let failed = if call.failed { "(failed)" } else { "" };
        write!(text, " {name}{act}{failed}")?;
    }
    text.push_str("\n")?;
    Ok(())
}

/// How a call ended: its status and the number of told differences, and what it wrote on the sinks
/// of answers and of refusals.
pub fn ended(alloc: Global, left: &Left) -> Result<String, NoMemory> {
    let mut text = status_line(alloc, &left.outcome)?;
    push_lines(&mut text, "  ", left.out.bytes())?;
    push_lines(&mut text, "! ", left.faults.bytes())?;
    Ok(text)
}

/// The same, and what it asked of the shelf.
pub fn ended_and_asked(alloc: Global, left: &Left) -> Result<String, NoMemory> {
    let mut text = ended(alloc, left)?;
    push_asked(&mut text, left.files.asked())?;
    Ok(text)
}
