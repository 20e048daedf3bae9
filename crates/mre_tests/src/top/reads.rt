//! Files that are past their limit.
use super::making::{shelf, words};
use mre_base::List;
use mre_outside::{MemoryShelf, MemorySink, SoundSink};
use mre_top::explain_top;
use std::alloc::Global;
use std::process::Abort;
use std::test::Fail;

/// A text with one byte more than a file may have.
fn too_long(alloc: Global) -> Result<String, Fail> {
    let mut text = String::from_str(alloc, " ")?;
    for _ in 0..22 {
        let half = text.clone()?;
        text.push_str(half.as_str())?;
    }
    text.push(' ')?;
    Ok(text)
}

/// A call over these files ends with status 7 and prints nothing, and after it the sink of refusals
/// holds this report.
fn assert_past_limit(
    rt: &impl Abort,
    alloc: Global,
    files: &mut MemoryShelf,
    faults: &mut MemorySink,
    report: &str,
) -> Result<(), Fail> {
    let words = words(alloc, "explain mce pd pp ud up plan")?;
    let mut out = SoundSink::new(alloc);
    let outcome = explain_top(alloc, words.as_slice(), files, &mut out, faults);
    assert_eq!(rt; outcome.status, 7, "{report}");
    assert!(rt; outcome.answer.is_none(), "{report}");
    assert!(rt; out.bytes().is_empty(), "{report}");
    assert_eq!(rt; faults.bytes(), report.as_bytes());
    Ok(())
}

/// A file past its limit comes before a text with a fault.
#[test]
fn reads_come_before_texts(rt: HostRuntime) -> Result<(), Fail> {
    let text = too_long(rt.alloc())?;
    let mut files = shelf(rt.alloc(), ["(", "(", text.as_str(), text.as_str(), "("])?;
    let mut faults = MemorySink::new(rt.alloc(), List::empty(rt.alloc()));
    assert_past_limit(
        &rt,
        rt.alloc(),
        &mut files,
        &mut faults,
        "mre: bytes of ud 4194305 limit 4194304\n",
    )
}

#[test]
fn a_file_past_its_limit_and_a_line_that_is_not_written(rt: HostRuntime) -> Result<(), Fail> {
    let text = too_long(rt.alloc())?;
    let mut files = shelf(rt.alloc(), [text.as_str(), "(", "(", "(", "("])?;
    let mut numbers = List::empty(rt.alloc());
    numbers.push(1)?;
    let mut faults = MemorySink::new(rt.alloc(), numbers);
    for report in [
        "mre: bytes of pd 41",
        "mre: bytes of pd 41mre: bytes of pd 4194305 limit 4194304\n",
    ] {
        assert_past_limit(&rt, rt.alloc(), &mut files, &mut faults, report)?;
    }
    Ok(())
}
