//! The requests that words make.
use super::making::words;
use mre_top::{Request, WordsStop, read_words};
use std::alloc::Global;
use std::process::Abort;
use std::test::Fail;

/// The words, what they ask for, and the number of files that it is about.
type Asked = (&'static str, &'static str, usize);

const ASKED: [Asked; 28] = [
    ("explain mce a b c d e", "explain", 5),
    ("explain mce explain mce nodes=1 json cert=", "explain", 5),
    ("explain mce a a a a a", "explain", 5),
    ("diff a b c d", "diff", 4),
    ("diff diff patch json mce", "diff", 4),
    ("patch a b c d e", "patch", 5),
    ("plan-patch a b c d e", "plan-patch", 5),
    ("", "none", 0),
    ("explain", "none", 0),
    ("explain mce", "none", 0),
    ("explain mce a b c d", "none", 0),
    ("explain mce a b c d ", "none", 0),
    ("explain mce a b c d e f", "none", 0),
    ("explain mme a b c d e", "none", 0),
    ("explain mce a b c d e nodes=0", "none", 0),
    ("explain mce a b c d e nodes=1", "none", 0),
    ("explain mce a b c d e json", "none", 0),
    ("explain mce a b c d e json json", "none", 0),
    ("Explain mce a b c d e", "none", 0),
    ("diff a b c", "none", 0),
    ("diff a  c d", "none", 0),
    ("diff a b c d e", "none", 0),
    ("patch a b c d", "none", 0),
    ("patch a b c d e f", "none", 0),
    ("plan-patch a b c d ", "none", 0),
    ("plan patch a b c d e", "none", 0),
    ("check a b c d e f", "none", 0),
    ("gen 1 5", "none", 0),
];

#[test]
fn words_that_make_a_request_and_words_that_do_not(rt: HostRuntime) -> Result<(), Fail> {
    assert_requests(&rt, rt.alloc(), &ASKED)
}

fn assert_requests(rt: &impl Abort, alloc: Global, rows: &[Asked]) -> Result<(), Fail> {
    for &(line, wanted, files) in rows {
        let made = match read_words(alloc, words(alloc, line)?.as_slice()) {
            Ok(request) => shown(&request),
            Err(WordsStop::NoRequest) => ("none", 0),
            Err(WordsStop::NoMemory) => return Err(Fail::from("no memory")),
        };
        assert_eq!(rt; made, (wanted, files), "{line}");
    }
    Ok(())
}

fn shown(request: &Request) -> (&'static str, usize) {
    let command = match request {
        Request::Explain { .. } => "explain",
        Request::Diff { .. } => "diff",
        Request::Patch { .. } => "patch",
        Request::PlanPatch { .. } => "plan-patch",
    };
    (command, request.files().len())
}
