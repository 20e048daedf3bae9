//! The top call: the request of the words, carried out or refused.
ghost use Rattle.std.specs.Prelude.{◌≡◌, ◌≤◌, [], length, map, All, Some, IsNone, IfOk, IfErr};
ghost use Rattle.std.specs.List.{concat};
ghost use Rattle.mre_outside.specs.Failures.{Rose};
ghost use Rattle.mre_words.specs.Requests.{files_of, count_of};
ghost use Rattle.request_answers.specs.Lines.{IsLine};
ghost use Rattle.request_answers.specs.Outputs.{AsksMce, IsAnswer};
ghost use Rattle.request_answers.specs.Texts.{AreShort};
ghost use Rattle.mre_top.specs.Calls.{call_of, asked_by, shelf_change, sink_change};
ghost use Rattle.mre_top.specs.CarriedOut.{IsCarriedOut, answer_in};
ghost use Rattle.mre_top.specs.Causes.{IsOfContents, IsOfFileCount};
ghost use Rattle.mre_top.specs.Endings.{IsRefused, Leaves};
ghost use Rattle.mre_top.specs.Headline.{Headline};
ghost use Rattle.mre_top.specs.Promise.{OnSuccess, OnRefusal, OnContents, OnTraces, Stays, Ended};
ghost use Rattle.mre_top.specs.Reads.{IsReadFailed, IsMissingWhereFailed};
ghost use Rattle.mre_top.specs.Refusals.{IsOfFile};
ghost use Rattle.mre_top.specs.Reporting.{IsReported};

use crate::Refusal;
use crate::reading::read_files;
use crate::reporting::report;
use crate::writing::write_lines;
use mre_base::{Kind, List, NodeLog, Places, Text};
use mre_outside::{Shelf, Sink, SinkStop};
use mre_words::{Request, WordsStop, read_words};
use request_answers::{AnswerStop, Made, answer_texts};
use std::alloc::Global;

/// The most nodes that a search logs if the words give no number.
pub const NODE_LIMIT: u32 = 200_000;

/// A printed explanation: its kind and the told differences.
#[derive(Debug, Drop)]
pub struct Answer {
    pub kind: Kind,
    pub told: Places,
}

/// How a call ended.
pub struct Outcome {
    /// The status with which the program ends.
    pub status: u8,
    /// The explanation that was printed, if one was.
    pub answer: Option<Answer>,
    /// The nodes of this call's searches. No search logs any yet.
    pub log: NodeLog,
}

impl Drop for Outcome {
    fn drop(self) {
        let Outcome {
            status: _,
            answer: _,
            log: _,
        } = self;
    }
}

/// Does everything that the program does: takes its words, the shelf that holds the files, and two
/// sinks, one for answers and one for refusals. An explanation is searched for among all sets of
/// the differences, of which there may be at most 16. With 17 to 256 the call ends with status 5,
/// if nothing else is wrong with the files and the plan is cheapest in the planner's model. Nothing
/// limits the number of states that a search goes through.
pub fn explain_top<H: Shelf, S: Sink, E: Sink>(
    alloc: Global,
    words: &[String],
    shelf: &mut H,
    out: &mut S,
    faults: &mut E,
) -> Outcome
    // An explanation is the first complete set of the differences of the models in the files.
    ensures headline { Headline (call_of H.Shelf S.Sink E.Sink (asked_by words.now)
        shelf.old shelf.new out.old out.new faults.old faults.new) result }
    // Status 0: the request was carried out.
    ensures success { OnSuccess (call_of H.Shelf S.Sink E.Sink (asked_by words.now)
        shelf.old shelf.new out.old out.new faults.old faults.new) result }
    // Each other status: its cause, what is left on `out`, and its lines on `faults`.
    ensures refusal { OnRefusal (call_of H.Shelf S.Sink E.Sink (asked_by words.now)
        shelf.old shelf.new out.old out.new faults.old faults.new) result }
    // The other way: which status the words and the contents of the files force.
    ensures contents { OnContents (call_of H.Shelf S.Sink E.Sink (asked_by words.now)
        shelf.old shelf.new out.old out.new faults.old faults.new) result }
    // What was asked of the shelf, and what is on `out`.
    ensures traces { OnTraces (call_of H.Shelf S.Sink E.Sink (asked_by words.now)
        shelf.old shelf.new out.old out.new faults.old faults.new) result }
    // What stays at every status.
    ensures stays { Stays (call_of H.Shelf S.Sink E.Sink (asked_by words.now)
        shelf.old shelf.new out.old out.new faults.old faults.new) result }
{
    run(alloc, words, shelf, out, faults)
}

// The same call: the two ways in which it ends, from which each status follows.
fn run<H: Shelf, S: Sink, E: Sink>(
    alloc: Global,
    words: &[String],
    shelf: &mut H,
    out: &mut S,
    faults: &mut E,
) -> Outcome
    ensures ended { Ended (call_of H.Shelf S.Sink E.Sink (asked_by words.now)
        shelf.old shelf.new out.old out.new faults.old faults.new) result }
    ensures stays { Stays (call_of H.Shelf S.Sink E.Sink (asked_by words.now)
        shelf.old shelf.new out.old out.new faults.old faults.new) result }
{
    match read_words(alloc, words) {
        Ok(request) => answer_request(alloc, &request, shelf, out, faults),
        Err(WordsStop::NoRequest) => refuse(alloc, &Refusal::Usage, &List::empty(alloc), faults),
        Err(WordsStop::NoMemory) => refuse(alloc, &Refusal::NoMemory, &List::empty(alloc), faults),
    }
}

// Carries out the request.
fn answer_request<H: Shelf, S: Sink, E: Sink>(
    alloc: Global,
    request: &Request,
    shelf: &mut H,
    out: &mut S,
    faults: &mut E,
) -> Outcome
    requires counted { length (files_of request.now) ≡ count_of request.now }
    requires mce { AsksMce request.now }
    ensures ended { Ended (call_of H.Shelf S.Sink E.Sink (Some request.now)
        shelf.old shelf.new out.old out.new faults.old faults.new) result }
    ensures stays { Stays (call_of H.Shelf S.Sink E.Sink (Some request.now)
        shelf.old shelf.new out.old out.new faults.old faults.new) result }
{
    match serve(alloc, request, shelf, out) {
        Ok(told) => Outcome {
            status: 0,
            answer: answer_of(request, told),
            log: NodeLog::new(alloc, NODE_LIMIT),
        },
        Err(refusal) => refuse(alloc, &refusal, request.files(), faults),
    }
}

// The answer that goes with told differences.
fn answer_of(request: &Request, told: Places) -> Option<Answer>
    ensures { result ≡ answer_in (Some request.now) told }
{
    match request {
        Request::Explain { kind, files: _ } => Some(Answer { kind: *kind, told }),
        Request::Diff { .. } | Request::Patch { .. } | Request::PlanPatch { .. } => None,
    }
}

// The differences that the written answer tells, or why there is no answer.
fn serve<H: Shelf, S: Sink>(
    alloc: Global,
    request: &Request,
    shelf: &mut H,
    out: &mut S,
) -> Result<Places, Refusal>
    requires counted { length (files_of request.now) ≡ count_of request.now }
    requires mce { AsksMce request.now }
    ensures ok { IfOk result (λ told. IsCarriedOut (Some request.now)
        (shelf_change H.Shelf shelf.old shelf.new) (sink_change S.Sink out.old out.new)
        (answer_in (Some request.now) told)) }
    ensures err { IfErr result (IsRefused (Some request.now)
        (shelf_change H.Shelf shelf.old shelf.new)) }
    ensures leaves { IfErr result (Leaves (Some request.now) (H.held shelf.old)
        (sink_change S.Sink out.old out.new)) }
    ensures of_file { IfErr result (IsOfFile (files_of request.now)) }
    ensures read_failed { IfErr result (λ refusal.
        IsReadFailed refusal → Rose (H.failures shelf.old) (H.failures shelf.new)) }
    ensures held { H.held shelf.new ≡ H.held shelf.old }
    ensures shelf_failures { H.failures shelf.old ≤ H.failures shelf.new }
    ensures out_failures { S.failures out.old ≤ S.failures out.new }
    ensures sound { H.is_sound shelf.old
        → IfErr result (IsMissingWhereFailed (H.held shelf.old) (files_of request.now)) }
    ensures shelf_stays_sound { H.is_sound shelf.old → H.is_sound shelf.new }
    ensures out_stays_sound { S.is_sound out.old → S.is_sound out.new }
{
    match read_files(alloc, shelf, request.files()) {
        Ok(contents) => match answer_contents(alloc, request, &contents) {
            Ok(made) => match write_lines(out, &made.lines) {
                Ok(()) => Ok(made.told),
                Err(SinkStop::Failed) => Err(Refusal::WriteFailed),
                Err(SinkStop::NoMemory) => Err(Refusal::NoMemory),
            },
            Err(refusal) => Err(refusal),
        },
        Err(refusal) => Err(refusal),
    }
}

// What is printed about the contents, or why nothing is printed.
fn answer_contents(
    alloc: Global,
    request: &Request,
    contents: &List<Vec<u8>>,
) -> Result<Made, Refusal>
    requires counted { length contents.now ≡ count_of request.now }
    requires short { AreShort (map (λ bytes. bytes.items) contents.now) }
    requires mce { AsksMce request.now }
    ensures ok { IfOk result (λ made. IsAnswer request.now (map (λ bytes. bytes.items) contents.now)
        made.told (concat made.lines)) }
    ensures whole { IfOk result (λ made. All IsLine made.lines) }
    ensures err { IfErr result (IsOfContents request.now
        (map (λ bytes. bytes.items) contents.now)) }
    ensures of_file { IfErr result (IsOfFileCount (count_of request.now)) }
{
    match answer_texts(alloc, request, contents) {
        Ok(made) => Ok(made),
        Err(AnswerStop::NoMemory) => Err(Refusal::NoMemory),
        Err(stop) => Err(Refusal::Stopped(stop)),
    }
}

// The outcome of a refusal, reported on `faults`.
fn refuse<E: Sink>(alloc: Global, refusal: &Refusal, files: &List<Text>, faults: &mut E) -> Outcome
    requires { IsOfFile files.now refusal.now }
    ensures reported { IsReported (sink_change E.Sink faults.old faults.new) files.now refusal.now
        result.status }
    ensures never_falls { E.failures faults.old ≤ E.failures faults.new }
    ensures stays_sound { E.is_sound faults.old → E.is_sound faults.new }
    ensures answer { IsNone result.answer }
    ensures log { result.log ≡ record { limit = 200000; nodes = [] } }
{
    Outcome {
        status: report(alloc, refusal, files, faults),
        answer: None,
        log: NodeLog::new(alloc, NODE_LIMIT),
    }
}
