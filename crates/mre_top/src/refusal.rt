//! Why a call isn't carried out, with its status and its lines.
ghost use Rattle.std.specs.Prelude.{◌≡◌, ◌<◌, [], ◌∷◌, length, IfOk};
ghost use Rattle.mre_top.specs.Refusals.{status_of, lines_of, IsOfFile};
ghost use Rattle.request_answers.specs.Lines.{name_at};

use mre_base::{List, NoMemory, Text};
use request_answers::AnswerStop;
use std::alloc::Global;

const USAGE: &str = "mre: usage: explain, check, diff, patch, plan-patch or gen\n";

/// Why a call isn't carried out. A `file` is the place of a name among those of the request,
/// counted from 0.
#[derive(Debug, Drop)]
pub enum Refusal {
    /// The words make no request.
    Usage,
    /// Reading the file failed.
    ReadFailed { file: usize },
    /// Writing the answer failed.
    WriteFailed,
    /// The file has more bytes than its limit.
    TooLong { file: usize },
    /// The contents of the files are the cause.
    Stopped(AnswerStop),
    /// Memory ran out.
    NoMemory,
}

impl Refusal {
    /// The status with which the program ends.
    pub fn status(&self) -> u8
        ensures { result ≡ status_of self.now }
    {
        match self {
            Refusal::Usage => 2,
            Refusal::ReadFailed { file: _ } => 3,
            Refusal::WriteFailed => 4,
            Refusal::TooLong { file: _ } => 7,
            Refusal::Stopped(stop) => stop.status(),
            Refusal::NoMemory => 9,
        }
    }

    /// Its lines, each with its line feed.
    pub fn lines(&self, alloc: Global, files: &List<Text>) -> Result<List<Text>, NoMemory>
        requires { IsOfFile files.now self.now }
        ensures ok { IfOk result (λ lines. lines ≡ lines_of files.now self.now) }
    {
        match self {
            Refusal::Usage => one_line(alloc, USAGE),
            Refusal::ReadFailed { file } => {
                let name = name_of(files, *file);
                let text = format!(in alloc; "mre: {name}: read failed\n")?;
                one_line(alloc, text.as_str())
            }
            Refusal::WriteFailed => one_line(alloc, "mre: write failed\n"),
            Refusal::TooLong { file } => {
                let name = name_of(files, *file);
                let text = format!(in alloc; "mre: bytes of {name} 4194305 limit 4194304\n")?;
                one_line(alloc, text.as_str())
            }
            Refusal::Stopped(stop) => stop.lines(alloc, files),
            Refusal::NoMemory => one_line(alloc, "mre: out of memory\n"),
        }
    }
}

// A list of one text.
fn one_line(alloc: Global, text: &str) -> Result<List<Text>, NoMemory>
    ensures ok { IfOk result (λ lines. lines ≡ text.now ∷ []) }
{
    let mut lines = List::empty(alloc);
    lines.push(Text::of(alloc, text)?)?;
    Ok(lines)
}

// The name at a place, counted from 0.
fn name_of(files: &List<Text>, file: usize) -> &str
    requires { file < length files.now }
    ensures { result.now ≡ name_at files.now file }
{
    files.item(file).as_str()
}
