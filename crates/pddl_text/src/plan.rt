//! Reads the bytes of a plan into lines of names.
ghost use Rattle.std.specs.Prelude.{◌≡◌, ◌+◌, ◌^◌, ◌<◌, ◌≤◌, ◌∷◌, ◌++◌, [], length, All, IfOk};
ghost use Rattle.std.specs.Prelude.{OnOk, Some, None, Err, ℕ, List as ListOf};
ghost use Rattle.std.specs.String.{string_bytes};
ghost use Rattle.pddl_text.specs.Answers.{IfFault, AnswersOk, AnswersFault, Gives};
ghost use Rattle.pddl_text.specs.Faults.{fault_at};
ghost use Rattle.pddl_text.specs.PlanReading.{row_step, inside_step, row_end, line_of, rows_from};
ghost use Rattle.pddl_text.specs.PlanReading.{lines_of, state_of};
ghost use Rattle.pddl_text.specs.Plans.{kept, SpellsPlan, LeavesPlan};
ghost use Rattle.pddl_text.specs.Spans.{WordsAscend, words_of};
ghost use Rattle.pddl_text.specs.Stops.{IfStopped, Finds};
ghost use Rattle.pddl_text.specs.declared.fault.TextFault as faults;
ghost use Rattle.pddl_text.specs.declared.plan.PlanLine as plan;

use crate::bytes::{is_blank, is_name_start, is_space, is_word_byte, letter_of};
use crate::fault::Stop;
use crate::{Place, ReadStop, TextRule};
use mre_base::{List, NoMemory, Text};
use std::alloc::Global;

/// A line of a plan: the name of an action and the names of its objects, in lower case, each with
/// the place of its first byte.
#[derive(Debug, Drop)]
pub struct PlanLine {
    pub words: List<(Text, Place)>,
}

/// The state after the bytes of a row so far.
#[derive(Clone, Copy)]
pub enum RowMode {
    Before,
    Inside,
    InName { from: Place },
    Closed,
}

/// A row of a plan that is being read: the state after its bytes so far, the letters so far of its
/// last name, and the names before it.
#[derive(Drop)]
pub struct RowReader {
    pub mode: RowMode,
    pub letters: String,
    pub words: List<(Text, Place)>,
}

/// The row leaves the form at this place.
fn no_form(at: Place) -> Stop
    ensures { result ≡ Stop.Fault at TextRule.Form }
{
    Stop::Fault {
        at,
        rule: TextRule::Form,
    }
}

impl RowReader {
    /// Takes a byte inside the parentheses and outside a name.
    fn inside(&mut self, at: Place, byte: u8) -> Result<(), Stop>
        requires { self.old.mode ≡ RowMode.Inside }
        ensures ok { OnOk result (inside_step self.old.words at byte ≡ Some (state_of self.new)) }
        ensures fault { IfStopped result (λ fault.
            (inside_step self.old.words at byte ≡ None)
            × (fault ≡ fault_at at TextRule.Form)) }
    {
        if is_space(byte) {
            return Ok(());
        }
        if byte == b')' && !self.words.is_empty() {
            self.mode = RowMode::Closed;
            return Ok(());
        }
        if is_name_start(byte) {
            self.letters.clear();
            self.letters.push(letter_of(byte))?;
            self.mode = RowMode::InName { from: at };
            return Ok(());
        }
        Err(no_form(at))
    }

    /// Takes the name that ended before this byte.
    fn end_name(&mut self, alloc: Global, from: Place) -> Result<(), NoMemory>
        requires { self.old.mode ≡ RowMode.InName from }
        ensures named { OnOk result (self.new.words
            ≡ self.old.words ++ (string_bytes self.old.letters, from) ∷ []) }
        ensures inside { OnOk result (self.new.mode ≡ RowMode.Inside) }
    {
        let text = Text::of(alloc, self.letters.as_str())?;
        self.mode = RowMode::Inside;
        self.words.push((text, from))
    }

    /// Takes the next byte.
    fn step(&mut self, alloc: Global, at: Place, byte: u8) -> Result<(), Stop>
        ensures ok { OnOk result (row_step (state_of self.old).row self.old.words at byte
            ≡ Some (state_of self.new)) }
        ensures fault { IfStopped result (λ fault.
            (row_step (state_of self.old).row self.old.words at byte ≡ None)
            × (fault ≡ fault_at at TextRule.Form)) }
    {
        match self.mode {
            RowMode::Before if is_blank(byte) => Ok(()),
            RowMode::Before if byte == b'(' => {
                self.mode = RowMode::Inside;
                Ok(())
            }
            RowMode::Inside => self.inside(at, byte),
            RowMode::InName { .. } if is_word_byte(byte) => {
                self.letters.push(letter_of(byte))?;
                Ok(())
            }
            RowMode::InName { from } => {
                self.end_name(alloc, from)?;
                self.inside(at, byte)
            }
            RowMode::Closed if is_blank(byte) => Ok(()),
            RowMode::Before | RowMode::Closed => Err(no_form(at)),
        }
    }

    /// The line, once its row has ended at this place.
    fn end(self, at: Place) -> Result<PlanLine, Stop>
        ensures { Finds result (row_end (state_of self).row self.words at) }
    {
        match self.mode {
            RowMode::Closed => Ok(PlanLine { words: self.words }),
            RowMode::Before | RowMode::Inside | RowMode::InName { .. } => Err(no_form(at)),
        }
    }
}

/// What is kept of a row: its bytes up to where only blanks are left before a `;` or the end.
fn kept(row: &[u8]) -> &[u8]
    ensures kept { result.now ≡ kept row.now }
    ensures short { length result.now ≤ length row.now }
{
    let mut end = 0;
    for (place, byte) in row.iter().enumerate() {
        if *byte == b';' {
            return &row[..end];
        }
        if !is_blank(*byte) {
            end = place + 1;
        }
    }
    &row[..end]
}

/// The line of a row, from its kept bytes.
fn read_row(alloc: Global, line: u32, row: &[u8]) -> Result<PlanLine, Stop>
    requires short { length row.now < 2 ^ 28 }
    ensures { Finds result (line_of line row.now) }
{
    let mut reader = RowReader {
        mode: RowMode::Before,
        letters: String::new(alloc),
        words: List::empty(alloc),
    };
    let mut at = Place { line, column: 1 };
    for byte in row {
        reader.step(alloc, at, *byte)?;
        at.column += 1;
    }
    reader.end(at)
}

/// Takes the next row of a plan, the one on this line.
fn take_row(alloc: Global, lines: &mut List<PlanLine>, line: u32, row: &[u8]) -> Result<(), Stop>
    requires short { length row.now < 2 ^ 28 }
    ensures ok { OnOk result ((rows : ListOf (ListOf ℕ)) →
        rows_from lines.old line (row.now ∷ rows) ≡ rows_from lines.new (line + 1) rows) }
    ensures fault { IfStopped result (λ fault. (rows : ListOf (ListOf ℕ)) →
        rows_from lines.old line (row.now ∷ rows) ≡ Err fault) }
{
    let row = kept(row);
    if row.is_empty() {
        return Ok(());
    }
    match read_row(alloc, line, row) {
        Ok(read) => {
            lines.push(read)?;
            Ok(())
        }
        Err(stop) => Err(stop),
    }
}

/// What the bytes of a whole plan are read as.
fn read_rows(alloc: Global, bytes: &[u8]) -> Result<List<PlanLine>, Stop>
    requires short { length bytes.now < 2 ^ 28 }
    ensures { Finds result (lines_of bytes.now) }
{
    let mut lines = List::empty(alloc);
    let mut line = 1;
    let mut first = 0;
    for (place, byte) in bytes.iter().enumerate() {
        if *byte == b'\n' {
            take_row(alloc, &mut lines, line, &bytes[first..place])?;
            line += 1;
            first = place + 1;
        }
    }
    match take_row(alloc, &mut lines, line, &bytes[first..]) {
        Ok(()) => Ok(lines),
        Err(stop) => Err(stop),
    }
}

/// The answer for the bytes of a whole plan.
fn answer(alloc: Global, bytes: &[u8]) -> Result<List<PlanLine>, ReadStop>
    requires short { length bytes.now < 2 ^ 28 }
    ensures { Gives result (lines_of bytes.now) }
{
    match read_rows(alloc, bytes) {
        Ok(lines) => Ok(lines),
        Err(stop) => Err(stop.answer(alloc)),
    }
}

/// The lines of a plan, or the first place where it leaves their form, with the rule `Form`.
pub fn read_plan_lines(alloc: Global, bytes: &[u8]) -> Result<List<PlanLine>, ReadStop>
    requires short { length bytes.now < 2 ^ 28 }

    // The answer is the lines that the bytes spell, or where they first leave the form.
    ensures ok { IfOk result (λ lines. SpellsPlan bytes.now lines) }
    ensures fault { IfFault result (λ fault. LeavesPlan bytes.now fault) }

    // The lines that the bytes spell are the answer, and so is the place where they first leave the
    // form.
    ensures succeeds { (lines : ListOf plan.PlanLine) → SpellsPlan bytes.now lines →
        AnswersOk result lines }
    ensures refuses { (fault : faults.TextFault) → LeavesPlan bytes.now fault →
        AnswersFault result fault }

    // Each word is the lower case of its slice of the bytes, and the slices ascend.
    ensures words { IfOk result (λ lines. WordsAscend bytes.now 0 (words_of lines)) }

    // Each line has a word, the action's name, and there are no more lines and words than bytes.
    ensures named { IfOk result (λ lines. All (λ line. 0 < length line.words) lines) }
    ensures few { IfOk result (λ lines.
        length lines + length (words_of lines) ≤ length bytes.now) }
{
    answer(alloc, bytes)
}
