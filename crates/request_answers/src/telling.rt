//! The printed lines of a stop.

ghost use Rattle.std.specs.Prelude.{◌≡◌, ◌<◌, ◌++◌, length, map, IfOk, OnOk};
ghost use Rattle.std.specs.String.{string_bytes};
ghost use Rattle.request_answers.specs.Lines.{name_at, line, line_of, lines_of, fault_line};
ghost use Rattle.request_answers.specs.Lines.{text_line, rule_name, IsOfFile};

use crate::texts::PLAN_FILE;
use crate::{AnswerStop, PlanFault};
use mre_base::{List, NoMemory, Text};
use pddl_text::{TextFault, TextRule};
use std::alloc::Global;

impl AnswerStop {
    /// The lines of the stop, each with its line feed, for files with these names.
    pub fn lines(&self, alloc: Global, files: &List<Text>) -> Result<List<Text>, NoMemory>
        requires { IsOfFile (length files.now) self.now }
        ensures ok { IfOk result (λ lines. lines ≡ lines_of files.now self.now) }
    {
        let mut lines = List::empty(alloc);
        let first = self.line(alloc, files)?;
        lines.push(Text::of(alloc, first.as_str())?)?;
        if let AnswerStop::NotCheapest {
            cost: _,
            other: _,
            steps,
        } = self
        {
            push_steps(alloc, &mut lines, steps)?;
        }
        Ok(lines)
    }

    // The first line.
    fn line(&self, alloc: Global, files: &List<Text>) -> Result<String, NoMemory>
        requires { IsOfFile (length files.now) self.now }
        ensures ok { IfOk result (λ text. string_bytes text ≡ line_of files.now self.now) }
    {
        match self {
            AnswerStop::Misread { file, fault } => text_fault(alloc, name_of(files, *file), fault),
            AnswerStop::Unbuilt => {
                let name = name_of(files, PLAN_FILE);
                Ok(format!(in alloc; "mre: {name}:1:1: unbuilt\n")?)
            }
            AnswerStop::Disagree(fault) => {
                let planner = fault.planner.as_str();
                let user = fault.user.as_str();
                Ok(format!(in alloc; "mre: models disagree: planner {planner}, user {user}\n")?)
            }
            AnswerStop::TooManyParameters { found } => {
                Ok(format!(in alloc; "mre: parameters {found} limit 8\n")?)
            }
            AnswerStop::TooManyObjects { found } => {
                Ok(format!(in alloc; "mre: objects {found} limit 1000\n")?)
            }
            AnswerStop::TooManyDifferences { found } => {
                Ok(format!(in alloc; "mre: differences {found} limit 256\n")?)
            }
            AnswerStop::TooManySteps { found } => {
                Ok(format!(in alloc; "mre: plan steps {found} limit 10000\n")?)
            }
            AnswerStop::TooManyActions => Ok(String::from_str(
                alloc,
                "mre: ground actions 50001 limit 50000\n",
            )?),
            AnswerStop::TooManyAtoms => {
                Ok(String::from_str(alloc, "mre: atoms 4097 limit 4096\n")?)
            }
            AnswerStop::NotValid(fault) => fault.line(alloc),
            AnswerStop::NotCheapest {
                cost,
                other,
                steps: _,
            } => { Ok(format!(in alloc; "mre: plan costs {cost}, these lines cost {other}:\n")?) }
            AnswerStop::NoMemory => Ok(String::from_str(alloc, "mre: out of memory\n")?),
        }
    }
}

impl PlanFault {
    // The line of the fault, with its line feed.
    fn line(&self, alloc: Global) -> Result<String, NoMemory>
        ensures ok { IfOk result (λ text. string_bytes text ≡ fault_line self.now) }
    {
        match self {
            PlanFault::StepNeeds { step, atom } => {
                let atom = atom.as_str();
                Ok(format!(in alloc; "mre: plan step {step} needs {atom}\n")?)
            }
            PlanFault::StepHasNoCost { step } => {
                Ok(format!(in alloc; "mre: plan step {step} has no cost\n")?)
            }
            PlanFault::EndsWithout { atom } => {
                let atom = atom.as_str();
                Ok(format!(in alloc; "mre: plan ends without {atom}\n")?)
            }
        }
    }
}

// The line of the first fault of the file with this name.
fn text_fault(alloc: Global, name: &str, fault: &TextFault) -> Result<String, NoMemory>
    ensures ok { IfOk result (λ text. string_bytes text ≡ text_line name.now fault.now) }
{
    let line = fault.at.line;
    let column = fault.at.column;
    let rule = name_of_rule(fault.rule);
    let word = fault.word.as_str();
    if word.is_empty() {
        Ok(format!(in alloc; "mre: {name}:{line}:{column}: {rule}\n")?)
    } else {
        Ok(format!(in alloc; "mre: {name}:{line}:{column}: {rule} {word}\n")?)
    }
}

fn name_of_rule(rule: TextRule) -> &'static str
    ensures { result.now ≡ rule_name rule }
{
    match rule {
        TextRule::Byte => "byte",
        TextRule::Close => "close",
        TextRule::Deep => "deep",
        TextRule::Open => "open",
        TextRule::Form => "form",
        TextRule::Unsupported => "unsupported",
        TextRule::NotWhole => "not-whole",
        TextRule::Reserved => "reserved",
        TextRule::Twice => "twice",
        TextRule::TypeCycle => "type-cycle",
        TextRule::Undeclared => "undeclared",
        TextRule::WrongArity => "wrong-arity",
        TextRule::WrongType => "wrong-type",
    }
}

// Puts a line for each step at the end.
fn push_steps(alloc: Global, lines: &mut List<Text>, steps: &List<Text>) -> Result<(), NoMemory>
    ensures ok { OnOk result (lines.new ≡ lines.old ++ map line steps.now) }
{
    for place in 0..steps.len() {
        let step = steps.item(place).as_str();
        let text = format!(in alloc; "{step}\n")?;
        lines.push(Text::of(alloc, text.as_str())?)?;
    }
    Ok(())
}

// The name at a place, counted from 0.
fn name_of(files: &List<Text>, file: usize) -> &str
    requires { file < length files.now }
    ensures { result.now ≡ name_at files.now file }
{
    files.item(file).as_str()
}
