//! The reader of plans.

ghost use Rattle.std.specs.Prelude.{◌≤◌, ◌<◌, ◌^◌, [], length, All, IfOk};
ghost use Rattle.pddl_text.specs.Answers.{IfFault, AnswersOk, AnswersFault, Gives};
ghost use Rattle.pddl_text.specs.declared.fault.TextFault as faults;
ghost use Rattle.model_kit.specs.Vocabulary.{IsGroundAction};
ghost use Rattle.model_kit.specs.declared.action.Plan as plans;
ghost use Rattle.pddl_names.specs.Numbers.{IsTableOf, entry_name, word_name};
ghost use Rattle.pddl_names.specs.PlanNames.{IsPlanText, IsFirstFault};
ghost use Rattle.pddl_names.specs.Reading.{steps_from, plan_of, read_of};

use crate::names::NameTable;
use crate::step::step_of;
use model_kit::{GroundAction, Plan, Vocabulary};
use mre_base::List;
use pddl_text::{PlanLine, ReadStop, read_plan_lines};
use std::alloc::Global;

/// The steps of lines.
fn steps_of(
    alloc: Global,
    words: &Vocabulary,
    actions: &NameTable,
    objects: &NameTable,
    lines: &List<PlanLine>,
) -> Result<List<GroundAction>, ReadStop>
    requires actions { IsTableOf word_name words.now.actions actions.now }
    requires objects { IsTableOf entry_name words.now.objects objects.now }
    requires named { All (λ line. 0 < length line.words) lines.now }
    ensures { Gives result (steps_from words.now [] lines.now) }
{
    let mut steps = List::empty(alloc);
    for place in 0..lines.len() {
        match step_of(alloc, words, actions, objects, lines.item(place)) {
            Ok(step) => steps.push(step)?,
            Err(stop) => return Err(stop),
        }
    }
    Ok(steps)
}

/// The plan of lines.
fn plan_of(alloc: Global, words: &Vocabulary, lines: &List<PlanLine>) -> Result<Plan, ReadStop>
    requires actions { length words.now.actions < 2 ^ 30 }
    requires objects { length words.now.objects < 2 ^ 30 }
    requires named { All (λ line. 0 < length line.words) lines.now }
    ensures { Gives result (plan_of words.now lines.now) }
{
    let Ok(actions) = NameTable::of(alloc, &words.actions) else {
        return Err(ReadStop::NoMemory);
    };
    let Ok(objects) = NameTable::of(alloc, &words.objects) else {
        return Err(ReadStop::NoMemory);
    };
    match steps_of(alloc, words, &actions, &objects, lines) {
        Ok(steps) => Ok(Plan { steps }),
        Err(fault) => Err(fault),
    }
}

/// The plan of bytes.
fn read_text(alloc: Global, bytes: &[u8], words: &Vocabulary) -> Result<Plan, ReadStop>
    requires short { length bytes.now < 2 ^ 28 }
    requires actions { length words.now.actions < 2 ^ 30 }
    requires objects { length words.now.objects < 2 ^ 30 }
    ensures { Gives result (read_of words.now bytes.now) }
{
    match read_plan_lines(alloc, bytes) {
        Ok(lines) => plan_of(alloc, words, &lines),
        Err(stop) => Err(stop),
    }
}

/// The plan of a text, in the numbers of the vocabulary, or the text's first fault: where it leaves
/// the form of a plan, with the rule `Form` and no word; else the first word, line by line, that
/// breaks a rule of names, with that word and the first rule of `Undeclared`, `WrongArity` and
/// `WrongType` that it breaks.
pub fn read_plan(alloc: Global, bytes: &[u8], words: &Vocabulary) -> Result<Plan, ReadStop>
    requires short { length bytes.now < 2 ^ 28 }
    requires actions { length words.now.actions < 2 ^ 30 }
    requires objects { length words.now.objects < 2 ^ 30 }

    // What is answered is the plan of the text, and its first fault.
    ensures ok { IfOk result (λ plan. IsPlanText words.now bytes.now plan) }
    ensures fault { IfFault result (λ fault. IsFirstFault words.now bytes.now fault) }

    // A text that is a plan is answered, and so is a first fault.
    ensures succeeds { (plan : plans.Plan) → IsPlanText words.now bytes.now plan →
        AnswersOk result plan }
    ensures refuses { (fault : faults.TextFault) → IsFirstFault words.now bytes.now fault →
        AnswersFault result fault }

    // Each step is a ground action of the vocabulary, and the steps are no more than the bytes.
    ensures fits { IfOk result (λ plan. All (IsGroundAction words.now) plan.steps) }
    ensures few { IfOk result (λ plan. length plan.steps ≤ length bytes.now) }
{
    read_text(alloc, bytes, words)
}
