//! The answer to a request about the contents of its files.

ghost use Rattle.std.specs.Prelude.{◌≡◌, length, map, All, IfOk, IfErr, OnOk};
ghost use Rattle.std.specs.List.{concat};
ghost use Rattle.model_kit.specs.Vocabulary.{IsGroundAction};
ghost use Rattle.model_kit.specs.Places.{meaning};
ghost use Rattle.model_kit.specs.Runs.{IsValid};
ghost use Rattle.mre_words.specs.Requests.{count_of};
ghost use Rattle.request_answers.specs.Causes.{IsDue};
ghost use Rattle.request_answers.specs.Counts.{AreWithinLimits};
ghost use Rattle.request_answers.specs.Lines.{IsOfFile, IsLine};
ghost use Rattle.request_answers.specs.Making.{task_in, IsMade, IsOfMaking, IsMadeOf};
ghost use Rattle.request_answers.specs.Making.{IsOfAnswering};
ghost use Rattle.request_answers.specs.Outputs.{IsAnswer, AsksMce, listing};
ghost use Rattle.request_answers.specs.Steps.{IsOfPlan};
ghost use Rattle.request_answers.specs.Texts.{AreShort};

use crate::AnswerStop;
use crate::choosing::all_of;
use crate::counting::count;
use crate::explaining::explain;
use crate::judging::judge;
use crate::listing::list;
use crate::question::{Question, read_question};
use feature_diff::Difference;
use mre_base::{List, Places, Text};
use mre_words::Request;
use plan_uses::plan_uses;
use std::alloc::Global;

/// An answer: its printed lines, and the differences in them.
#[derive(Debug, Drop)]
pub struct Made {
    /// The told differences of an explanation, or the chosen differences of a list.
    pub told: Places,
    /// The lines, each with its line feed.
    pub lines: List<Text>,
}

/// The answer to a request about files with these contents, which are in the order of its names, or
/// why there isn't one. A request for an explanation is for an MCE.
pub fn answer_texts(
    alloc: Global,
    request: &Request,
    contents: &List<Vec<u8>>,
) -> Result<Made, AnswerStop>
    requires counted { length contents.now ≡ count_of request.now }
    requires short { AreShort (map (λ bytes. bytes.items) contents.now) }
    requires mce { AsksMce request.now }
    ensures ok { IfOk result (λ made. IsAnswer request.now (map (λ bytes. bytes.items) contents.now)
        made.told (concat made.lines)) }
    ensures whole { IfOk result (λ made. All IsLine made.lines) }
    ensures err { IfErr result (IsDue request.now (map (λ bytes. bytes.items) contents.now)) }
    ensures of_file { IfErr result (IsOfFile (count_of request.now)) }
{
    let question = read_question(alloc, request, contents)?;
    answer_question(alloc, request, &question)
}

// The answer to a question.
fn answer_question(
    alloc: Global,
    request: &Request,
    question: &Question,
) -> Result<Made, AnswerStop>
    requires mce { AsksMce request.now }
    requires fits { All (IsGroundAction question.now.pair.planner.words) question.now.plan.steps }
    ensures ok { IfOk result (λ made. IsMadeOf request.now question.now made.told
        (concat made.lines)) }
    ensures whole { IfOk result (λ made. All IsLine made.lines) }
    ensures err { IfErr result (IsOfAnswering request.now question.now) }
{
    let differences = count(alloc, &question.pair, &question.plan)?;
    answer_counted(alloc, request, question, &differences)
}

// The answer to a question with these differences, of which no count is past its limit.
fn answer_counted(
    alloc: Global,
    request: &Request,
    question: &Question,
    differences: &List<Difference>,
) -> Result<Made, AnswerStop>
    requires mce { AsksMce request.now }
    requires limits { AreWithinLimits question.now.pair.planner question.now.pair.user
        question.now.plan.steps differences.now }
    requires fits { All (IsGroundAction question.now.pair.planner.words) question.now.plan.steps }
    ensures ok { IfOk result (λ made. IsMade request.now question.now differences.now made.told
        (concat made.lines)) }
    ensures whole { IfOk result (λ made. All IsLine made.lines) }
    ensures err { IfErr result (IsOfMaking request.now question.now differences.now) }
{
    match request {
        Request::Explain { .. } => explain(alloc, question, differences),
        Request::Diff { .. } => {
            let all = all_of(differences.len());
            Ok(list(alloc, request, question, differences, all)?)
        }
        Request::Patch { .. } => {
            let all = all_of(differences.len());
            list_valid(alloc, request, question, differences, all)
        }
        Request::PlanPatch { .. } => {
            let used = plan_uses(&question.plan, differences);
            list_valid(alloc, request, question, differences, used)
        }
    }
}

// The list of the chosen differences, if the plan is valid in the planner's model.
fn list_valid(
    alloc: Global,
    request: &Request,
    question: &Question,
    differences: &List<Difference>,
    chosen: Places,
) -> Result<Made, AnswerStop>
    requires limits { AreWithinLimits question.now.pair.planner question.now.pair.user
        question.now.plan.steps differences.now }
    requires fits { All (IsGroundAction question.now.pair.planner.words) question.now.plan.steps }
    ensures valid { OnOk result (IsValid (meaning question.now.pair.planner)
        question.now.plan.steps) }
    ensures told { IfOk result (λ made. made.told ≡ chosen) }
    ensures lines { IfOk result (λ made. concat made.lines ≡ listing request.now
        (task_in question.now differences.now) chosen) }
    ensures whole { IfOk result (λ made. All IsLine made.lines) }
    ensures err { IfErr result (IsOfPlan question.now.pair.planner.words
        (meaning question.now.pair.planner)
        question.now.plan.steps) }
{
    judge(alloc, question.pair.planner(), &question.plan)?;
    Ok(list(alloc, request, question, differences, chosen)?)
}
