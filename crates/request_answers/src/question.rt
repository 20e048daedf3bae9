//! The question that the contents of a request's files ask.

ghost use Rattle.std.specs.Prelude.{◌≡◌, ◌<◌, ◌^◌, [], length, map, IfOk, IfErr};
ghost use Rattle.mre_words.specs.Requests.{count_of};
ghost use Rattle.pddl_read.specs.Texts.{AreFew};
ghost use Rattle.request_answers.specs.Texts.{AreShort, AreModels};
ghost use Rattle.request_answers.specs.Posing.{AreTexts, IsQuestion, IsJoined};
ghost use Rattle.request_answers.specs.Steps.{IsOfQuestion, IsOfPlanText, IsOfPairing};

use crate::AnswerStop;
use crate::texts::{Models, read_models, read_steps};
use feature_diff::{Pair, PairStop};
use model_kit::Plan;
use mre_base::List;
use mre_words::Request;
use std::alloc::Global;

/// The question that the contents of a request's files ask.
#[derive(Debug, Drop)]
pub struct Question {
    /// The two models in the numbers of their joint vocabulary.
    pub pair: Pair,
    /// The plan, in the same numbers; a request without a plan has the empty plan.
    pub plan: Plan,
}

/// The two models and the plan of the texts.
#[derive(Debug, Drop)]
pub struct Texts {
    pub models: Models,
    pub plan: Plan,
}

/// The question of the contents: the planner's domain and problem, the user's domain and problem,
/// and the plan if the request has one.
pub fn read_question(
    alloc: Global,
    request: &Request,
    contents: &List<Vec<u8>>,
) -> Result<Question, AnswerStop>
    requires counted { length contents.now ≡ count_of request.now }
    requires short { AreShort (map (λ bytes. bytes.items) contents.now) }
    ensures ok { IfOk result (IsQuestion request.now (map (λ bytes. bytes.items) contents.now)) }
    ensures err { IfErr result (IsOfQuestion request.now
        (map (λ bytes. bytes.items) contents.now)) }
{
    let texts = read_texts(alloc, request, contents)?;
    join_texts(alloc, texts)
}

// The models and the plan.
fn read_texts(
    alloc: Global,
    request: &Request,
    contents: &List<Vec<u8>>,
) -> Result<Texts, AnswerStop>
    requires counted { length contents.now ≡ count_of request.now }
    requires short { AreShort (map (λ bytes. bytes.items) contents.now) }
    ensures ok { IfOk result (AreTexts request.now (map (λ bytes. bytes.items) contents.now)) }
    ensures err { IfErr result (IsOfQuestion request.now
        (map (λ bytes. bytes.items) contents.now)) }
{
    let models = read_models(alloc, contents)?;
    with_plan(alloc, request, contents, models)
}

// The models and the plan, whose text is still to be read.
fn with_plan(
    alloc: Global,
    request: &Request,
    contents: &List<Vec<u8>>,
    models: Models,
) -> Result<Texts, AnswerStop>
    requires counted { length contents.now ≡ count_of request.now }
    requires short { AreShort (map (λ bytes. bytes.items) contents.now) }
    requires models { AreModels (map (λ bytes. bytes.items) contents.now) models.planner
        models.user }
    requires few { AreFew models.planner.words (2 ^ 30) }
    requires planner_whole { models.planner.unknown ≡ [] }
    requires user_whole { models.user.unknown ≡ [] }
    ensures ok { IfOk result (AreTexts request.now (map (λ bytes. bytes.items) contents.now)) }
    ensures err { IfErr result (IsOfPlanText request.now (map (λ bytes. bytes.items) contents.now)
        models.planner) }
{
    let plan = read_steps(alloc, request, contents, &models.planner)?;
    Ok(Texts { models, plan })
}

// The question of the models and the plan.
fn join_texts(alloc: Global, texts: Texts) -> Result<Question, AnswerStop>
    requires planner_whole { texts.models.planner.unknown ≡ [] }
    requires user_whole { texts.models.user.unknown ≡ [] }
    ensures ok { IfOk result (IsJoined texts) }
    ensures err { IfErr result (IsOfPairing texts.models.planner.words texts.models.user.words) }
{
    let Texts { models, plan } = texts;
    let Models { planner, user } = models;
    match Pair::pair(alloc, planner, user) {
        Ok(pair) => Ok(Question { pair, plan }),
        Err(PairStop::Differs(fault)) => Err(AnswerStop::Disagree(fault)),
        Err(PairStop::NoMemory) => Err(AnswerStop::NoMemory),
    }
}
