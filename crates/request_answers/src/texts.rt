//! Reading the models and the plan of a request from their texts.

ghost use Rattle.std.specs.Prelude.{◌≡◌, ◌≤◌, ◌<◌, ◌^◌, [], length, map, All, IfOk, IfErr};
ghost use Rattle.model_kit.specs.Vocabulary.{IsGroundAction};
ghost use Rattle.mre_words.specs.Requests.{count_of};
ghost use Rattle.pddl_read.specs.Texts.{IsDomainText, IsProblemText, IsDomainFault, IsProblemFault};
ghost use Rattle.pddl_read.specs.Texts.{AreFew};
ghost use Rattle.request_answers.specs.Texts.{AreShort, text_at, has_plan as is_planned, AreModels};
ghost use Rattle.request_answers.specs.Texts.{IsPlanIn};
ghost use Rattle.request_answers.specs.Steps.{IsOfText, IsOfModels, IsOfPlanText};

use crate::AnswerStop;
use model_kit::{Model, Plan};
use mre_base::List;
use mre_words::Request;
use pddl_read::{Domain, read_domain, read_plan, read_problem};
use pddl_text::ReadStop;
use std::alloc::Global;

/// The place of the plan among the contents, counted from 0.
pub const PLAN_FILE: usize = 4;

/// The two models of the texts, each in the numbers of its own vocabulary.
#[derive(Debug, Drop)]
pub struct Models {
    pub planner: Model,
    pub user: Model,
}

/// The models of the first four contents: the planner's domain and problem, the user's domain and
/// problem.
pub fn read_models(alloc: Global, contents: &List<Vec<u8>>) -> Result<Models, AnswerStop>
    requires four { 4 ≤ length contents.now }
    requires short { AreShort (map (λ bytes. bytes.items) contents.now) }
    ensures ok { IfOk result (λ made. AreModels (map (λ bytes. bytes.items) contents.now)
        made.planner made.user) }
    ensures few { IfOk result (λ made. AreFew made.planner.words (2 ^ 30)) }
    ensures planner_whole { IfOk result (λ made. made.planner.unknown ≡ []) }
    ensures user_whole { IfOk result (λ made. made.user.unknown ≡ []) }
    ensures err { IfErr result (IsOfModels (map (λ bytes. bytes.items) contents.now)) }
{
    let domain = domain_at(alloc, contents, 0)?;
    let planner = model_at(alloc, contents, 1, &domain)?;
    let other = domain_at(alloc, contents, 2)?;
    let user = model_at(alloc, contents, 3, &other)?;
    Ok(Models { planner, user })
}

// The domain of the text at a place.
fn domain_at(alloc: Global, contents: &List<Vec<u8>>, place: usize) -> Result<Domain, AnswerStop>
    requires inside { place < length contents.now }
    requires short { AreShort (map (λ bytes. bytes.items) contents.now) }
    ensures ok { IfOk result (IsDomainText
        (text_at (map (λ bytes. bytes.items) contents.now) place)) }
    ensures few { IfOk result (λ domain. AreFew domain.words (2 ^ 29)) }
    ensures err { IfErr result (IsOfText place
        (IsDomainFault (text_at (map (λ bytes. bytes.items) contents.now) place))) }
{
    match read_domain(alloc, content(contents, place)) {
        Ok(domain) => Ok(domain),
        Err(ReadStop::Fault(fault)) => Err(AnswerStop::Misread { file: place, fault }),
        Err(ReadStop::NoMemory) => Err(AnswerStop::NoMemory),
    }
}

// The model of the domain and of the text at a place.
fn model_at(
    alloc: Global,
    contents: &List<Vec<u8>>,
    place: usize,
    domain: &Domain,
) -> Result<Model, AnswerStop>
    requires inside { place < length contents.now }
    requires short { AreShort (map (λ bytes. bytes.items) contents.now) }
    requires few { AreFew domain.now.words (2 ^ 29) }
    ensures ok { IfOk result (IsProblemText domain.now
        (text_at (map (λ bytes. bytes.items) contents.now) place)) }
    ensures few { IfOk result (λ model. AreFew model.words (2 ^ 30)) }
    ensures err { IfErr result (IsOfText place
        (IsProblemFault domain.now (text_at (map (λ bytes. bytes.items) contents.now) place))) }
{
    match read_problem(alloc, content(contents, place), domain) {
        Ok(model) => Ok(model),
        Err(ReadStop::Fault(fault)) => Err(AnswerStop::Misread { file: place, fault }),
        Err(ReadStop::NoMemory) => Err(AnswerStop::NoMemory),
    }
}

/// The plan of a request, in the numbers of the planner's vocabulary; a request without a plan has
/// the empty plan.
pub fn read_steps(
    alloc: Global,
    request: &Request,
    contents: &List<Vec<u8>>,
    planner: &Model,
) -> Result<Plan, AnswerStop>
    requires counted { length contents.now ≡ count_of request.now }
    requires short { AreShort (map (λ bytes. bytes.items) contents.now) }
    requires few { AreFew planner.now.words (2 ^ 30) }
    ensures ok { IfOk result (λ plan. IsPlanIn (is_planned request.now)
        (map (λ bytes. bytes.items) contents.now) planner.now plan.steps) }
    ensures fits { IfOk result (λ plan. All (IsGroundAction planner.now.words) plan.steps) }
    ensures err { IfErr result (IsOfPlanText request.now (map (λ bytes. bytes.items) contents.now)
        planner.now) }
{
    if !has_plan(request) {
        return Ok(Plan {
            steps: List::empty(alloc),
        });
    }
    match read_plan(alloc, content(contents, PLAN_FILE), &planner.words) {
        Ok(plan) => Ok(plan),
        Err(ReadStop::Fault(fault)) => Err(AnswerStop::Misread {
            file: PLAN_FILE,
            fault,
        }),
        Err(ReadStop::NoMemory) => Err(AnswerStop::NoMemory),
    }
}

/// Whether the request has a plan.
pub fn has_plan(request: &Request) -> bool
    ensures { result ≡ is_planned request.now }
{
    match request {
        Request::Explain { .. } | Request::Patch { .. } | Request::PlanPatch { .. } => true,
        Request::Diff { .. } => false,
    }
}

// The content at a place, counted from 0.
fn content(contents: &List<Vec<u8>>, place: usize) -> &[u8]
    requires inside { place < length contents.now }
    requires short { AreShort (map (λ bytes. bytes.items) contents.now) }
    ensures value { result.now ≡ text_at (map (λ bytes. bytes.items) contents.now) place }
    ensures short { length result.now ≤ 4194304 }
{
    contents.item(place).as_slice()
}
