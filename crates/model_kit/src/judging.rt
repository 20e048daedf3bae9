//! Judging a plan in a model: valid with its cost, or the first thing that is wrong.

ghost use Rattle.std.specs.Prelude.{◌≡◌, ◌^◌, ◌<◌, length, All, IsTrue, IfOk, IfSome, IfNone};
ghost use Rattle.model_kit.specs.Vocabulary.{is_ground_atom, is_ground_action, IsGroundAction};
ghost use Rattle.model_kit.specs.Places.{meaning};
ghost use Rattle.model_kit.specs.Judgement.{Judges, IsFirstPrinted, NamesAtoms};
ghost use Rattle.model_kit.specs.Judging.{StateOf, IsTableOf, IsMissing, earlier_of, Steps};

use crate::state::{change, initial_state, instances};
use crate::values::{FunctionTerm, price, value_table};
use crate::{GroundAction, GroundAtom, Model, Plan, Vocabulary, print_atom};
use mre_base::{List, NoMemory, Text};
use std::alloc::Global;
use std::collections::{BTreeMap, BTreeSet};

/// The judgement of a plan in a model. Steps are counted from 1.
#[derive(Debug, Drop)]
pub enum NamedJudgement {
    /// Each step applies, the goal holds at the end, and the steps cost this much together.
    Valid { cost: u64 },
    /// The first step that doesn't apply, and the first precondition that it lacks, in ASCII order
    /// of the printed form.
    Fails { step: u32, atom: GroundAtom },
    /// The first step that doesn't apply: it has its preconditions and no cost.
    NoCost { step: u32 },
    /// All steps apply, and this is the first missing goal fact in ASCII order of the printed form.
    GoalMissing { atom: GroundAtom },
}

/// Judges a plan in a model.
pub fn judge_names(alloc: Global, model: &Model, plan: &Plan) -> Result<NamedJudgement, NoMemory>
    requires fits { All (IsGroundAction model.now.words) plan.now.steps }
    requires few { length plan.now.steps < 2 ^ 30 }
    ensures judged { IfOk result (Judges model.now.words (meaning model.now) plan.now.steps) }
    ensures fits { IfOk result (NamesAtoms model.now.words) }
    ensures only { IfOk result (λ judgement. (other : NamedJudgement)
        → Judges model.now.words (meaning model.now) plan.now.steps other → other ≡ judgement) }
{
    let values = value_table(alloc, &model.values)?;
    let mut state = initial_state(alloc, &model.init)?;
    let mut cost = 0u64;
    for place in 0..plan.steps.len() {
        let action = plan.steps.item(place);
        let step = place as u32 + 1;
        match take_step(alloc, model, &values, &mut state, action)? {
            Step::Taken { cost: more } => cost += u64::from(more),
            Step::Unmet { atom } => return Ok(NamedJudgement::Fails { step, atom }),
            Step::Unpriced => return Ok(NamedJudgement::NoCost { step }),
        }
    }
    match first_missing(alloc, &model.words, &state, &model.goal)? {
        Some(atom) => Ok(NamedJudgement::GoalMissing { atom }),
        None => Ok(NamedJudgement::Valid { cost }),
    }
}

// The outcome of one step.
#[derive(Drop)]
enum Step {
    Taken { cost: u32 },
    Unmet { atom: GroundAtom },
    Unpriced,
}

// Takes an action in a state, or says why it doesn't apply.
fn take_step(
    alloc: Global,
    model: &Model,
    values: &BTreeMap<FunctionTerm, u32>,
    state: &mut BTreeSet<GroundAtom>,
    action: &GroundAction,
) -> Result<Step, NoMemory>
    requires fits { IsTrue (is_ground_action model.now.words action.now) }
    requires table { IsTableOf model.now.values values.now }
    ensures ok { IfOk result (Steps model.now.words (meaning model.now) action.now state.old
        state.new) }
{
    let schema = model.schemas.item(action.schema as usize);
    let needed = instances(alloc, &schema.pre, &action.objects)?;
    if let Some(atom) = first_missing(alloc, &model.words, state, &needed)? {
        return Ok(Step::Unmet { atom });
    }
    match price(alloc, model, values, action)? {
        Some(cost) => {
            change(alloc, state, schema, &action.objects)?;
            Ok(Step::Taken { cost })
        }
        None => Ok(Step::Unpriced),
    }
}

// The atom that is printed first among those that the state lacks.
fn first_missing(
    alloc: Global,
    words: &Vocabulary,
    state: &BTreeSet<GroundAtom>,
    atoms: &List<GroundAtom>,
) -> Result<Option<GroundAtom>, NoMemory>
    requires { All (λ atom. IsTrue (is_ground_atom words.now atom)) atoms.now }
    ensures none { IfOk result (λ found. IfNone found (All (StateOf state.now) atoms.now)) }
    ensures first { IfOk result (λ found. IfSome found
        (IsFirstPrinted words.now (IsMissing atoms.now state.now))) }
{
    let mut best: Option<(usize, Text)> = None;
    for place in 0..atoms.len() {
        let atom = atoms.item(place);
        if state.contains(atom) {
            continue;
        }
        let text = print_atom(alloc, words, atom)?;
        best = earlier(best, place, text);
    }
    let Some((place, _)) = best else {
        return Ok(None);
    };
    let atom = atoms.item(place).copy(alloc)?;
    Ok(Some(atom))
}

// The place whose text comes first: the earliest so far, if there is one, or a further place.
fn earlier(best: Option<(usize, Text)>, place: usize, text: Text) -> Option<(usize, Text)>
    ensures { result ≡ earlier_of best place text }
{
    let Some((first, least)) = best else {
        return Some((place, text));
    };
    if text.as_str() < least.as_str() {
        Some((place, text))
    } else {
        Some((first, least))
    }
}
