//! Why a request has no answer.

ghost use Rattle.std.specs.Prelude.{◌≡◌};
ghost use Rattle.request_answers.specs.Lines.{status_of};

use ground_core::GroundStop;
use joint_models::PairFault;
use mre_base::{List, NoMemory, Text};
use pddl_text::TextFault;

/// Why a request has no answer. A `file` is the place of a content among those of the request,
/// counted from 0. If several causes apply, the first in this order is reported.
#[derive(Debug, Drop)]
pub enum AnswerStop {
    /// The content is an ill-formed text with this first fault, and the contents before it are
    /// well-formed texts.
    Misread {
        file: usize,
        fault: TextFault,
    },
    /// The models don't agree; this is the first disagreement.
    Disagree(PairFault),
    /// An action, a predicate or a function has this many parameters, more than the limit of 8.
    TooManyParameters {
        found: usize,
    },
    /// There are this many constants and objects, more than the limit of 1000.
    TooManyObjects {
        found: usize,
    },
    /// The models have this many differences, more than the limit of 256.
    TooManyDifferences {
        found: u32,
    },
    /// The plan has this many steps, more than the limit of 10000.
    TooManySteps {
        found: usize,
    },
    /// More than 50000 ground actions are reachable in the two models. If there are too many atoms
    /// too, either of the two stops may be reported.
    TooManyActions,
    /// More than 4096 ground atoms are reachable in the two models.
    TooManyAtoms,
    /// The plan isn't valid in the planner's model.
    NotValid(PlanFault),
    /// In the planner's model the list of these printed steps is a cheapest plan and costs `other`,
    /// which is less than the plan's cost.
    NotCheapest {
        cost: u64,
        other: u64,
        steps: List<Text>,
    },
    /// There are more than 16 differences, too many to try every set of them.
    Unbuilt,
    /// Memory ran out.
    NoMemory,
}

/// Why a plan isn't valid. Steps are counted from 1, and an atom is in its printed form.
#[derive(Debug, Drop)]
pub enum PlanFault {
    /// The first step that doesn't apply, and the first precondition that it lacks.
    StepNeeds { step: u32, atom: Text },
    /// The first step that doesn't apply: it has no cost.
    StepHasNoCost { step: u32 },
    /// Each step applies, and this goal fact is the first that is missing at the end.
    EndsWithout { atom: Text },
}

impl From<NoMemory> for AnswerStop {
    ghost use Rattle.std.specs.Prelude.{◌≡◌};
    ghost use Rattle.request_answers.specs.declared.stop.AnswerStop.TheVariants.{NoMemory};

    ghost from_gives = { λ _ stop. stop ≡ NoMemory };

    fn from(_failure: NoMemory) -> AnswerStop {
        AnswerStop::NoMemory
    }
}

impl From<GroundStop> for AnswerStop {
    ghost use Rattle.std.specs.Prelude.{◌≡◌};
    ghost use Rattle.request_answers.specs.Steps.{stop_of};

    ghost from_gives = { λ given stop. stop ≡ stop_of given };

    fn from(given: GroundStop) -> AnswerStop {
        match given {
            GroundStop::TooManyActions { limit: _ } => AnswerStop::TooManyActions,
            GroundStop::TooManyAtoms { limit: _ } => AnswerStop::TooManyAtoms,
            GroundStop::NoMemory => AnswerStop::NoMemory,
        }
    }
}

impl AnswerStop {
    /// The status with which the program ends.
    pub fn status(&self) -> u8
        ensures { result ≡ status_of self.now }
    {
        match self {
            AnswerStop::Misread { file: _, fault: _ } | AnswerStop::Unbuilt => 5,
            AnswerStop::Disagree(_) => 6,
            AnswerStop::TooManyParameters { found: _ }
            | AnswerStop::TooManyObjects { found: _ }
            | AnswerStop::TooManyDifferences { found: _ }
            | AnswerStop::TooManySteps { found: _ }
            | AnswerStop::TooManyActions
            | AnswerStop::TooManyAtoms => 7,
            AnswerStop::NoMemory => 9,
            AnswerStop::NotValid(_) => 10,
            AnswerStop::NotCheapest { .. } => 11,
        }
    }
}
