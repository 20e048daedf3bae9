//! The counts of a question, against their limits.

ghost use Rattle.std.specs.Prelude.{◌≡◌, max, IfOk, IfErr, OnOk};
ghost use Rattle.request_answers.specs.Counts.{AreWithinLimits, AreSmall, most_of as most_in};
ghost use Rattle.request_answers.specs.Counts.{most_parameters as most_in_words};
ghost use Rattle.request_answers.specs.Steps.{IsOfCounts, IsOfWords};

use crate::AnswerStop;
use feature_diff::{DiffStop, Difference, Pair};
use model_kit::{Plan, Signature, Vocabulary};
use mre_base::List;
use std::alloc::Global;

/// The largest number of parameters of an action, a predicate or a function.
const PARAMETER_LIMIT: usize = 8;

/// The largest number of constants and objects.
const OBJECT_LIMIT: usize = 1000;

/// The largest number of steps of a plan.
const STEP_LIMIT: usize = 10_000;

/// All differences of the pair, if no count is past its limit. The order of the counts: parameters,
/// objects, differences, steps.
pub fn count(alloc: Global, pair: &Pair, plan: &Plan) -> Result<List<Difference>, AnswerStop>
    ensures ok { IfOk result (AreWithinLimits pair.now.planner pair.now.user plan.now.steps) }
    ensures err { IfErr result (IsOfCounts pair.now.planner pair.now.user plan.now.steps) }
{
    measure(pair.words())?;
    match pair.differences(alloc) {
        Ok(differences) => {
            let found = plan.steps.len();
            if found > STEP_LIMIT {
                return Err(AnswerStop::TooManySteps { found });
            }
            Ok(differences)
        }
        Err(DiffStop::TooMany { found, limit: _ }) => {
            Err(AnswerStop::TooManyDifferences { found })
        }
        Err(DiffStop::NoMemory) => Err(AnswerStop::NoMemory),
    }
}

// Passes if the parameters and the objects are within their limits.
fn measure(words: &Vocabulary) -> Result<(), AnswerStop>
    ensures ok { OnOk result (AreSmall words.now) }
    ensures err { IfErr result (IsOfWords words.now) }
{
    let found = most_parameters(words);
    if found > PARAMETER_LIMIT {
        return Err(AnswerStop::TooManyParameters { found });
    }
    let found = words.objects.len();
    if found > OBJECT_LIMIT {
        return Err(AnswerStop::TooManyObjects { found });
    }
    Ok(())
}

// The largest number of parameters of an action, a predicate or a function.
fn most_parameters(words: &Vocabulary) -> usize
    ensures { result ≡ most_in_words words.now }
{
    let most = larger(most_of(&words.predicates), most_of(&words.functions));
    larger(most_of(&words.actions), most)
}

// The largest number of parameters of one of these.
fn most_of(signatures: &List<Signature>) -> usize
    ensures { result ≡ most_in signatures.now }
{
    let mut most = 0;
    for place in 0..signatures.len() {
        most = larger(most, signatures.item(place).params.len());
    }
    most
}

fn larger(one: usize, two: usize) -> usize
    ensures { result ≡ max one two }
{
    if one < two { two } else { one }
}
