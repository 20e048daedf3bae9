//! The pair of a case, grounded.

ghost use Rattle.std.specs.Prelude.{◌≡◌, [], IfSome};

use crate::cases::Cases;
use feature_diff::Pair;
use ground_core::{Ground, GroundStop, ground};
use model_kit::Model;
use pddl_read::{read_domain, read_problem};
use std::alloc::Global;

fn model_of(alloc: Global, domain: &str, problem: &str) -> Option<Model>
    ensures whole { IfSome result (λ model. model.unknown ≡ []) }
{
    if domain.len() >= 1 << 28 || problem.len() >= 1 << 28 {
        return None;
    }
    let domain = read_domain(alloc, domain.as_bytes()).ok()?;
    read_problem(alloc, problem.as_bytes(), &domain).ok()
}

/// The pair of the texts, where they are one.
pub fn pair_of(alloc: Global, texts: &Cases) -> Option<Pair> {
    let planner = model_of(alloc, texts.domain.as_str(), texts.problem.as_str())?;
    let user = model_of(
        alloc,
        texts.user_domain.as_str(),
        texts.user_problem.as_str(),
    )?;
    Pair::pair(alloc, planner, user).ok()
}

fn ground_of(alloc: Global, pair: &Pair) -> Option<Result<Ground, GroundStop>> {
    let differences = pair.differences(alloc).ok()?;
    Some(ground(alloc, pair, &differences))
}

/// The table of the pair of the texts, where they are one with at most 256 differences.
pub fn grounded(alloc: Global, texts: &Cases) -> Option<Result<Ground, GroundStop>> {
    ground_of(alloc, &pair_of(alloc, texts)?)
}
