//! The costs in the tasks of a cube.
ghost use Rattle.std.specs.Prelude.{◌≡◌, ◌^◌, ◌<◌, IsTrue, unwrap_or};
ghost use Rattle.case_kit.specs.Sound.{is_listed_in, is_value_listed, is_cost_listed};
ghost use Rattle.case_kit.specs.Evaluated.{least_of, greatest_of, best_of, value_by, cost_by};
ghost use Rattle.case_kit.specs.Evaluated.{known_cost_by};

use crate::action::CaseAction;
use crate::costs::{CaseCost, CaseValue};
use crate::taking::counts;
use crate::way::Way;
use cube_kit::Cube;

// The lesser of two costs; an absent one is above every number.
fn least_of(one: Option<u32>, other: Option<u32>) -> Option<u32>
    ensures { result ≡ least_of one other }
{
    match (one, other) {
        (Some(a), Some(b)) => Some(a.min(b)),
        (Some(a), None) => Some(a),
        (None, _) => other,
    }
}

// The greater of two costs; an absent one is above every number.
fn greatest_of(one: Option<u32>, other: Option<u32>) -> Option<u32>
    ensures { result ≡ greatest_of one other }
{
    match (one, other) {
        (Some(a), Some(b)) => Some(a.max(b)),
        (Some(_), None) => None,
        (None, _) => None,
    }
}

fn best_of(way: Way, one: Option<u32>, other: Option<u32>) -> Option<u32>
    ensures { result ≡ best_of way one other }
{
    match way {
        Way::Permissive => least_of(one, other),
        Way::Restrictive => greatest_of(one, other),
    }
}

fn value_by(value: CaseValue, cube: &Cube, way: Way) -> Option<u32>
    requires { IsTrue (is_value_listed 256 value) }
    ensures { result ≡ value_by way cube.now value }
{
    match value {
        CaseValue::One(value) => value,
        CaseValue::Two { place, told, left } => {
            if cube.told.has(place) {
                told
            } else if cube.left.has(place) {
                left
            } else {
                best_of(way, told, left)
            }
        }
    }
}

fn cost_by(cost: CaseCost, cube: &Cube, way: Way) -> Option<u32>
    requires { IsTrue (is_cost_listed 256 cost) }
    ensures { result ≡ cost_by way cube.now cost }
{
    match cost {
        CaseCost::One(value) => value_by(value, cube, way),
        CaseCost::Two { place, told, left } => {
            if cube.told.has(place) {
                value_by(told, cube, way)
            } else if cube.left.has(place) {
                value_by(left, cube, way)
            } else {
                best_of(way, value_by(told, cube, way), value_by(left, cube, way))
            }
        }
    }
}

/// The cost of an action in a task of a cube. It has no cost if it doesn't count as known.
pub fn known_cost_by(action: &CaseAction, cube: &Cube, way: Way) -> Option<u32>
    requires known { IsTrue (is_listed_in 256 action.now.known) }
    requires cost { IsTrue (is_cost_listed 256 action.now.cost) }
    ensures is { result ≡ known_cost_by way cube.now action.now }
    ensures fits { unwrap_or result 0 < 2 ^ 32 }
{
    if counts(action.known, cube, way) {
        Some(cost_by(action.cost, cube, way)?)
    } else {
        None
    }
}
