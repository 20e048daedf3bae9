//! Features of two models with the condition under which each is there.

ghost use Rattle.std.specs.Prelude.{◌≡◌, ◌≤◌, map, length, IfOk};
ghost use Rattle.model_kit.specs.Differences.{number_from};
ghost use Rattle.feature_diff.specs.Differing.{places_of};
ghost use Rattle.pair_tables.specs.Featured.{planner_when, planner_feature, features};

use case_kit::When;
use feature_diff::{Difference, Spot, place_at};
use mre_base::{List, NoMemory};
use std::alloc::Global;

/// The number of the difference at a place of a model, where there is one.
pub(crate) fn number_at<K, T: Spot<K>>(
    item: &T,
    kind: &K,
    differences: &List<Difference>,
) -> Option<u32>
    requires few { length differences.now ≤ 256 }
    ensures { result ≡ number_from 1 (places_of differences.now) (T.place kind.now item.now) }
{
    match place_at(item, kind, differences) {
        Some(place) => Some(place as u32 + 1),
        None => None,
    }
}

// When a feature of the planner's model is there, by the number of the difference on it.
fn planner_when(number: Option<u32>) -> When
    ensures { result ≡ planner_when number }
{
    match number {
        Some(number) => When::IfTold(number),
        None => When::Always,
    }
}

fn planner_features<K, T: Spot<K>>(
    alloc: Global,
    kind: &K,
    planner: &List<T>,
    differences: &List<Difference>,
) -> Result<List<(T, When)>, NoMemory>
    requires few { length differences.now ≤ 256 }
    ensures { IfOk result (λ made. made
        ≡ map (planner_feature (λ item. number_from 1 (places_of differences.now)
        (T.place kind.now item))) planner.now) }
{
    let mut made = List::empty(alloc);
    for place in 0..planner.len() {
        let item = planner.item(place);
        let when = planner_when(number_at(item, kind, differences));
        made.push((item.copied(alloc)?, when))?;
    }
    Ok(made)
}

/// The features of the planner's list, and after them those that only the user's list has.
pub(crate) fn features_of<K, T: Spot<K>>(
    alloc: Global,
    kind: &K,
    planner: &List<T>,
    user: &List<T>,
    differences: &List<Difference>,
) -> Result<List<(T, When)>, NoMemory>
    requires few { length differences.now ≤ 256 }
    ensures { IfOk result (λ made. made
        ≡ features (λ item. number_from 1 (places_of differences.now) (T.place kind.now item))
        planner.now user.now) }
{
    let mut made = planner_features(alloc, kind, planner, differences)?;
    for place in 0..user.len() {
        let item = user.item(place);
        if let Some(number) = number_at(item, kind, differences) {
            made.push((item.copied(alloc)?, When::IfLeft(number)))?;
        }
    }
    Ok(made)
}
