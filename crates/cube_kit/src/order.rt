//! The order of sets of differences, computed.
ghost use Rattle.std.specs.Prelude.{ℕ, ◌≡◌, ◌≤◌, length, take};
ghost use Rattle.mre_base.specs.Before.{numbers, weight, is_earlier_list, is_before};
ghost use Rattle.cube_kit.specs.Cubes.{IsWithin};
ghost use Rattle.cube_kit.specs.Weighing.{AreWeights};

use crate::weights::Weights;
use mre_base::{MOST_PLACES, Places};

// The sum of the weights of a set's numbers.
pub fn sum_of(weights: &[u32], of: &Places) -> u64
    requires whole { length weights.now ≡ 256 }
    requires each { AreWeights weights.now }
    ensures { result ≡ weight weights.now (numbers (length weights.now) of.now) }
{
    let mut sum = 0;
    for place in 1..MOST_PLACES + 1 {
        if of.has(place) {
            sum += weights[place as usize - 1] as u64;
        }
    }
    sum
}

// Whether the first of two sets with equally many numbers from 1 to d has the earlier list, that
// is, whether it has the first number that only one of them has.
fn is_earlier(d: u32, one: &Places, two: &Places) -> bool
    requires few { d ≤ 256 }
    requires as_many { length (numbers d one.now) ≡ length (numbers d two.now) }
    ensures { result ≡ is_earlier_list (numbers d one.now) (numbers d two.now) }
{
    for place in 1..d + 1 {
        let has = one.has(place);
        if has != two.has(place) {
            return has;
        }
    }
    false
}

/// Whether the first set is before the second: by a smaller total weight, then by fewer numbers,
/// then by an earlier list.
pub fn is_before(weights: &Weights, one: &Places, two: &Places) -> bool
    ensures is { result ≡ is_before weights.now one.now two.now }
    ensures narrow { (d : ℕ) → d ≤ 256 → IsWithin d one.now → IsWithin d two.now →
        result ≡ is_before (take d weights.now) one.now two.now }
{
    let total_of_one = weights.total(one);
    let total_of_two = weights.total(two);
    if total_of_one != total_of_two {
        return total_of_one < total_of_two;
    }
    let many = one.count();
    let other = two.count();
    if many != other {
        return many < other;
    }
    is_earlier(weights.places(), one, two)
}
