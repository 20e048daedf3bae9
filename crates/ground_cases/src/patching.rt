//! The user's model of a case after its first differences are told.

ghost use Rattle.std.specs.Prelude.{◌≡◌, ◌≤◌, length};
ghost use Rattle.cube_kit.specs.Cubes.{all_to};
ghost use Rattle.feature_diff.specs.Differing.{AreDifferencesOf};

use crate::cases::Cases;
use crate::grounding::pair_of;
use cube_kit::Cube;
use feature_diff::{Difference, Pair};
use model_lines::model_text;
use mre_base::{List, NoMemory, Places};
use std::alloc::Global;

// The numbers from 1 to a count.
fn first_places(count: u32) -> Places
    requires { count ≤ 256 }
    ensures { result ≡ all_to count }
{
    Cube::root(count).undecided
}

// The lines of the user's model after the first differences, this many or all, are told.
fn lines_after(
    alloc: Global,
    pair: &Pair,
    differences: &List<Difference>,
    count: u32,
) -> Result<String, NoMemory>
    requires all { AreDifferencesOf pair.now.planner pair.now.user differences.now }
    requires few { length differences.now ≤ 256 }
{
    let all = differences.len() as u32;
    let told = first_places(count.min(all));
    model_text(alloc, &pair.patched(alloc, &told)?)
}

/// The lines of the user's model of the texts after the first differences, this many or all, are
/// told, where the texts are a pair with at most 256 differences.
pub fn patched_lines(alloc: Global, texts: &Cases, count: u32) -> Result<String, NoMemory> {
    let Some(pair) = pair_of(alloc, texts) else {
        return Ok(String::from_str(alloc, "no pair\n")?);
    };
    match pair.differences(alloc) {
        Ok(differences) => lines_after(alloc, &pair, &differences, count),
        Err(_) => Ok(String::from_str(alloc, "many differences\n")?),
    }
}
