//! The set of all differences.

ghost use Rattle.std.specs.Prelude.{◌≤◌};
ghost use Rattle.request_answers.specs.Outputs.{AreAll};

use cube_kit::Cube;
use mre_base::Places;

/// The set of all numbers from 1 to a count.
pub fn all_of(count: usize) -> Places
    requires { count ≤ 256 }
    ensures { AreAll count result }
{
    Cube::root(count as u32).undecided
}
