//! The cases that a task of a cube takes.
ghost use Rattle.std.specs.Prelude.{◌≡◌, ◌+◌, ◌≤◌, ◌<◌, true, IsTrue, IfOk, All};
ghost use Rattle.task_kit.specs.Tasks.{set_of};
ghost use Rattle.case_kit.specs.Sound.{is_listed_in};
ghost use Rattle.case_kit.specs.Evaluated.{atoms_where, may_hold, must_hold, counts};

use crate::cases::{Case, When};
use crate::way::Way;
use cube_kit::Cube;
use mre_base::{Bits, List, NoMemory};
use std::alloc::Global;

// Whether the condition holds in some member of the cube.
fn may_hold(when: When, cube: &Cube) -> bool
    requires { IsTrue (is_listed_in 256 when) }
    ensures { result ≡ may_hold cube.now when }
{
    match when {
        When::Always => true,
        When::IfTold(place) => !cube.left.has(place),
        When::IfLeft(place) => !cube.told.has(place),
    }
}

// Whether the condition holds in every member of the cube.
fn must_hold(when: When, cube: &Cube) -> bool
    requires { IsTrue (is_listed_in 256 when) }
    ensures { result ≡ must_hold cube.now when }
{
    match when {
        When::Always => true,
        When::IfTold(place) => cube.told.has(place),
        When::IfLeft(place) => cube.left.has(place),
    }
}

/// Whether, under this condition, something that helps a list to be valid counts in the task of a
/// cube.
pub fn counts(when: When, cube: &Cube, way: Way) -> bool
    requires { IsTrue (is_listed_in 256 when) }
    ensures { result ≡ counts way cube.now when }
{
    match way {
        Way::Permissive => may_hold(when, cube),
        Way::Restrictive => must_hold(when, cube),
    }
}

/// The atoms of the cases that count, in their order.
pub fn atoms_by(
    alloc: Global,
    cases: &List<Case>,
    cube: &Cube,
    way: Way,
) -> Result<List<u32>, NoMemory>
    requires { All (λ case. is_listed_in 256 case.when ≡ true) cases.now }
    ensures { IfOk result (λ atoms. atoms ≡ atoms_where (counts way cube.now) cases.now) }
{
    let mut atoms = List::empty(alloc);
    for place in 0..cases.len() {
        let case = cases.item(place);
        if counts(case.when, cube, way) {
            atoms.push(case.atom)?;
        }
    }
    Ok(atoms)
}

/// The set of the atoms of the cases that count, as wide as the sets of a task with `atoms` atoms.
pub fn set_by(
    alloc: Global,
    atoms: u32,
    cases: &List<Case>,
    cube: &Cube,
    way: Way,
) -> Result<Bits, NoMemory>
    requires few { atoms ≤ 4096 }
    requires below { All (λ case. case.atom < atoms + 1) cases.now }
    requires listed { All (λ case. is_listed_in 256 case.when ≡ true) cases.now }
    ensures { IfOk result (λ bits. bits ≡ record {
      width = atoms + 1;
      members = set_of (atoms_where (counts way cube.now) cases.now);
    }) }
{
    let mut bits = Bits::empty(alloc, atoms + 1)?;
    for place in 0..cases.len() {
        let case = cases.item(place);
        if counts(case.when, cube, way) {
            bits.put(case.atom);
        }
    }
    Ok(bits)
}
