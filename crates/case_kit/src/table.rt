//! A case table: two models in one table on numbers.

ghost use Rattle.std.specs.Prelude.{◌≡◌, ◌<◌, length, IfOk};
ghost use Rattle.task_kit.specs.Kept.{action_meaning};
ghost use Rattle.task_kit.specs.Tasks.{IsAction, as_bits, action_at, cost_at};
ghost use Rattle.cube_kit.specs.Cubes.{IsCube};
ghost use Rattle.case_kit.specs.Sound.{IsCaseTable};

use crate::action::CaseAction;
use crate::cases::Case;
use crate::pricing::known_cost_by;
use crate::taking::{atoms_by, set_by};
use crate::way::Way;
use cube_kit::Cube;
use mre_base::{Bits, Copied, List, NoMemory};
use std::alloc::Global;
use task_kit::{Task, TaskAction};

/// The tasks of all sets of the differences 1 to `d`. Each condition and each cost depends on the
/// told set. Atoms count from 0, and `atoms` means whatever can never be true.
#[derive(Debug)]
pub struct CaseTable {
    pub d: u32,
    pub atoms: u32,
    pub start: List<Case>,
    pub goal: List<Case>,
    pub actions: List<CaseAction>,
    pub ghost sound: { IsCaseTable d atoms start goal actions },
}

impl Drop for CaseTable {
    fn drop(self) {
        let CaseTable {
            d: _,
            atoms: _,
            start: _,
            goal: _,
            actions: _,
        } = self;
    }
}

impl CaseTable {
    ghost use Rattle.std.specs.Prelude.{map, All};
    ghost use Rattle.case_kit.specs.Members.{member};
    ghost use Rattle.case_kit.specs.Relaxed.{IsPermissive, IsRestrictive, IsLeastCost};
    ghost use Rattle.case_kit.specs.Relaxed.{IsGreatestCost};
    ghost use Rattle.case_kit.specs.Evaluated.{meant, permissive, restrictive, relaxed};

    pub fn copy(&self, alloc: Global) -> Result<CaseTable, NoMemory>
        ensures { IfOk result (λ made. made ≡ self.now) }
    {
        Ok(CaseTable {
            d: self.d,
            atoms: self.atoms,
            start: self.start.copied(alloc)?,
            goal: self.goal.copied(alloc)?,
            actions: self.actions.copied(alloc)?,
        })
    }

    /// The task with all that may help and nothing that may hinder: each list that is valid in some
    /// member of the cube is valid here, at no greater cost.
    pub fn permissive(&self, alloc: Global, cube: &Cube) -> Result<Task, NoMemory>
        requires cube { IsCube self.now.d cube.now }
        ensures permissive { IfOk result (λ task. IsPermissive self.now cube.now (meant task)) }
        ensures is { IfOk result (λ task. meant task ≡ permissive self.now cube.now) }
    {
        Ok(self.task_by(alloc, cube, Way::Permissive)?)
    }

    /// The task with all that may hinder and nothing that may help: each list that is valid here is
    /// valid in every member of the cube, at no greater cost.
    pub fn restrictive(&self, alloc: Global, cube: &Cube) -> Result<Task, NoMemory>
        requires cube { IsCube self.now.d cube.now }
        ensures restrictive { IfOk result (λ task. IsRestrictive self.now cube.now (meant task)) }
        ensures is { IfOk result (λ task. meant task ≡ restrictive self.now cube.now) }
    {
        Ok(self.task_by(alloc, cube, Way::Restrictive)?)
    }

    /// The least cost of an action over the members of the cube in which it has a cost.
    pub fn low(&self, action: u32, cube: &Cube) -> Option<u32>
        requires action { action < length self.now.actions }
        requires cube { IsCube self.now.d cube.now }
        ensures least { IsLeastCost cube.now
            (λ told. cost_at (member self.now told) action) result }
        ensures is { result ≡ cost_at (permissive self.now cube.now) action }
    {
        self.cost_by(action, cube, Way::Permissive)
    }

    /// The greatest cost of an action over the members of the cube, or `None` if it has no cost in
    /// some member.
    pub fn high(&self, action: u32, cube: &Cube) -> Option<u32>
        requires action { action < length self.now.actions }
        requires cube { IsCube self.now.d cube.now }
        ensures greatest { IsGreatestCost cube.now
            (λ told. cost_at (member self.now told) action) result }
        ensures is { result ≡ cost_at (restrictive self.now cube.now) action }
    {
        self.cost_by(action, cube, Way::Restrictive)
    }

    /// One of the two tasks of a cube.
    pub fn task_by(&self, alloc: Global, cube: &Cube, way: Way) -> Result<Task, NoMemory>
        ensures { IfOk result (λ task. meant task ≡ relaxed way self.now cube.now) }
    {
        Ok(Task {
            atoms: self.atoms,
            start: self.start_by(alloc, cube, way)?,
            goal: self.goal_by(alloc, cube, way)?,
            actions: self.actions_by(alloc, cube, way)?,
        })
    }

    /// The start of one of the two tasks.
    pub fn start_by(&self, alloc: Global, cube: &Cube, way: Way) -> Result<Bits, NoMemory>
        ensures { IfOk result (λ bits. bits ≡ as_bits (relaxed way self.now cube.now)
            (relaxed way self.now cube.now).start) }
    {
        Ok(set_by(alloc, self.atoms, &self.start, cube, way)?)
    }

    /// The goal of one of the two tasks.
    pub fn goal_by(&self, alloc: Global, cube: &Cube, way: Way) -> Result<Bits, NoMemory>
        ensures { IfOk result (λ bits. bits ≡ as_bits (relaxed way self.now cube.now)
            (relaxed way self.now cube.now).goal) }
    {
        Ok(set_by(alloc, self.atoms, &self.goal, cube, way.opposite())?)
    }

    /// The cost of an action in one of the two tasks.
    pub fn cost_by(&self, action: u32, cube: &Cube, way: Way) -> Option<u32>
        requires { action < length self.now.actions }
        ensures { result ≡ cost_at (relaxed way self.now cube.now) action }
    {
        known_cost_by(self.actions.item(action as usize), cube, way)
    }

    /// An action of one of the two tasks.
    pub fn action_by(
        &self,
        alloc: Global,
        action: u32,
        cube: &Cube,
        way: Way,
    ) -> Result<TaskAction, NoMemory>
        requires { action < length self.now.actions }
        ensures is { IfOk result (λ made.
            action_meaning made ≡ action_at (relaxed way self.now cube.now) action) }
        ensures in_range { IfOk result (λ made. IsAction self.now.atoms (action_meaning made)) }
    {
        let cases = self.actions.item(action as usize);
        let against = way.opposite();
        Ok(TaskAction {
            pre: atoms_by(alloc, &cases.pre, cube, against)?,
            add: atoms_by(alloc, &cases.add, cube, way)?,
            del: atoms_by(alloc, &cases.del, cube, against)?,
            cost: known_cost_by(cases, cube, way),
        })
    }

    // The actions of one of the two tasks.
    fn actions_by(&self, alloc: Global, cube: &Cube, way: Way) -> Result<List<TaskAction>, NoMemory>
        ensures is { IfOk result (λ made.
            map action_meaning made ≡ (relaxed way self.now cube.now).actions) }
        ensures in_range { IfOk result
            (All (λ action. IsAction self.now.atoms (action_meaning action))) }
    {
        let mut made = List::empty(alloc);
        for place in 0..self.actions.len() {
            made.push(self.action_by(alloc, place as u32, cube, way)?)?;
        }
        Ok(made)
    }
}
