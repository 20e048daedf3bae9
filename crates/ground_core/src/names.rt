//! The printed forms of listed atoms and ground actions, and the numbers of plans.

ghost use Rattle.std.specs.Prelude.{◌≡◌, ◌<◌, length, slice_get, Some, Contains, MatchOption, IfOk};
ghost use Rattle.ground_core.specs.Names.{AreNames, AreNamed, IsUnlisted, AreListed};
ghost use Rattle.ground_core.specs.Names.{AreFound, IsPlaceOf};

use model_kit::{GroundAction, Plan, Vocabulary, is_ground_action, print_action};
use mre_base::{List, NoMemory, Text};
use std::alloc::Global;

/// The printed forms of the atoms and of the ground actions of a table, by their numbers, which are
/// those of ASCII order.
pub struct NameTable {
    pub(crate) atoms: Vec<Text>,
    pub(crate) actions: Vec<Text>,
    pub ghost sound: { AreNames atoms.items actions.items },
}

impl Drop for NameTable {
    fn drop(self) {
        let NameTable {
            atoms: _,
            actions: _,
        } = self;
    }
}

impl NameTable {
    /// The number of atoms.
    pub fn atom_count(&self) -> u32
        ensures { result ≡ length self.now.atoms.items }
    {
        self.atoms.len() as u32
    }

    /// The number of ground actions.
    pub fn action_count(&self) -> u32
        ensures { result ≡ length self.now.actions.items }
    {
        self.actions.len() as u32
    }

    /// The printed form of an atom.
    pub fn atom(&self, number: u32) -> &Text
        requires { number < length self.now.atoms.items }
        ensures { slice_get self.now.atoms.items number ≡ Some result.now }
    {
        &self.atoms[number as usize]
    }

    /// The printed form of a ground action.
    pub fn action(&self, number: u32) -> &Text
        requires { number < length self.now.actions.items }
        ensures { slice_get self.now.actions.items number ≡ Some result.now }
    {
        &self.actions[number as usize]
    }

    // The number of the ground action with a printed form.
    fn find_action(&self, name: &Text) -> Option<u32>
        ensures { MatchOption result (¬ Contains self.now.actions.items name.now)
            (λ number. slice_get self.now.actions.items number ≡ Some name.now) }
    {
        match self.actions.binary_search(name) {
            Ok(place) => Some(place as u32),
            Err(_) => None,
        }
    }

    // The number of a step, or none exactly where it is no ground action or isn't listed.
    fn find_step(
        &self,
        alloc: Global,
        words: &Vocabulary,
        step: &GroundAction,
    ) -> Result<Option<u32>, NoMemory>
        ensures ok { IfOk result (IsPlaceOf words.now self.now.actions.items step.now) }
    {
        if !is_ground_action(words, step) {
            return Ok(None);
        }
        let name = print_action(alloc, words, step)?;
        Ok(self.find_action(&name))
    }

    /// The numbers of a plan's steps, or none exactly where a step is no ground action of the
    /// vocabulary or isn't listed.
    pub fn find_plan(
        &self,
        alloc: Global,
        words: &Vocabulary,
        plan: &Plan,
    ) -> Result<Option<List<u32>>, NoMemory>
        ensures ok { IfOk result (λ found. MatchOption found
            (IsUnlisted words.now self.now.actions.items plan.now.steps)
            (AreFound words.now self.now.actions.items plan.now.steps)) }
    {
        let mut numbers = List::empty(alloc);
        for place in 0..plan.steps.len() {
            match self.find_step(alloc, words, plan.steps.item(place))? {
                Some(number) => numbers.push(number)?,
                None => return Ok(None),
            }
        }
        Ok(Some(numbers))
    }

    /// The numbers of a plan's steps, each of which is listed.
    pub fn number_plan(
        &self,
        alloc: Global,
        words: &Vocabulary,
        plan: &Plan,
    ) -> Result<List<u32>, NoMemory>
        requires listed { AreListed words.now self.now.actions.items plan.now.steps }
        ensures ok { IfOk result (λ numbers. AreNamed words.now self.now.actions.items numbers
            plan.now.steps) }
    {
        match self.find_plan(alloc, words, plan)? {
            Some(numbers) => Ok(numbers),
            None => unreachable!(),
        }
    }
}
