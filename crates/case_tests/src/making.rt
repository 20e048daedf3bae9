//! Small case tables for tests, made of given actions.
ghost use Rattle.std.specs.Prelude.{◌≡◌, ◌+◌, ◌≤◌, All, length, IfOk, IfSome};
ghost use Rattle.case_kit.specs.Parts.{stands_in_value, stands_in_cost};
ghost use Rattle.case_kit.specs.Sound.{is_value_listed, is_cost_listed, is_apart, is_beside};
ghost use Rattle.case_tests.specs.Sided.{is_sided, IsSided, IsSidedAction};

use case_kit::{Case, CaseAction, CaseCost, CaseTable, CaseValue, When};
use mre_base::{List, NoMemory};
use std::alloc::Global;

/// An action as given: its cases, its cost, and the condition under which a model knows it.
#[derive(Clone, Copy)]
pub struct GivenAction<'a> {
    pub pre: &'a [Case],
    pub add: &'a [Case],
    pub del: &'a [Case],
    pub cost: CaseCost,
    pub known: When,
}

/// The number of differences, the greatest number of a difference that only the planner's model
/// has, and the number of atoms.
#[derive(Clone, Copy)]
pub struct Size {
    pub d: u32,
    pub split: u32,
    pub atoms: u32,
}

fn is_sided(size: Size, when: When) -> bool
    ensures { result ≡ is_sided size.split size.d when }
{
    match when {
        When::Always => true,
        When::IfTold(place) => 1 <= place && place <= size.split,
        When::IfLeft(place) => size.split < place && place <= size.d,
    }
}

fn is_value_listed(d: u32, value: CaseValue) -> bool
    ensures { result ≡ is_value_listed d value }
{
    match value {
        CaseValue::One(_) => true,
        CaseValue::Two { place, .. } => 1 <= place && place <= d,
    }
}

fn is_cost_listed(d: u32, cost: CaseCost) -> bool
    ensures { result ≡ is_cost_listed d cost }
{
    match cost {
        CaseCost::One(value) => is_value_listed(d, value),
        CaseCost::Two { place, told, left } => {
            1 <= place && place <= d && is_value_listed(d, told) && is_value_listed(d, left)
        }
    }
}

fn stands_in_value(value: CaseValue, number: u32) -> bool
    ensures { result ≡ stands_in_value value number }
{
    match value {
        CaseValue::One(_) => false,
        CaseValue::Two { place, .. } => place == number,
    }
}

fn stands_in_cost(cost: CaseCost, number: u32) -> bool
    ensures { result ≡ stands_in_cost cost number }
{
    match cost {
        CaseCost::One(value) => stands_in_value(value, number),
        CaseCost::Two { place, told, left } => {
            place == number || stands_in_value(told, number) || stands_in_value(left, number)
        }
    }
}

fn is_apart(cost: CaseCost) -> bool
    ensures { result ≡ is_apart cost }
{
    match cost {
        CaseCost::One(_) => true,
        CaseCost::Two { place, told, left } => {
            !stands_in_value(told, place) && !stands_in_value(left, place)
        }
    }
}

fn is_beside(cost: CaseCost, when: When) -> bool
    ensures { result ≡ is_beside cost when }
{
    match when {
        When::Always => true,
        When::IfTold(place) => !stands_in_cost(cost, place),
        When::IfLeft(place) => !stands_in_cost(cost, place),
    }
}

// The given cases whose atoms are below the bound and whose differences are of their side.
fn cases_of(alloc: Global, size: Size, bound: u32, cases: &[Case]) -> Result<List<Case>, NoMemory>
    ensures { IfOk result (All (IsSided size.split size.d bound)) }
{
    let mut list = List::empty(alloc);
    for &case in cases {
        if case.atom < bound && is_sided(size, case.when) {
            list.push(case)?;
        }
    }
    Ok(list)
}

// The given action, if its cost and its condition depend on differences as in a table.
fn action_of(
    alloc: Global,
    size: Size,
    given: &GivenAction<'_>,
) -> Result<Option<CaseAction>, NoMemory>
    requires { size.atoms ≤ 4096 }
    ensures { IfOk result (λ action. IfSome action (IsSidedAction size.split size.d size.atoms)) }
{
    if !is_sided(size, given.known) || !is_cost_listed(size.d, given.cost) {
        return Ok(None);
    }
    if !is_apart(given.cost) || !is_beside(given.cost, given.known) {
        return Ok(None);
    }
    Ok(Some(CaseAction {
        pre: cases_of(alloc, size, size.atoms + 1, given.pre)?,
        add: cases_of(alloc, size, size.atoms, given.add)?,
        del: cases_of(alloc, size, size.atoms + 1, given.del)?,
        cost: given.cost,
        known: given.known,
    }))
}

fn actions_of(
    alloc: Global,
    size: Size,
    list: &[GivenAction<'_>],
) -> Result<List<CaseAction>, NoMemory>
    requires { size.atoms ≤ 4096 }
    ensures each { IfOk result (All (IsSidedAction size.split size.d size.atoms)) }
    ensures count { IfOk result (λ actions. length actions ≤ length list.now) }
{
    let mut actions = List::empty(alloc);
    for given in list {
        if let Some(action) = action_of(alloc, size, given)? {
            actions.push(action)?;
        }
    }
    Ok(actions)
}

/// The table of the given cases and actions, without those that no table has.
pub fn table_of(
    alloc: Global,
    size: Size,
    start: &[Case],
    goal: &[Case],
    list: &[GivenAction<'_>],
) -> Result<CaseTable, NoMemory>
    requires split { size.split ≤ size.d }
    requires differences { size.d ≤ 256 }
    requires atoms { size.atoms ≤ 4096 }
    requires list { length list.now ≤ 50000 }
    ensures { IfOk result (λ table. table.d ≡ size.d) }
{
    Ok(CaseTable {
        d: size.d,
        atoms: size.atoms,
        start: cases_of(alloc, size, size.atoms, start)?,
        goal: cases_of(alloc, size, size.atoms + 1, goal)?,
        actions: actions_of(alloc, size, list)?,
    })
}
