//! Tables and refusals as lines.

use case_kit::{Case, CaseAction, CaseCost, CaseTable, CaseValue, When};
use ground_core::{Ground, GroundStop, NameTable};
use mre_base::{List, NoMemory};
use std::alloc::Global;

fn put_when(line: &mut String, when: When) -> Result<(), NoMemory> {
    match when {
        When::Always => {}
        When::IfTold(number) => write!(line, " if {number} is told")?,
        When::IfLeft(number) => write!(line, " if {number} is left")?,
    }
    Ok(())
}

// The cases of one kind, a line each.
fn put_cases(told: &mut String, head: &str, cases: &List<Case>) -> Result<(), NoMemory> {
    for place in 0..cases.len() {
        let case = cases.item(place);
        let atom = case.atom;
        write!(told, "{head} {atom}")?;
        put_when(told, case.when)?;
        told.push_str("\n")?;
    }
    Ok(())
}

fn put_number(line: &mut String, number: Option<u32>) -> Result<(), NoMemory> {
    match number {
        Some(number) => write!(line, "{number}")?,
        None => line.push_str("none")?,
    }
    Ok(())
}

fn put_value(line: &mut String, value: CaseValue) -> Result<(), NoMemory> {
    match value {
        CaseValue::One(value) => put_number(line, value),
        CaseValue::Two { place, told, left } => {
            put_number(line, told)?;
            write!(line, " by {place} or ")?;
            put_number(line, left)
        }
    }
}

fn put_cost(line: &mut String, cost: CaseCost) -> Result<(), NoMemory> {
    match cost {
        CaseCost::One(value) => put_value(line, value),
        CaseCost::Two { place, told, left } => {
            line.push_str("(")?;
            put_value(line, told)?;
            write!(line, ") by {place} or (")?;
            put_value(line, left)?;
            line.push_str(")")?;
            Ok(())
        }
    }
}

// What an action needs, adds, deletes and costs.
fn put_action(told: &mut String, action: &CaseAction) -> Result<(), NoMemory> {
    put_cases(told, "  needs", &action.pre)?;
    put_cases(told, "  adds", &action.add)?;
    put_cases(told, "  deletes", &action.del)?;
    told.push_str("  costs ")?;
    put_cost(told, action.cost)?;
    put_when(told, action.known)?;
    told.push_str("\n")?;
    Ok(())
}

fn put_table(told: &mut String, table: &CaseTable) -> Result<(), NoMemory> {
    put_cases(told, "starts with", &table.start)?;
    put_cases(told, "wants", &table.goal)?;
    for place in 0..table.actions.len() {
        write!(told, "action {place}\n")?;
        put_action(told, table.actions.item(place))?;
    }
    Ok(())
}

// How many atoms and actions there are, and what they are called.
fn put_names(told: &mut String, names: &NameTable) -> Result<(), NoMemory> {
    let atoms = names.atom_count();
    let actions = names.action_count();
    write!(told, "atoms {atoms}, actions {actions}\n")?;
    for number in 0..atoms {
        let name = names.atom(number).as_str();
        write!(told, "atom {number} {name}\n")?;
    }
    for number in 0..actions {
        let name = names.action(number).as_str();
        write!(told, "action {number} {name}\n")?;
    }
    Ok(())
}

fn tell_stop(alloc: Global, stop: &GroundStop) -> Result<String, NoMemory> {
    match stop {
        GroundStop::TooManyAtoms { limit } => Ok(format!(in alloc; "more than {limit} atoms\n")?),
        GroundStop::TooManyActions { limit } => {
            Ok(format!(in alloc; "more than {limit} actions\n")?)
        }
        GroundStop::NoMemory => Err(NoMemory),
    }
}

/// How much of a table is printed.
#[derive(Clone, Copy)]
pub enum Detail {
    /// The numbers of atoms and actions.
    Counts,
    /// Their printed forms too.
    Names,
    /// All of it.
    Whole,
}

fn tell_ground(alloc: Global, ground: &Ground, detail: Detail) -> Result<String, NoMemory> {
    let mut told = String::new(alloc);
    match detail {
        Detail::Counts => {
            let atoms = ground.names.atom_count();
            let actions = ground.names.action_count();
            write!(told, "atoms {atoms}, actions {actions}\n")?;
        }
        Detail::Names => put_names(&mut told, &ground.names)?,
        Detail::Whole => {
            put_names(&mut told, &ground.names)?;
            put_table(&mut told, &ground.table)?;
        }
    }
    Ok(told)
}

/// What is in the table, or why there is no table.
pub fn tell(
    alloc: Global,
    grounded: &Option<Result<Ground, GroundStop>>,
    detail: Detail,
) -> Result<String, NoMemory> {
    match grounded {
        Some(Ok(ground)) => tell_ground(alloc, ground, detail),
        Some(Err(stop)) => tell_stop(alloc, stop),
        None => Ok(String::from_str(alloc, "no pair\n")?),
    }
}
