//! The goal zone: atoms that are as hard to make true as a goal atom, if nothing more is paid.
ghost use Rattle.std.specs.Prelude.{◌≡◌, ◌+◌, length, IfOk, OnOk};

use crate::adding::{Add, Adding};
use crate::values::Values;
use mre_base::{Bits, NoMemory};
use std::alloc::Global;
use task_kit::TaskView;

/// A goal atom, and its value if it can be made true.
#[derive(Clone, Copy)]
pub struct GoalAtom {
    pub atom: u32,
    pub value: Option<u64>,
}

/// The goal atom outside the closure with the greatest value. An atom that can't be made true is
/// above every value.
pub fn farthest<T: TaskView>(task: &T, closure: &Bits, values: &Values) -> Option<GoalAtom>
    requires { closure.now.width ≡ (T.seen task.now).atoms + 1 }
{
    let mut goal: Option<GoalAtom> = None;
    for atom in 0..task.goal().width() {
        if task.goal().contains(atom) && !closure.contains(atom) {
            let value = values.of_atom(atom);
            if is_farther(value, goal) {
                goal = Some(GoalAtom { atom, value });
            }
        }
    }
    goal
}

fn is_farther(value: Option<u64>, goal: Option<GoalAtom>) -> bool {
    match (value, goal) {
        (_, None) => true,
        (None, Some(goal)) => goal.value.is_some(),
        (Some(value), Some(goal)) => match goal.value {
            None => false,
            Some(other) => other < value,
        },
    }
}

// The atoms of the zone, and those of them whose adders are still to be visited.
#[derive(Drop)]
struct Zone {
    atoms: Bits,
    open_atoms: Vec<u32>,
}

fn enter(zone: &mut Zone, atom: u32) -> Result<(), NoMemory>
    ensures { OnOk result (zone.new.atoms.width ≡ zone.old.atoms.width) }
{
    if atom < zone.atoms.width() && !zone.atoms.contains(atom) {
        zone.atoms.put(atom);
        zone.open_atoms.push(atom)?;
    }
    Ok(())
}

// Puts in the supporter of each action that adds the atom and of whose cost nothing is left.
fn enter_supporters(
    left: &Vec<u64>,
    adding: &Adding,
    values: &Values,
    zone: &mut Zone,
    atom: u32,
) -> Result<(), NoMemory>
    ensures { OnOk result (zone.new.atoms.width ≡ zone.old.atoms.width) }
{
    let mut place = adding.last_to(atom);
    for _ in 0..adding.len() {
        let Some(add) = add_at(adding, place) else {
            break;
        };
        if is_used_up(left, add.action) {
            if let Some(supporter) = values.supporter(add.action) {
                enter(zone, supporter)?;
            }
        }
        place = add.before;
    }
    Ok(())
}

fn add_at(adding: &Adding, place: Option<usize>) -> Option<Add> {
    adding.at(place?)
}

fn is_used_up(left: &Vec<u64>, action: u32) -> bool {
    left.get(action as usize).copied() == Some(0)
}

/// The zone of a goal atom: with each atom, the supporter of each action that adds it and of whose
/// cost nothing is left.
pub fn zone_of(
    alloc: Global,
    left: &Vec<u64>,
    adding: &Adding,
    values: &Values,
    width: u32,
    goal: u32,
) -> Result<Bits, NoMemory>
    ensures { IfOk result (λ zone. zone.width ≡ width) }
{
    let mut zone = Zone {
        atoms: Bits::empty(alloc, width)?,
        open_atoms: Vec::new(alloc),
    };
    enter(&mut zone, goal)?;
    // Each atom enters once.
    for _ in 0..width {
        let Some(atom) = zone.open_atoms.pop() else {
            break;
        };
        enter_supporters(left, adding, values, &mut zone, atom)?;
    }
    Ok(zone.atoms)
}
