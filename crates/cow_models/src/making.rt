//! The ground actions of a row, as a case table gives them.

ghost use Rattle.std.specs.Prelude.{◌≡◌, ◌+◌, ◌*◌, ◌<◌, ◌≤◌, length, IfOk, OnOk};
ghost use Rattle.case_kit.specs.Evaluated.{relaxed};
ghost use Rattle.cow_models.specs.Changed.{IsChanged};
ghost use Rattle.cow_models.specs.Rows.{row_length, IsRow};
ghost use Rattle.cow_models.specs.Touched.{touches_row};

use case_kit::{CaseTable, Way};
use cube_kit::Cube;
use mre_base::{Copied, List, NoMemory};
use std::alloc::Global;
use task_kit::TaskAction;

const ROW: usize = 16;

fn copied_action(alloc: Global, action: &TaskAction) -> Result<TaskAction, NoMemory>
    ensures { IfOk result (λ made. made ≡ action.now) }
{
    Ok(TaskAction {
        pre: action.pre.copied(alloc)?,
        add: action.add.copied(alloc)?,
        del: action.del.copied(alloc)?,
        cost: action.cost,
    })
}

/// A copy of the actions, in memory of its own.
pub fn copied_actions(
    alloc: Global,
    actions: &List<TaskAction>,
) -> Result<List<TaskAction>, NoMemory>
    ensures { IfOk result (λ made. made ≡ actions.now) }
{
    let mut made = List::empty(alloc);
    for place in 0..actions.len() {
        made.push(copied_action(alloc, actions.item(place))?)?;
    }
    Ok(made)
}

// How many of the actions are in the row with a number.
fn row_length(actions: usize, row: usize) -> usize
    requires { 16 * row ≤ actions }
    ensures { result ≡ row_length actions row }
{
    (actions - ROW * row).min(ROW)
}

/// The actions of a row in one of the two tasks of a cube.
pub fn actions_of_row(
    alloc: Global,
    table: &CaseTable,
    cube: &Cube,
    way: Way,
    row: usize,
) -> Result<List<TaskAction>, NoMemory>
    requires { 16 * row < length table.now.actions }
    ensures { IfOk result (IsRow (relaxed way table.now cube.now) row) }
{
    let first = ROW * row;
    let mut made = List::empty(alloc);
    for place in 0..row_length(table.actions.len(), row) {
        made.push(table.action_by(alloc, (first + place) as u32, cube, way)?)?;
    }
    Ok(made)
}

/// Whether the row has an action in which the difference has a part.
pub fn touches_row(table: &CaseTable, place: u32, row: usize) -> bool
    requires { 16 * row < length table.now.actions }
    ensures { result ≡ touches_row table.now place row }
{
    let first = ROW * row;
    for at in 0..row_length(table.actions.len(), row) {
        if table.actions.item(first + at).touches(place) {
            return true;
        }
    }
    false
}

/// Makes the actions in which the difference has a part anew for the cube. The first of them has
/// the number `first`.
pub fn change_actions(
    alloc: Global,
    actions: &mut List<TaskAction>,
    table: &CaseTable,
    cube: &Cube,
    way: Way,
    place: u32,
    first: u32,
) -> Result<(), NoMemory>
    requires { first + length actions.old ≤ length table.now.actions }
    ensures { OnOk result (IsChanged table.now cube.now way place first actions.old actions.new) }
{
    for at in 0..actions.len() {
        let number = first + at as u32;
        if table.actions.item(number as usize).touches(place) {
            *actions.item_mut(at) = table.action_by(alloc, number, cube, way)?;
        }
    }
    Ok(())
}
