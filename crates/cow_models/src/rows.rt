//! The rows of a model, made from a case table or from the rows of another model.

ghost use Rattle.std.specs.Prelude.{ℕ, ◌≡◌, ◌+◌, ◌*◌, ◌<◌, ◌≤◌, length, IfOk, OnOk};
ghost use Rattle.std.specs.Prelude.{if◌then◌else◌};
ghost use Rattle.case_kit.specs.Evaluated.{relaxed};
ghost use Rattle.cow_models.specs.Changed.{IsChanged, AreChanged};
ghost use Rattle.cow_models.specs.Rows.{row_at, row_count, row_length, IsRow, AreRows};
ghost use Rattle.cow_models.specs.Touched.{touches_row, touched_rows};

use crate::making::{actions_of_row, touches_row};
use crate::row::Row;
use case_kit::{CaseTable, Way};
use cube_kit::Cube;
use mre_base::{List, NoMemory, Steps};
use std::alloc::Global;
use std::sync::ledger::Ledger;

// How many rows the actions of a table take.
fn row_count(table: &CaseTable) -> usize
    ensures { result ≡ row_count (length table.now.actions) }
{
    (table.actions.len() + 15) / 16
}

/// The rows of one of the two tasks of a cube.
pub fn rows_of<L: Ledger>(
    alloc: Global,
    table: &CaseTable,
    cube: &Cube,
    way: Way,
    steps: &mut Steps<L>,
) -> Result<List<Row>, NoMemory>
    ensures number { IfOk result (λ made. length made ≡ row_count (length table.now.actions)) }
    ensures rows { IfOk result (AreRows (relaxed way table.now cube.now)) }
    ensures steps { OnOk result (steps.new ≡ steps.old + row_count (length table.now.actions)) }
    ensures rising { steps.old ≤ steps.new }
    ensures at_most { steps.new ≤ steps.old + row_count (length table.now.actions) }
{
    let mut made = List::empty(alloc);
    let count = row_count(table);
    for row in 0..count {
        made.push(made_row(alloc, table, cube, way, row, steps)?)?;
    }
    Ok(made)
}

/// The rows of a model after one more difference is decided. The cube has it decided.
pub fn rows_after<L: Ledger>(
    alloc: Global,
    rows: &List<Row>,
    table: &CaseTable,
    cube: &Cube,
    way: Way,
    place: u32,
    steps: &mut Steps<L>,
) -> Result<List<Row>, NoMemory>
    requires number { length rows.now ≡ row_count (length table.now.actions) }
    requires lengths { (row : ℕ) →
        length (row_at rows.now row) ≡ row_length (length table.now.actions) row }
    ensures ok { IfOk result (AreChanged table.now cube.now way place rows.now) }
    ensures steps { OnOk result (steps.new ≡ steps.old + touched_rows table.now place) }
    ensures rising { steps.old ≤ steps.new }
    ensures at_most { steps.new ≤ steps.old + touched_rows table.now place }
{
    let mut made = List::empty(alloc);
    for row in 0..rows.len() {
        let old = rows.item(row);
        made.push(row_after(alloc, old, table, cube, way, place, row, steps)?)?;
    }
    Ok(made)
}

// A row made anew. It counts a step.
fn made_row<L: Ledger>(
    alloc: Global,
    table: &CaseTable,
    cube: &Cube,
    way: Way,
    row: usize,
    steps: &mut Steps<L>,
) -> Result<Row, NoMemory>
    requires { 16 * row < length table.now.actions }
    ensures ok { IfOk result (IsRow (relaxed way table.now cube.now) row) }
    ensures steps { steps.new ≡ steps.old + 1 }
{
    steps.tick();
    Row::new(alloc, actions_of_row(alloc, table, cube, way, row)?)
}

// A shared row in which the actions that a difference touches are made anew. It counts a step.
fn changed_row<L: Ledger>(
    alloc: Global,
    old: &Row,
    table: &CaseTable,
    cube: &Cube,
    way: Way,
    place: u32,
    row: usize,
    steps: &mut Steps<L>,
) -> Result<Row, NoMemory>
    requires { 16 * row + length old.now ≤ length table.now.actions }
    ensures ok { IfOk result (λ made.
        IsChanged table.now cube.now way place (16 * row) old.now made) }
    ensures steps { steps.new ≡ steps.old + 1 }
{
    steps.tick();
    let mut made = old.share()?;
    made.change(alloc, table, cube, way, place, (16 * row) as u32)?;
    Ok(made)
}

// The row after one more difference is decided: the same row where the difference doesn't touch it.
fn row_after<L: Ledger>(
    alloc: Global,
    old: &Row,
    table: &CaseTable,
    cube: &Cube,
    way: Way,
    place: u32,
    row: usize,
    steps: &mut Steps<L>,
) -> Result<Row, NoMemory>
    requires within { 16 * row < length table.now.actions }
    requires length { length old.now ≡ row_length (length table.now.actions) row }
    ensures ok { IfOk result (λ made.
        IsChanged table.now cube.now way place (16 * row) old.now made) }
    ensures steps { steps.new ≡ steps.old
        + (if touches_row table.now place row then 1 else 0) }
{
    if touches_row(table, place, row) {
        changed_row(alloc, old, table, cube, way, place, row, steps)
    } else {
        old.share()
    }
}
