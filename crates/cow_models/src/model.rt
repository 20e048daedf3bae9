//! One of the two relaxed tasks of a cube, in rows of ground actions that models share.

ghost use Rattle.std.specs.Prelude.{◌≡◌, ◌+◌, ◌*◌, ◌≤◌, ◌<◌, length, IfOk, OnOk, IsTrue};
ghost use Rattle.std.specs.FinSet as set;
ghost use Rattle.cube_kit.specs.Child.{child};
ghost use Rattle.task_kit.specs.Kept.{action_meaning};
ghost use Rattle.task_kit.specs.Tasks.{IsAction, action_at};
ghost use Rattle.case_kit.specs.Evaluated.{relaxed};
ghost use Rattle.cow_models.specs.Models.{model_of, IsModelOf};
ghost use Rattle.cow_models.specs.Rows.{row_count, AreRows};
ghost use Rattle.cow_models.specs.Touched.{touched_rows};

use crate::atoms::{has_all, least_missing, put_all, take_all};
use crate::row::Row;
use crate::rows::{rows_after, rows_of};
use case_kit::{CaseTable, Way};
use cube_kit::Cube;
use mre_base::{Bits, List, NoMemory, Side, Steps};
use std::alloc::Global;
use std::marker::Model;
use std::sync::ledger::Ledger;
use task_kit::{TaskAction, TaskView};

/// One of the two relaxed tasks of a cube of a case table. Its ground actions are in rows of
/// sixteen, and a row is shared with each model from which it came, or which came from it, and
/// whose cube gives the same actions there.
#[derive(Drop)]
pub struct CaseModel {
    way: Way,
    cube: Cube,
    atoms: u32,
    start: Bits,
    goal: Bits,
    count: u32,
    rows: List<Row>,
}

impl Model for CaseModel {
    ghost use Rattle.cow_models.specs.Models.{ModelMeaning, model_code};
    ghost use Rattle.cow_models.specs.Rows.{kept_task, IsKept};

    ghost Value = { ModelMeaning };

    ghost coded = { model_code };

    ghost view = { λ m. record {
      way = m.way;
      cube = m.cube;
      task = kept_task m.atoms m.start m.goal m.count m.rows;
    } };

    ghost invariant = { λ m. IsKept m.atoms m.start m.goal m.count m.rows };
}

impl CaseModel {
    /// The task that `permissive` or `restrictive` gives for the cube, made whole. A step is counted
    /// for each row that is made.
    pub fn of<L: Ledger>(
        alloc: Global,
        table: &CaseTable,
        cube: &Cube,
        way: Way,
        steps: &mut Steps<L>,
    ) -> Result<CaseModel, NoMemory>
        ensures ok { IfOk result (λ made. made ≡ model_of table.now cube.now way) }
        ensures steps { OnOk result (steps.new ≡ steps.old + row_count (length table.now.actions)) }
        ensures rising { steps.old ≤ steps.new }
        ensures at_most { steps.new ≤ steps.old + row_count (length table.now.actions) }
    {
        let rows = rows_of(alloc, table, cube, way, steps)?;
        assembled(alloc, table, cube.copy(), way, rows)
    }

    /// The model of the cube in which one more difference is decided, of the same table. It shares
    /// each row that the difference doesn't touch; a step is counted for each row that it touches.
    /// This model stays as it is, and so does each model that shares rows with it, also after
    /// `NoMemory`.
    pub fn decided<L: Ledger>(
        &self,
        alloc: Global,
        table: &CaseTable,
        place: u32,
        side: Side,
        steps: &mut Steps<L>,
    ) -> Result<CaseModel, NoMemory>
        requires model { IsModelOf table.now self.now }
        requires undecided { IsTrue (set.contains self.now.cube.undecided place) }
        ensures ok { IfOk result (λ made.
            made ≡ model_of table.now (child self.now.cube place side) self.now.way) }
        ensures steps { OnOk result (steps.new ≡ steps.old + touched_rows table.now place) }
        ensures rising { steps.old ≤ steps.new }
        ensures at_most { steps.new ≤ steps.old + touched_rows table.now place }
    {
        let cube = self.cube.decide(place, side);
        let rows = rows_after(alloc, &self.rows, table, &cube, self.way, place, steps)?;
        assembled(alloc, table, cube, self.way, rows)
    }

    /// The cube whose task this is.
    pub fn cube(&self) -> Cube
        ensures { result ≡ self.now.cube }
    {
        self.cube.copy()
    }

    // The action with a number.
    fn action(&self, action: u32) -> &TaskAction
        requires { action < length self.now.task.actions }
        ensures is { action_meaning result.now ≡ action_at self.now.task action }
        ensures in_range { IsAction self.now.task.atoms (action_meaning result.now) }
    {
        let at = action as usize;
        self.rows.item(at / 16).action(at % 16)
    }
}

// The model with these rows.
fn assembled(
    alloc: Global,
    table: &CaseTable,
    cube: Cube,
    way: Way,
    rows: List<Row>,
) -> Result<CaseModel, NoMemory>
    requires number { length rows ≡ row_count (length table.now.actions) }
    requires rows { AreRows (relaxed way table.now cube) rows }
    ensures { IfOk result (λ made. made ≡ model_of table.now cube way) }
{
    let start = table.start_by(alloc, &cube, way)?;
    let goal = table.goal_by(alloc, &cube, way)?;
    Ok(CaseModel {
        way,
        cube,
        atoms: table.atoms,
        start,
        goal,
        count: table.actions.len() as u32,
        rows,
    })
}

impl TaskView for CaseModel {
    ghost seen = { λ m. m.task };

    fn atoms(&self) -> u32 {
        self.atoms
    }

    fn start(&self) -> &Bits {
        &self.start
    }

    fn goal(&self) -> &Bits {
        &self.goal
    }

    fn actions(&self) -> u32 {
        self.count
    }

    fn cost(&self, action: u32) -> Option<u32> {
        self.action(action).cost
    }

    fn applies(&self, action: u32, state: &Bits) -> bool {
        let action = self.action(action);
        action.cost.is_some() && has_all(state, action.pre.as_slice())
    }

    fn missing(&self, action: u32, state: &Bits) -> Option<u32> {
        let action = self.action(action);
        least_missing(state, action.pre.as_slice())
    }

    fn next_into(&self, action: u32, state: &Bits, into: &mut Bits) {
        let action = self.action(action);
        into.copy_from(state);
        take_all(into, action.del.as_slice());
        put_all(into, action.add.as_slice());
    }

    fn adds_outside(&self, action: u32, among: &Bits) -> bool {
        let action = self.action(action);
        !has_all(among, action.add.as_slice())
    }

    fn outside(&self, action: u32, among: &Bits) -> Option<u32> {
        let action = self.action(action);
        least_missing(among, action.add.as_slice())
    }
}
