//! Rows of ground actions that models share.

ghost use Rattle.std.specs.Prelude.{◌≡◌, ◌<◌, length, slice_get, Some, IfOk, OnOk};
ghost use Rattle.std.specs.Prelude.{◌+◌, ◌*◌, ◌≤◌};
ghost use Rattle.cow_models.specs.Changed.{IsChanged};

use crate::making::{change_actions, copied_actions};
use case_kit::{CaseTable, Way};
use cube_kit::Cube;
use mre_base::{List, NoMemory};
use std::alloc::{AllocError, Global};
use std::marker::Model;
use std::rc::Rc;
use task_kit::TaskAction;

// The actions of a row, and where a copy of them takes its memory.
#[derive(Drop)]
struct Held {
    alloc: Global,
    actions: List<TaskAction>,
}

impl Clone for Held {
    ghost is_clone = { λ held copy. copy.actions ≡ held.actions };

    fn clone(&self) -> Result<Held, AllocError> {
        match copied_actions(self.alloc, &self.actions) {
            Ok(actions) => Ok(Held {
                alloc: self.alloc,
                actions,
            }),
            Err(_) => Err(AllocError),
        }
    }
}

/// A row of ground actions. It shares its memory with the rows that `share` made of it until one of
/// them is changed.
#[derive(Drop)]
pub struct Row {
    held: Rc<Held>,
}

impl Model for Row {
    ghost use Rattle.std.specs.Prelude.{List};
    ghost use Rattle.task_kit.specs.declared.action.TaskAction.{TaskAction};

    ghost Value = { List TaskAction };

    ghost view = { λ row. row.held.value.actions };
}

impl Row {
    pub fn new(alloc: Global, actions: List<TaskAction>) -> Result<Row, NoMemory>
        ensures { IfOk result (λ row. row ≡ actions) }
    {
        Ok(Row {
            held: Rc::new(alloc, Held { alloc, actions })?,
        })
    }

    /// The same row for another model.
    pub fn share(&self) -> Result<Row, NoMemory>
        ensures { IfOk result (λ row. row ≡ self.now) }
    {
        Ok(Row {
            held: self.held.clone()?,
        })
    }

    pub fn len(&self) -> usize
        ensures { result ≡ length self.now }
    {
        self.held.actions.len()
    }

    /// The action at a place of the row, counted from 0.
    pub fn action(&self, place: usize) -> &TaskAction
        requires { place < length self.now }
        ensures { slice_get self.now place ≡ Some result.now }
    {
        self.held.actions.item(place)
    }

    /// Makes the actions in which the difference has a part anew for the cube. The first action of
    /// the row has the number `first`. Rows that share memory with this one stay as they are.
    pub fn change(
        &mut self,
        alloc: Global,
        table: &CaseTable,
        cube: &Cube,
        way: Way,
        place: u32,
        first: u32,
    ) -> Result<(), NoMemory>
        requires { first + length self.old ≤ length table.now.actions }
        ensures { OnOk result (IsChanged table.now cube.now way place first self.old self.new) }
    {
        let held = Rc::make_mut(&mut self.held)?;
        change_actions(alloc, &mut held.actions, table, cube, way, place, first)
    }
}
