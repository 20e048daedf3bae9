//! The printed forms of two lists side by side, in ASCII order.

ghost use Rattle.std.specs.Prelude.{◌≡◌, IfOk, OnOk};
ghost use Rattle.std.specs.BTreeMap.{get};
ghost use Rattle.feature_diff.specs.Rows.{form_cmp, spots_of, AddsPlannerPlace, AddsUserPlace};
ghost use Rattle.feature_diff.specs.Rows.{AreRows, IsLaidOut};

use crate::form::Form;
use mre_base::{List, NoMemory, Text};
use std::alloc::Global;
use std::collections::BTreeMap;

// The places of a printed form in the planner's list and in the user's, counted from 0, if any.
#[derive(Clone, Copy)]
pub(crate) struct Spots {
    pub(crate) planner: Option<usize>,
    pub(crate) user: Option<usize>,
}

// A printed form and its places.
pub(crate) struct FormRow {
    pub(crate) form: Text,
    pub(crate) spots: Spots,
}

impl Drop for FormRow {
    fn drop(self) {
        let FormRow { form: _, spots: _ } = self;
    }
}

// The forms of two lists in ASCII order, each once, with its places in both.
pub(crate) fn align(
    alloc: Global,
    planner: &List<Text>,
    user: &List<Text>,
) -> Result<List<FormRow>, NoMemory>
    ensures ok { IfOk result (AreRows planner.now user.now) }
{
    let mut table = BTreeMap::new(alloc);
    for place in 0..planner.len() {
        add_planner_place(alloc, &mut table, planner.item(place), place)?;
    }
    for place in 0..user.len() {
        add_user_place(alloc, &mut table, user.item(place), place)?;
    }
    lay_out(alloc, table)
}

// The places of a form by the map.
fn spots_at(table: &BTreeMap<Form, Spots>, form: &Form) -> Spots
    ensures { result ≡ spots_of (get form_cmp table.now form.now) }
{
    match table.get(form) {
        Some(spots) => *spots,
        None => Spots {
            planner: None,
            user: None,
        },
    }
}

// Adds the place of a form in the planner's list.
fn add_planner_place(
    alloc: Global,
    table: &mut BTreeMap<Form, Spots>,
    form: &Text,
    place: usize,
) -> Result<(), NoMemory>
    ensures ok { OnOk result (AddsPlannerPlace table.old table.new form.now place) }
{
    let key = Form {
        text: form.copy(alloc)?,
    };
    let spots = Spots {
        planner: Some(place),
        user: spots_at(table, &key).user,
    };
    table.insert(key, spots)?;
    Ok(())
}

// Adds the place of a form in the user's list.
fn add_user_place(
    alloc: Global,
    table: &mut BTreeMap<Form, Spots>,
    form: &Text,
    place: usize,
) -> Result<(), NoMemory>
    ensures ok { OnOk result (AddsUserPlace table.old table.new form.now place) }
{
    let key = Form {
        text: form.copy(alloc)?,
    };
    let spots = Spots {
        planner: spots_at(table, &key).planner,
        user: Some(place),
    };
    table.insert(key, spots)?;
    Ok(())
}

// The entries of the map in their order.
fn lay_out(alloc: Global, table: BTreeMap<Form, Spots>) -> Result<List<FormRow>, NoMemory>
    ensures ok { IfOk result (IsLaidOut table) }
{
    let mut rows = List::empty(alloc);
    for (form, spots) in table {
        rows.push(FormRow {
            form: form.text,
            spots,
        })?;
    }
    Ok(rows)
}
