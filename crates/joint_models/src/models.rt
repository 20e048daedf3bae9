//! A model in the numbers of the joint vocabulary.

ghost use Rattle.std.specs.Prelude.{◌≡◌, ◌<◌, ◌||◌, length, IsTrue, IfOk};
ghost use Rattle.model_kit.specs.Pairs.{is_named, IsModelIn};
ghost use Rattle.joint_models.specs.Renaming.{IsPartOf, IsSchemaFor, AreSchemasFor, unknown_among};
ghost use Rattle.joint_models.specs.Renaming.{HasAll};

use crate::listed::Listed;
use crate::lists::Lists;
use crate::numbers::Numbers;
use crate::renaming::{rename_atoms, rename_schema, rename_values};
use model_kit::{Model, Schema, Signature, Vocabulary};
use mre_base::{List, NoMemory, Text};
use std::alloc::Global;

/// A model, what its vocabulary lists, and the new numbers of its words.
#[derive(Clone, Copy)]
pub(crate) struct NumberedModel<'a> {
    pub(crate) model: &'a Model,
    pub(crate) lists: &'a Lists,
    pub(crate) numbers: &'a Numbers,
}

/// A model in the numbers of the joint vocabulary.
pub(crate) fn model_in(
    alloc: Global,
    words: Vocabulary,
    own: NumberedModel<'_>,
    other: NumberedModel<'_>,
) -> Result<Model, NoMemory>
    requires own_is { IsPartOf words own.model.now own.lists.now own.numbers.now }
    requires other_is { IsPartOf words other.model.now other.lists.now other.numbers.now }
    requires known { HasAll own.model.now.words.actions other.model.now.words.actions
        words.actions }
    ensures ok { IfOk result (IsModelIn words own.entry.model.now other.entry.model.now) }
{
    let init = rename_atoms(alloc, own.numbers, &own.model.init)?;
    let goal = rename_atoms(alloc, own.numbers, &own.model.goal)?;
    let schemas = schemas_for(alloc, &words.actions, own, other)?;
    let values = rename_values(alloc, own.numbers, &own.model.values)?;
    let unknown = unknown_among(alloc, &own.lists.actions, &words.actions)?;
    Ok(Model {
        words,
        init,
        goal,
        schemas,
        values,
        unknown,
    })
}

// The schemas of actions by their names: a model's own where it has the action, and else the
// other's.
fn schemas_for(
    alloc: Global,
    actions: &List<Signature>,
    own: NumberedModel<'_>,
    other: NumberedModel<'_>,
) -> Result<List<Schema>, NoMemory>
    requires own_are { own.lists.now.actions.entries ≡ own.model.now.words.actions }
    requires other_are { other.lists.now.actions.entries ≡ other.model.now.words.actions }
    requires known { HasAll own.model.now.words.actions other.model.now.words.actions actions.now }
    ensures ok { IfOk result (AreSchemasFor own.entry.model.now own.entry.numbers.now
        other.entry.model.now other.entry.numbers.now actions.now) }
{
    let mut schemas = List::empty(alloc);
    for place in 0..actions.len() {
        let name = &actions.item(place).name;
        schemas.push(schema_for(alloc, name, own, other)?)?;
    }
    Ok(schemas)
}

// The schema of an action by its name.
fn schema_for(
    alloc: Global,
    name: &Text,
    own: NumberedModel<'_>,
    other: NumberedModel<'_>,
) -> Result<Schema, NoMemory>
    requires own_are { own.lists.now.actions.entries ≡ own.model.now.words.actions }
    requires other_are { other.lists.now.actions.entries ≡ other.model.now.words.actions }
    requires known { IsTrue (is_named own.model.now.words.actions name.now
        || is_named other.model.now.words.actions name.now) }
    ensures ok { IfOk result (IsSchemaFor own.entry.model.now own.entry.numbers.now
        other.entry.model.now other.entry.numbers.now name.now) }
{
    let number = own.lists.actions.number(name);
    if number < own.model.schemas.len() {
        return rename_schema(alloc, own.numbers, own.model.schemas.item(number));
    }
    let number = other.lists.actions.number(name);
    rename_schema(alloc, other.numbers, other.model.schemas.item(number))
}

// The numbers of the actions that a list lacks. Numbers past 32 bits count as running out of
// memory.
fn unknown_among(
    alloc: Global,
    known: &Listed,
    actions: &List<Signature>,
) -> Result<List<u32>, NoMemory>
    ensures ok { IfOk result (λ unknown. unknown ≡ unknown_among known.now.entries actions.now) }
{
    let mut unknown = List::empty(alloc);
    for place in 0..actions.len() {
        if !known.has(&actions.item(place).name) {
            if place > u32::MAX as usize {
                return Err(NoMemory);
            }
            unknown.push(place as u32)?;
        }
    }
    Ok(unknown)
}
