//! Differences on preconditions, adds and deletes.

ghost use Rattle.std.specs.Prelude.{◌≡◌, ◌<◌, None, OnOk, length};
ghost use Rattle.model_kit.specs.Vocabulary.{IsSchemaAtom};
ghost use Rattle.model_kit.specs.Printed.{schema_atom_form};
ghost use Rattle.feature_diff.specs.Telling.{part_of, part_told, group_in};
ghost use Rattle.feature_diff.specs.Parts.{GainsGroup};

use crate::Difference;
use crate::gathered::Gathered;
use crate::told::{Told, tell};
use model_kit::{Model, Schema, SchemaAtom, Vocabulary, print_schema_atom};
use mre_base::{Copied, List, NoMemory, Text};
use std::alloc::Global;

/// The lists of atoms of an action schema.
#[derive(Clone, Copy)]
pub enum SchemaPart {
    Pre,
    Add,
    Del,
}

/// One of the lists of an action.
#[derive(Clone, Copy)]
pub struct ActionPart {
    pub action: u32,
    pub part: SchemaPart,
}

/// One of the lists.
pub fn atoms_in(part: SchemaPart, schema: &Schema) -> &List<SchemaAtom>
    ensures { result.now ≡ part_of part schema.now }
{
    match part {
        SchemaPart::Pre => &schema.pre,
        SchemaPart::Add => &schema.add,
        SchemaPart::Del => &schema.del,
    }
}

// Adds the differences on the preconditions, adds or deletes of an action: those that only one
// model has.
pub(crate) fn tell_part(
    alloc: Global,
    planner: &Model,
    user: &Model,
    kind: ActionPart,
    gathered: &mut Gathered,
) -> Result<(), NoMemory>
    requires joint { user.now.words ≡ planner.now.words }
    requires listed { kind.action < length planner.now.words.actions }
    ensures ok { OnOk result (GainsGroup planner.now user.now (group_in kind.part kind.action)
        gathered.old gathered.new) }
{
    let place = kind.action as usize;
    let signature = planner.words.actions.item(place);
    // So each parameter has a number that can be printed.
    prove!(signature.params.len() <= usize::MAX);
    tell::<ActionPart, SchemaAtom>(
        alloc,
        &planner.words,
        &kind,
        atoms_in(kind.part, planner.schemas.item(place)),
        atoms_in(kind.part, user.schemas.item(place)),
        gathered,
    )
}

impl Told<ActionPart> for SchemaAtom {
    ghost Fits = { IsSchemaAtom };

    ghost form = { schema_atom_form };

    ghost alone = { part_told };

    ghost both = { λ kind one other. None };

    fn print(&self, alloc: Global, words: &Vocabulary) -> Result<Text, NoMemory> {
        print_schema_atom(alloc, words, self)
    }

    fn tell_alone(
        &self,
        alloc: Global,
        kind: &ActionPart,
        planner_has: bool,
    ) -> Result<Difference, NoMemory> {
        let atom = self.copied(alloc)?;
        let action = kind.action;
        Ok(match kind.part {
            SchemaPart::Pre => Difference::Pre {
                action,
                atom,
                planner_has,
            },
            SchemaPart::Add => Difference::Add {
                action,
                atom,
                planner_has,
            },
            SchemaPart::Del => Difference::Del {
                action,
                atom,
                planner_has,
            },
        })
    }

    fn tell_both(
        &self,
        _user: &SchemaAtom,
        _alloc: Global,
        _kind: &ActionPart,
    ) -> Result<Option<Difference>, NoMemory> {
        Ok(None)
    }
}
