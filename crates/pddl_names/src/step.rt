//! The step of a plan line.

ghost use Rattle.std.specs.Prelude.{◌≡◌, ◌+◌, ◌<◌, ◌^◌, [], length, drop};
ghost use Rattle.pddl_text.specs.Answers.{Gives};
ghost use Rattle.pddl_names.specs.Numbers.{IsTableOf, entry_name, word_name};
ghost use Rattle.pddl_names.specs.Reading.{object_at, objects_from, line_step};

use crate::misnaming::misnamed;
use crate::names::NameTable;
use model_kit::{GroundAction, Vocabulary, is_object_of};
use mre_base::{List, Text};
use pddl_text::{Place, PlanLine, ReadStop, TextRule};
use std::alloc::Global;

/// The object that a word names, where it is of this type or of one below it.
fn object_at(
    alloc: Global,
    words: &Vocabulary,
    objects: &NameTable,
    word: &(Text, Place),
    above: u32,
) -> Result<u32, ReadStop>
    requires { IsTableOf entry_name words.now.objects objects.now }
    ensures { Gives result (object_at words.now word.now above) }
{
    let Some(object) = objects.number(&word.0) else {
        return Err(misnamed(alloc, word, TextRule::Undeclared));
    };
    if is_object_of(words, object, above) {
        Ok(object)
    } else {
        Err(misnamed(alloc, word, TextRule::WrongType))
    }
}

/// The objects that the words after the first give, where each is of its parameter's type.
fn objects_of(
    alloc: Global,
    words: &Vocabulary,
    objects: &NameTable,
    line: &List<(Text, Place)>,
    types: &List<u32>,
) -> Result<List<u32>, ReadStop>
    requires table { IsTableOf entry_name words.now.objects objects.now }
    requires arity { length line.now ≡ length types.now + 1 }
    ensures { Gives result (objects_from words.now [] (drop 1 line.now) types.now) }
{
    let mut found = List::empty(alloc);
    for place in 0..types.len() {
        let word = line.item(place + 1);
        match object_at(alloc, words, objects, word, *types.item(place)) {
            Ok(object) => found.push(object)?,
            Err(stop) => return Err(stop),
        }
    }
    Ok(found)
}

/// The step of a line.
pub fn step_of(
    alloc: Global,
    words: &Vocabulary,
    actions: &NameTable,
    objects: &NameTable,
    line: &PlanLine,
) -> Result<GroundAction, ReadStop>
    requires actions { IsTableOf word_name words.now.actions actions.now }
    requires objects { IsTableOf entry_name words.now.objects objects.now }
    requires named { 0 < length line.now.words }
    ensures { Gives result (line_step words.now line.now.words) }
{
    let head = line.words.item(0);
    let Some(schema) = actions.number(&head.0) else {
        return Err(misnamed(alloc, head, TextRule::Undeclared));
    };
    let types = &words.actions.item(schema as usize).params;
    if line.words.len() - 1 != types.len() {
        return Err(misnamed(alloc, head, TextRule::WrongArity));
    }
    match objects_of(alloc, words, objects, &line.words, types) {
        Ok(objects) => Ok(GroundAction { schema, objects }),
        Err(stop) => Err(stop),
    }
}
