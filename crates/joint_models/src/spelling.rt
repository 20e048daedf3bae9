//! How the entry of a disagreement is printed.

ghost use Rattle.std.specs.Prelude.{◌≡◌, ◌++◌, map, Some, IfOk, OnOk};
ghost use Rattle.std.specs.List.{join_with_byte};
ghost use Rattle.std.specs.String.{string_bytes};
ghost use Rattle.model_kit.specs.Pairs.{type_name};
ghost use Rattle.joint_models.specs.Disagreements.{spelled};

use crate::group::Group;
use model_kit::{Signature, Vocabulary};
use mre_base::{List, NoMemory, Text};
use std::alloc::Global;

/// The name of a type.
pub(crate) fn type_name(words: &Vocabulary, number: u32) -> &str
    ensures { result.now ≡ type_name words.now number }
{
    if (number as usize) < words.types.len() {
        words.types.item(number as usize).0.as_str()
    } else {
        ""
    }
}

/// The spelling of an entry, as `object hub - place` or `action walk (place place)`.
pub(crate) fn spell(
    alloc: Global,
    group: Group,
    words: &Vocabulary,
    entry: &Signature,
) -> Result<Text, NoMemory>
    ensures ok { IfOk result (λ text. text
        ≡ spelled group entry.now.name (Some (map (type_name words.now) entry.now.params))) }
{
    let mut text = String::from_str(alloc, group.word())?;
    text.push_str(entry.name.as_str())?;
    text.push_str(group.opening())?;
    push_types(&mut text, words, &entry.params)?;
    text.push_str(group.closing())?;
    Text::of(alloc, text.as_str())
}

// Puts the names of types at the end, with a blank between any two.
fn push_types(text: &mut String, words: &Vocabulary, types: &List<u32>) -> Result<(), NoMemory>
    ensures ok { OnOk result (string_bytes text.new ≡ string_bytes text.old
        ++ join_with_byte 32 (map (type_name words.now) types.now)) }
{
    for place in 0..types.len() {
        if place > 0 {
            text.push_str(" ")?;
        }
        text.push_str(type_name(words, *types.item(place)))?;
    }
    Ok(())
}
