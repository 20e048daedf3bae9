//! The words of a text, each with its role.

ghost use Rattle.std.specs.Prelude.{◌≡◌, IfOk};
ghost use Rattle.pddl_names.specs.Roles.{word_of, words_of};

use crate::role::{Word, role_at};
use mre_base::{List, NoMemory};
use pddl_form::{Met, sort_of};
use std::alloc::Global;

fn word_of(alloc: Global, met: &Met) -> Result<Word, NoMemory>
    ensures ok { IfOk result (λ made. made ≡ word_of met.now) }
{
    Ok(Word {
        role: role_at(met.part, sort_of(met.text.bytes())),
        text: met.text.copy(alloc)?,
        at: met.at,
    })
}

/// The words of a text, each with its role.
pub fn words_of(alloc: Global, met: &List<Met>) -> Result<List<Word>, NoMemory>
    ensures ok { IfOk result (λ made. made ≡ words_of met.now) }
{
    let mut made = List::empty(alloc);
    for place in 0..met.len() {
        made.push(word_of(alloc, met.item(place))?)?;
    }
    Ok(made)
}
