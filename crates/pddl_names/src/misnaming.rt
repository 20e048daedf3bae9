//! The fault of a word that breaks a rule of names.

ghost use Rattle.pddl_names.specs.Reading.{broken_at, Answers};

use mre_base::Text;
use pddl_text::{Place, ReadStop, TextFault, TextRule};
use std::alloc::Global;

/// The answer where this word breaks a rule of names.
pub fn misnamed(alloc: Global, word: &(Text, Place), rule: TextRule) -> ReadStop
    ensures { Answers result (broken_at word.now rule) }
{
    match word.0.copy(alloc) {
        Ok(text) => ReadStop::Fault(TextFault {
            at: word.1,
            rule,
            word: text,
        }),
        Err(_) => ReadStop::NoMemory,
    }
}
