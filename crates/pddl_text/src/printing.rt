//! The printed form of a fault.
ghost use Rattle.std.specs.Prelude.{◌≡◌, IfOk};
ghost use Rattle.std.specs.String.{string_bytes};
ghost use Rattle.pddl_text.specs.Printing.{rule_name, printed_fault};

use crate::{TextFault, TextRule};
use mre_base::NoMemory;
use std::alloc::Global;

impl TextRule {
    /// The rule's name, as a fault prints it.
    pub fn name(self) -> &'static str
        ensures { result.now ≡ rule_name self }
    {
        match self {
            TextRule::Byte => "byte",
            TextRule::Close => "close",
            TextRule::Deep => "deep",
            TextRule::Open => "open",
            TextRule::Form => "form",
            TextRule::Unsupported => "unsupported",
            TextRule::NotWhole => "not-whole",
            TextRule::Reserved => "reserved",
            TextRule::Twice => "twice",
            TextRule::TypeCycle => "type-cycle",
            TextRule::Undeclared => "undeclared",
            TextRule::WrongArity => "wrong-arity",
            TextRule::WrongType => "wrong-type",
        }
    }
}

impl TextFault {
    /// The fault as `LINE:COLUMN: RULE WORD`, without the word if it is empty.
    pub fn printed(&self, alloc: Global) -> Result<String, NoMemory>
        ensures ok { IfOk result (λ text. string_bytes text ≡ printed_fault self.now) }
    {
        let line = self.at.line;
        let column = self.at.column;
        let rule = self.rule.name();
        let word = self.word.as_str();
        if word.is_empty() {
            Ok(format!(in alloc; "{line}:{column}: {rule}")?)
        } else {
            Ok(format!(in alloc; "{line}:{column}: {rule} {word}")?)
        }
    }
}
