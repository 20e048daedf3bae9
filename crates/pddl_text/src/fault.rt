//! The rules that a text can break, and how a reading stops.
ghost use Rattle.std.specs.Prelude.{◌≡◌};
ghost use Rattle.pddl_text.specs.Stops.{IsAnswered};
ghost use Rattle.pddl_text.specs.declared.fault.ReadStop.TheVariants.{NoMemory as Refused};
ghost use Rattle.pddl_text.specs.declared.fault.Stop.TheVariants.{NoMemory as Stopped};

use crate::Place;
use mre_base::{NoMemory, Text};
use std::alloc::{AllocError, AllocFailed, Global};

/// A rule that the text of a domain, a problem or a plan can break. This crate finds the first four
/// in any text, and `Form` in a plan.
#[derive(Clone, Copy, Debug, PartialEq, Eq)]
pub enum TextRule {
    /// A byte outside comments is neither white space, a parenthesis, `;` nor a word byte.
    Byte,
    /// A `)` where no list is open.
    Close,
    /// A `(` opens a list inside 64 open lists.
    Deep,
    /// The text ends with a list open.
    Open,
    /// A token that no text of the grammar has here.
    Form,
    /// A form of PDDL that is out of scope.
    Unsupported,
    /// A word where a whole number is due.
    NotWhole,
    /// A reserved word is declared.
    Reserved,
    /// A name is declared again, in another way.
    Twice,
    /// A type's chain of parents comes back to it.
    TypeCycle,
    /// Nothing declares a name.
    Undeclared,
    /// Another number of terms or objects than is declared.
    WrongArity,
    /// A term or an object of a type that does not fit.
    WrongType,
}

/// Where a text breaks a rule, and the word there. The word is empty if the rule prints none.
#[derive(Debug, Drop)]
pub struct TextFault {
    pub at: Place,
    pub rule: TextRule,
    pub word: Text,
}

/// Why a text has no value.
#[derive(Debug, Drop)]
pub enum ReadStop {
    Fault(TextFault),
    NoMemory,
}

impl From<NoMemory> for ReadStop {
    ghost from_gives = { λ _ stop. stop ≡ Refused };

    fn from(_refusal: NoMemory) -> ReadStop {
        ReadStop::NoMemory
    }
}

impl From<AllocError> for ReadStop {
    ghost from_gives = { λ _ stop. stop ≡ Refused };

    fn from(_refusal: AllocError) -> ReadStop {
        ReadStop::NoMemory
    }
}

impl<T: Drop> From<AllocFailed<T>> for ReadStop {
    ghost from_gives = { λ _ stop. stop ≡ Refused };

    fn from(_refusal: AllocFailed<T>) -> ReadStop {
        ReadStop::NoMemory
    }
}

/// Why a reading stops: a rule is broken, and where, or memory ran out.
#[derive(Clone, Copy)]
pub enum Stop {
    Fault { at: Place, rule: TextRule },
    NoMemory,
}

impl From<NoMemory> for Stop {
    ghost from_gives = { λ _ stop. stop ≡ Stopped };

    fn from(_refusal: NoMemory) -> Stop {
        Stop::NoMemory
    }
}

impl From<AllocError> for Stop {
    ghost from_gives = { λ _ stop. stop ≡ Stopped };

    fn from(_refusal: AllocError) -> Stop {
        Stop::NoMemory
    }
}

impl<T: Drop> From<AllocFailed<T>> for Stop {
    ghost from_gives = { λ _ stop. stop ≡ Stopped };

    fn from(_refusal: AllocFailed<T>) -> Stop {
        Stop::NoMemory
    }
}

impl Stop {
    /// What a reader answers when its reading stops this way.
    pub fn answer(self, alloc: Global) -> ReadStop
        ensures { IsAnswered self result }
    {
        match self {
            Stop::Fault { at, rule } => match Text::of(alloc, "") {
                Ok(word) => ReadStop::Fault(TextFault { at, rule, word }),
                Err(NoMemory) => ReadStop::NoMemory,
            },
            Stop::NoMemory => ReadStop::NoMemory,
        }
    }
}
