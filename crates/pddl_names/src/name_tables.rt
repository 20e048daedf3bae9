//! The tables that the check of names keeps.

ghost use Rattle.std.specs.Prelude.{◌≡◌, ◌^◌, ◌<◌, length, IfOk};
ghost use Rattle.pddl_names.specs.Groups.{AreTermCounts};
ghost use Rattle.pddl_names.specs.Heads.{AreHeads};
ghost use Rattle.pddl_names.specs.Known.{declared_in, declared_before};
ghost use Rattle.pddl_names.specs.Listings.{declared};
ghost use Rattle.pddl_names.specs.Tables.{AreNames, AreTables};
ghost use Rattle.pddl_names.specs.TypeTrees.{IsSoundTree};

use crate::arities::Arities;
use crate::firsts::{SignedList, TypedList};
use crate::groups::{param_counts, term_counts, type_places};
use crate::heads::Heads;
use crate::kind::Kind;
use crate::known::{Base, Known};
use crate::names::NameTable;
use crate::role::Word;
use crate::type_tree::TypeTree;
use crate::values_twice::first_values;
use mre_base::{List, NoMemory, Text};
use std::alloc::Global;

/// What is declared, by name.
pub struct Names {
    pub types: TypedList,
    pub tree: TypeTree,
    pub objects: TypedList,
    pub predicates: SignedList,
    pub functions: SignedList,
    /// The type that each other is below.
    pub object: Text,
}

impl Drop for Names {
    fn drop(self) {
        let Names {
            types: _,
            tree: _,
            objects: _,
            predicates: _,
            functions: _,
            object: _,
        } = self;
    }
}

impl Names {
    pub fn of(alloc: Global, known: Known) -> Result<Names, NoMemory>
        ensures ok { IfOk result (AreNames (declared_in known)) }
        ensures sound { IfOk result (λ made. IsSoundTree made.tree) }
    {
        Ok(Names {
            tree: TypeTree::of(alloc, &known.types)?,
            types: TypedList::of(alloc, known.types)?,
            objects: TypedList::of(alloc, known.objects)?,
            predicates: SignedList::of(alloc, known.predicates)?,
            functions: SignedList::of(alloc, known.functions)?,
            object: Text::of(alloc, "object")?,
        })
    }
}

/// What is declared, and what is known of the words of a text by their places.
pub struct Tables {
    pub names: Names,
    /// The place of each word's type.
    pub types: Vec<u32>,
    pub heads: Heads,
    /// Where each predicate, function and action is declared first.
    pub predicates: NameTable,
    pub functions: NameTable,
    pub actions: NameTable,
    /// For each value, the place of the first with its function and objects.
    pub values: Vec<u32>,
}

impl Drop for Tables {
    fn drop(self) {
        let Tables {
            names: _,
            types: _,
            heads: _,
            predicates: _,
            functions: _,
            actions: _,
            values: _,
        } = self;
    }
}

impl Tables {
    pub fn of(alloc: Global, base: Base<'_>, words: &List<Word>) -> Result<Tables, NoMemory>
        requires few { length words.now < 2 ^ 30 }
        ensures ok { IfOk result (AreTables (declared (declared_before base.entry) words.now)
            words.now) }
    {
        let types = type_places(alloc, words)?;
        let terms = term_counts(alloc, words)?;
        let values = first_values(alloc, words, &terms)?;
        let known = Known::of_base(alloc, base)?.with_words(alloc, words, &types)?;
        Ok(Tables {
            names: Names::of(alloc, known)?,
            types,
            heads: heads_of(alloc, base, words, terms)?,
            predicates: NameTable::of_kind(alloc, words, Kind::Predicates)?,
            functions: NameTable::of_kind(alloc, words, Kind::Functions)?,
            actions: NameTable::of_kind(alloc, words, Kind::Actions)?,
            values,
        })
    }
}

// What is known of heads.
fn heads_of(
    alloc: Global,
    base: Base<'_>,
    words: &List<Word>,
    terms: Vec<u32>,
) -> Result<Heads, NoMemory>
    requires few { length words.now < 2 ^ 30 }
    requires terms { AreTermCounts words.now terms.items }
    ensures ok { IfOk result (AreHeads (declared (declared_before base.entry) words.now)
        words.now) }
{
    let params = param_counts(alloc, words)?;
    Ok(Heads {
        predicates: Arities::of(alloc, base.predicates, words, Kind::Predicates, &params)?,
        functions: Arities::of(alloc, base.functions, words, Kind::Functions, &params)?,
        terms,
        params,
    })
}

/// The action that a word belongs to: where the words after its name begin, and where its
/// parameters are first declared.
#[derive(Drop)]
pub struct CurrentAction {
    pub start: usize,
    pub params: NameTable,
}
