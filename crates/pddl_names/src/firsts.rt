//! Lists of declared things with the first entry of each name.

ghost use Rattle.std.specs.Prelude.{◌≡◌, ◌<◌, ◌^◌, length, IfOk, IfSome, slice_get};
ghost use Rattle.std.specs.Option.{option_map};
ghost use Rattle.pddl_names.specs.Firsts.{typed_name, signed_name};
ghost use Rattle.pddl_names.specs.Listings.{first_of};
ghost use Rattle.pddl_names.specs.Numbers.{number_of, IsTableOf};

use crate::names::{NameTable, Named};
use mre_base::{List, NoMemory, Text};
use std::alloc::Global;

// More entries than any text has.
const MANY: usize = 1 << 29;

/// A type with its parent, or an object with its type.
impl Named for (Text, Text) {
    ghost use Rattle.pddl_names.specs.Firsts.{typed_name};

    ghost name_of = { typed_name };

    fn name(&self) -> &Text {
        &self.0
    }
}

/// A predicate or a function with the types of its parameters.
impl Named for (Text, List<Text>) {
    ghost use Rattle.pddl_names.specs.Firsts.{signed_name};

    ghost name_of = { signed_name };

    fn name(&self) -> &Text {
        &self.0
    }
}

/// Types with their parents or objects with their types, and the first of each name.
pub struct TypedList {
    pub entries: List<(Text, Text)>,
    table: NameTable,
    pub ghost sound: { IsTableOf typed_name entries table },
}

impl Drop for TypedList {
    fn drop(self) {
        let TypedList {
            entries: _,
            table: _,
        } = self;
    }
}

impl TypedList {
    /// Memory runs out where there are more entries than any text has.
    pub fn of(alloc: Global, entries: List<(Text, Text)>) -> Result<TypedList, NoMemory>
        ensures ok { IfOk result (λ made. made.entries ≡ entries) }
        ensures few { IfOk result (λ made. length made.entries < 2 ^ 30) }
    {
        if entries.len() >= MANY {
            return Err(NoMemory);
        }
        let table = NameTable::of(alloc, &entries)?;
        Ok(TypedList { entries, table })
    }

    /// The number of the first entry of a name.
    pub fn number(&self, name: &Text) -> Option<u32>
        ensures { result ≡ number_of typed_name self.now.entries name.now }
    {
        self.table.number(name)
    }

    /// The type or the parent of the first entry of a name.
    pub fn first(&self, name: &Text) -> Option<&Text>
        ensures { option_map (λ text. text.now) result ≡ first_of self.now.entries name.now }
    {
        match self.table.number(name) {
            Some(number) => Some(&self.entries.item(number as usize).1),
            None => None,
        }
    }
}

/// Predicates or functions with the types of their parameters, and the first of each name.
pub struct SignedList {
    pub entries: List<(Text, List<Text>)>,
    table: NameTable,
    pub ghost sound: { IsTableOf signed_name entries table },
}

impl Drop for SignedList {
    fn drop(self) {
        let SignedList {
            entries: _,
            table: _,
        } = self;
    }
}

impl SignedList {
    /// Memory runs out where there are more entries than any text has.
    pub fn of(alloc: Global, entries: List<(Text, List<Text>)>) -> Result<SignedList, NoMemory>
        ensures ok { IfOk result (λ made. made.entries ≡ entries) }
    {
        if entries.len() >= MANY {
            return Err(NoMemory);
        }
        let table = NameTable::of(alloc, &entries)?;
        Ok(SignedList { entries, table })
    }

    /// The types of the parameters of the first entry of a name.
    pub fn first(&self, name: &Text) -> Option<&List<Text>>
        ensures { option_map (λ types. types.now) result ≡ first_of self.now.entries name.now }
    {
        match self.table.number(name) {
            Some(number) => Some(&self.entries.item(number as usize).1),
            None => None,
        }
    }
}
