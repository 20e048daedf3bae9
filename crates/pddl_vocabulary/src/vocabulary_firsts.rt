//! The first entries of names, and further objects.

ghost use Rattle.std.specs.Prelude.{◌≡◌, ◌<◌, ◌^◌, ◌++◌, filter, length, IfOk};
ghost use Rattle.pddl_names.specs.Kinds.{ArePlaces};
ghost use Rattle.pddl_names.specs.Numbers.{number_in, IsTableOf, entry_name};
ghost use Rattle.pddl_vocabulary.specs.Values.{firsts};
ghost use Rattle.pddl_vocabulary.specs.VocabularyFirsts.{same_by, is_place, is_no_entry};
ghost use Rattle.pddl_names.specs.Numbers.{text_name};

use mre_base::{Copied, List, NoMemory, Text};
use pddl_names::{NameTable, Named};
use std::alloc::Global;

// Whether the number of a name is this place.
fn is_at(table: &NameTable, name: &Text, place: usize) -> bool
    ensures { result ≡ is_place (number_in table.now name.now) place }
{
    match table.number(name) {
        Some(number) => number as usize == place,
        None => false,
    }
}

/// The first entry of each name.
pub fn firsts_of<T: Named + Copied>(alloc: Global, entries: &List<T>) -> Result<List<T>, NoMemory>
    requires few { length entries.now < 2 ^ 30 }
    ensures ok { IfOk result (λ made. made ≡ firsts (same_by T.name_of) entries.now) }
{
    let table = NameTable::of(alloc, entries)?;
    let mut made = List::empty(alloc);
    for place in 0..entries.len() {
        let entry = entries.item(place);
        if is_at(&table, entry.name(), place) {
            made.push(entry.copied(alloc)?)?;
        }
    }
    Ok(made)
}

/// Objects, and after them those further ones whose names none of them has.
pub fn with_further(
    alloc: Global,
    objects: &List<(Text, u32)>,
    further: &List<(Text, u32)>,
) -> Result<List<(Text, u32)>, NoMemory>
    requires few { length objects.now < 2 ^ 30 }
    ensures ok { IfOk result (λ made. made ≡ objects.now
        ++ filter (is_no_entry objects.now) further.now) }
{
    let table = NameTable::of(alloc, objects)?;
    let mut made = objects.copied(alloc)?;
    for place in 0..further.len() {
        let entry = further.item(place);
        if table.number(&entry.0).is_none() {
            made.push(entry.copied(alloc)?)?;
        }
    }
    Ok(made)
}
