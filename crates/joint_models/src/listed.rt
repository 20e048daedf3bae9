//! The entries of a group with their types by name.

ghost use Rattle.std.specs.Prelude.{◌≡◌, ◌<◌, ◌↔◌, length, map, IsTrue, IfOk, MatchOption, None};
ghost use Rattle.std.specs.Prelude.{Some};
ghost use Rattle.model_kit.specs.Pairs.{number_of, names, is_named};
ghost use Rattle.joint_models.specs.Listed.{ArePlaces, typed_entry, entry_named};

use model_kit::Signature;
use mre_base::{List, NoMemory, Text};
use std::alloc::Global;
use std::collections::BTreeMap;

/// Entries with names and the numbers of types, found by their names.
pub(crate) struct Listed {
    pub(crate) entries: List<Signature>,
    places: BTreeMap<String, usize>,
    ghost found: { ArePlaces entries places },
}

impl Drop for Listed {
    fn drop(self) {
        let Listed {
            entries: _,
            places: _,
        } = self;
    }
}

impl Listed {
    pub(crate) fn of(alloc: Global, entries: List<Signature>) -> Result<Listed, NoMemory>
        ensures ok { IfOk result (λ made. made.entries ≡ entries) }
    {
        let mut places = BTreeMap::new(alloc);
        for place in (0..entries.len()).rev() {
            let name = String::from_str(alloc, entries.item(place).name.as_str())?;
            places.insert(name, place)?;
        }
        Ok(Listed { entries, places })
    }

    /// The number of the entry with a name, or the number of entries if none has it.
    pub(crate) fn number(&self, name: &Text) -> usize
        ensures { result ≡ number_of (names self.now.entries) name.now }
    {
        match self.places.get(name.as_str()) {
            Some(place) => *place,
            None => self.entries.len(),
        }
    }

    pub(crate) fn has(&self, name: &Text) -> bool
        ensures { result ≡ is_named self.now.entries name.now }
    {
        self.number(name) < self.entries.len()
    }

    /// The entry with a name.
    pub(crate) fn entry(&self, name: &Text) -> Option<&Signature>
        ensures { MatchOption result (entry_named self.now.entries name.now ≡ None)
            (λ s. entry_named self.now.entries name.now ≡ Some s.now) }
    {
        let number = self.number(name);
        if number < self.entries.len() {
            Some(self.entries.item(number))
        } else {
            None
        }
    }
}

/// Types or objects, each with one type: a type's parent, or the object's own type.
pub(crate) fn typed_entries(
    alloc: Global,
    list: &List<(Text, u32)>,
) -> Result<List<Signature>, NoMemory>
    ensures ok { IfOk result (λ made. made ≡ map typed_entry list.now) }
{
    let mut made = List::empty(alloc);
    for place in 0..list.len() {
        made.push(typed_entry(alloc, list.item(place))?)?;
    }
    Ok(made)
}

fn typed_entry(alloc: Global, entry: &(Text, u32)) -> Result<Signature, NoMemory>
    ensures ok { IfOk result (λ made. made ≡ typed_entry entry.now) }
{
    let mut params = List::empty(alloc);
    params.push(entry.1)?;
    Ok(Signature {
        name: entry.0.copy(alloc)?,
        params,
    })
}
