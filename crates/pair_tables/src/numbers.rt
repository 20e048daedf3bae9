//! The numbers of listed atoms.

ghost use Rattle.std.specs.Prelude.{◌≡◌, ◌≤◌, length, unwrap_or, IfOk};
ghost use Rattle.std.specs.BTreeMap.{get};
ghost use Rattle.model_kit.specs.Judging.{atom_cmp};
ghost use Rattle.pair_tables.specs.Numbers.{AreNumbers, number_by};

use model_kit::GroundAtom;
use mre_base::{List, NoMemory};
use std::alloc::Global;
use std::collections::BTreeMap;

/// The number of each listed atom, which is its place in the list, and the count of all listed
/// atoms, which is the number of every other atom.
pub(crate) struct AtomNumbers {
    places: BTreeMap<GroundAtom, u32>,
    count: u32,
}

impl Drop for AtomNumbers {
    fn drop(self) {
        let AtomNumbers {
            places: _,
            count: _,
        } = self;
    }
}

impl AtomNumbers {
    pub(crate) fn of(alloc: Global, atoms: &List<GroundAtom>) -> Result<AtomNumbers, NoMemory>
        requires few { length atoms.now ≤ 4096 }
        ensures { IfOk result (AreNumbers atoms.now) }
    {
        let mut places = BTreeMap::new(alloc);
        for place in (0..atoms.len()).rev() {
            places.insert(atoms.item(place).copy(alloc)?, place as u32)?;
        }
        Ok(AtomNumbers {
            places,
            count: atoms.len() as u32,
        })
    }

    pub(crate) fn number(&self, atom: &GroundAtom) -> u32
        ensures { result ≡ number_by self.now atom.now }
    {
        match self.places.get(atom) {
            Some(place) => *place,
            None => self.count,
        }
    }
}
