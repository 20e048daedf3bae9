//! The vocabulary of a model: types, objects, predicates, functions and actions.

ghost use Rattle.std.specs.Prelude.{IsTrue};
ghost use Rattle.model_kit.specs.Words.{is_vocabulary};

use mre_base::{Copied, List, NoMemory, Text};
use std::alloc::Global;

/// The name of a predicate, function or action, and the types of its parameters by position.
#[derive(Debug)]
pub struct Signature {
    pub name: Text,
    pub params: List<u32>,
}

impl Drop for Signature {
    fn drop(self) {
        let Signature { name: _, params: _ } = self;
    }
}

impl Copied for Signature {
    fn copied(&self, alloc: Global) -> Result<Signature, NoMemory> {
        Ok(Signature {
            name: self.name.copy(alloc)?,
            params: self.params.copy(alloc)?,
        })
    }
}

/// The words of a model. Types, objects, predicates, functions and actions are numbered by their
/// places, from 0.
#[derive(Debug)]
pub struct Vocabulary {
    /// Each type with its parent. Type 0 is `object`, which is its own parent.
    pub types: List<(Text, u32)>,
    /// Each constant or object with its type.
    pub objects: List<(Text, u32)>,
    pub predicates: List<Signature>,
    /// The cost functions, without `total-cost`.
    pub functions: List<Signature>,
    pub actions: List<Signature>,
    pub ghost sound: { IsTrue (is_vocabulary types objects predicates functions actions) },
}

impl Drop for Vocabulary {
    fn drop(self) {
        let Vocabulary {
            types: _,
            objects: _,
            predicates: _,
            functions: _,
            actions: _,
        } = self;
    }
}

impl Copied for Vocabulary {
    fn copied(&self, alloc: Global) -> Result<Vocabulary, NoMemory> {
        Ok(Vocabulary {
            types: self.types.copied(alloc)?,
            objects: self.objects.copied(alloc)?,
            predicates: self.predicates.copied(alloc)?,
            functions: self.functions.copied(alloc)?,
            actions: self.actions.copied(alloc)?,
        })
    }
}
