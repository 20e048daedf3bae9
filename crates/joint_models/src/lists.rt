//! All entries of a vocabulary, found by name.

ghost use Rattle.std.specs.Prelude.{◌≡◌, IfOk};
ghost use Rattle.joint_models.specs.Lists.{AreListsOf, listed_in};

use crate::group::Group;
use crate::listed::{Listed, typed_entries};
use model_kit::Vocabulary;
use mre_base::{Copied, NoMemory};
use std::alloc::Global;

/// All that a vocabulary lists, found by names.
pub(crate) struct Lists {
    pub(crate) types: Listed,
    pub(crate) objects: Listed,
    pub(crate) actions: Listed,
    pub(crate) predicates: Listed,
    pub(crate) functions: Listed,
}

impl Drop for Lists {
    fn drop(self) {
        let Lists {
            types: _,
            objects: _,
            actions: _,
            predicates: _,
            functions: _,
        } = self;
    }
}

impl Lists {
    pub(crate) fn of(alloc: Global, words: &Vocabulary) -> Result<Lists, NoMemory>
        ensures ok { IfOk result (AreListsOf words.now) }
    {
        Ok(Lists {
            types: Listed::of(alloc, typed_entries(alloc, &words.types)?)?,
            objects: Listed::of(alloc, typed_entries(alloc, &words.objects)?)?,
            actions: Listed::of(alloc, words.actions.copied(alloc)?)?,
            predicates: Listed::of(alloc, words.predicates.copied(alloc)?)?,
            functions: Listed::of(alloc, words.functions.copied(alloc)?)?,
        })
    }

    pub(crate) fn group(&self, group: Group) -> &Listed
        ensures { result.now ≡ listed_in group self.now }
    {
        match group {
            Group::Types => &self.types,
            Group::Objects => &self.objects,
            Group::Actions => &self.actions,
            Group::Predicates => &self.predicates,
            Group::Functions => &self.functions,
        }
    }
}
