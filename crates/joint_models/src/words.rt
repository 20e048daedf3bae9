//! The joint vocabulary.

ghost use Rattle.std.specs.Prelude.{◌≡◌, ◌++◌, map, IfOk};
ghost use Rattle.model_kit.specs.Pairs.{Agree, IsJoint};
ghost use Rattle.joint_models.specs.Lists.{AreListsOf};
ghost use Rattle.joint_models.specs.Renaming.{joined_by};

use crate::listed::Listed;
use crate::lists::Lists;
use crate::numbers::{numbers_at, numbers_between};
use model_kit::{Signature, Vocabulary};
use mre_base::{Copied, List, NoMemory};
use std::alloc::Global;

/// The joint vocabulary of two vocabularies that agree.
pub(crate) fn joint_words(
    alloc: Global,
    planner: &Vocabulary,
    user: &Vocabulary,
    planner_lists: &Lists,
    user_lists: &Lists,
) -> Result<Vocabulary, NoMemory>
    requires planner_are { AreListsOf planner.now planner_lists.now }
    requires user_are { AreListsOf user.now user_lists.now }
    requires agree { Agree planner.now user.now }
    ensures ok { IfOk result (IsJoint planner.now user.now) }
{
    let types = numbers_between(alloc, &user_lists.types.entries, &planner_lists.types)?;
    Ok(Vocabulary {
        types: planner.types.copied(alloc)?,
        objects: planner.objects.copied(alloc)?,
        predicates: joined(alloc, &planner_lists.predicates, &user.predicates, &types)?,
        functions: joined(alloc, &planner_lists.functions, &user.functions, &types)?,
        actions: joined(alloc, &planner_lists.actions, &user.actions, &types)?,
    })
}

// What the planner lists, and after it what only the user lists, with types by new numbers.
fn joined(
    alloc: Global,
    planner: &Listed,
    user: &List<Signature>,
    types: &List<u32>,
) -> Result<List<Signature>, NoMemory>
    ensures ok { IfOk result (λ made. made ≡ joined_by types.now planner.now.entries user.now) }
{
    let mut made = planner.entries.copied(alloc)?;
    for place in 0..user.len() {
        let entry = user.item(place);
        if !planner.has(&entry.name) {
            made.push(Signature {
                name: entry.name.copy(alloc)?,
                params: numbers_at(alloc, types, &entry.params)?,
            })?;
        }
    }
    Ok(made)
}
