//! Two models in the numbers of their joint vocabulary.

ghost use Rattle.std.specs.Prelude.{◌≡◌, [], IfOk};
ghost use Rattle.model_kit.specs.Pairs.{Agree, ArePaired};
ghost use Rattle.joint_models.specs.Disagreements.{IfDiffers, IsFirstDisagreement};
ghost use Rattle.joint_models.specs.Lists.{AreListsOf};

use crate::PairStop;
use crate::agreeing::agree;
use crate::lists::Lists;
use crate::models::{NumberedModel, model_in};
use crate::numbers::Numbers;
use crate::words::joint_words;
use model_kit::Model;
use std::alloc::Global;

/// Two models in the numbers of their joint vocabulary, which both have as their words.
#[derive(Debug, Drop)]
pub struct JointModels {
    pub planner: Model,
    pub user: Model,
}

/// Puts two models that agree into the numbers of their joint vocabulary: the planner's types,
/// objects and numbers, and after them what only the user has. Else it answers the first
/// disagreement. Numbers past 32 bits count as running out of memory.
pub fn join_models(alloc: Global, planner: Model, user: Model) -> Result<JointModels, PairStop>
    requires planner_whole { planner.unknown ≡ [] }
    requires user_whole { user.unknown ≡ [] }
    ensures ok { IfOk result (λ joint. ArePaired planner user joint.planner.words joint.planner
        joint.user) }
    ensures differs { IfDiffers result (IsFirstDisagreement planner.words user.words) }
    ensures disagree { IfDiffers result (λ fault. ¬ Agree planner.words user.words) }
{
    let planner_lists = Lists::of(alloc, &planner.words)?;
    let user_lists = Lists::of(alloc, &user.words)?;
    agree(
        alloc,
        &planner.words,
        &user.words,
        &planner_lists,
        &user_lists,
    )?;
    joined(alloc, &planner, &user, &planner_lists, &user_lists)
}

// Two models that agree, in the numbers of their joint vocabulary.
fn joined(
    alloc: Global,
    planner: &Model,
    user: &Model,
    planner_lists: &Lists,
    user_lists: &Lists,
) -> Result<JointModels, PairStop>
    requires agree { Agree planner.now.words user.now.words }
    requires planner_whole { planner.now.unknown ≡ [] }
    requires user_whole { user.now.unknown ≡ [] }
    requires planner_are { AreListsOf planner.now.words planner_lists.now }
    requires user_are { AreListsOf user.now.words user_lists.now }
    ensures ok { IfOk result (λ joint. ArePaired planner.now user.now joint.planner.words
        joint.planner joint.user) }
    ensures differs { IfDiffers result (λ fault. ⊥) }
{
    let words = joint_words(
        alloc,
        &planner.words,
        &user.words,
        planner_lists,
        user_lists,
    )?;
    let user_words = joint_words(
        alloc,
        &planner.words,
        &user.words,
        planner_lists,
        user_lists,
    )?;
    let joint_lists = Lists::of(alloc, &words)?;
    let planner_numbers = Numbers::between(alloc, planner_lists, &joint_lists)?;
    let user_numbers = Numbers::between(alloc, user_lists, &joint_lists)?;
    let own = NumberedModel {
        model: planner,
        lists: planner_lists,
        numbers: &planner_numbers,
    };
    let other = NumberedModel {
        model: user,
        lists: user_lists,
        numbers: &user_numbers,
    };
    let joint_planner = model_in(alloc, words, own, other)?;
    let joint_user = model_in(alloc, user_words, other, own)?;
    Ok(JointModels {
        planner: joint_planner,
        user: joint_user,
    })
}
