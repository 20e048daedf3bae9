//! A pair of models that agree, its differences, and the user's model after some of them.

ghost use Rattle.std.specs.Prelude.{ℕ, ◌≡◌, ◌≤◌, [], ◌∷◌, length, IsTrue, IfOk};
ghost use Rattle.std.specs.FinSet as set;
ghost use Rattle.model_kit.specs.Places.{meaning};
ghost use Rattle.model_kit.specs.Differences.{patched};
ghost use Rattle.model_kit.specs.Pairs.{Agree, ArePaired};
ghost use Rattle.joint_models.specs.Disagreements.{IfDiffers, IsFirstDisagreement};

use crate::Difference;
use crate::blending::blend_models;
use crate::gathered::{Gathered, MOST_DIFFERENCES};
use crate::gathering::gather;
use joint_models::{PairStop, join_models};
use model_kit::{Model, Vocabulary};
use mre_base::{List, NoMemory, Places};
use std::alloc::Global;

/// The planner's model and the user's, both in the numbers of their joint vocabulary: the planner's
/// entries with their numbers, and after them the predicates, functions and actions that only the
/// user has.
#[derive(Debug)]
pub struct Pair {
    pub planner: Model,
    pub user: Model,
    pub ghost joint: { user.words ≡ planner.words },
}

impl Drop for Pair {
    fn drop(self) {
        let Pair {
            planner: _,
            user: _,
        } = self;
    }
}

/// Why the differences are not listed.
#[derive(Clone, Copy, Debug, PartialEq, Eq)]
pub enum DiffStop {
    /// There are more of them than the limit of 256.
    TooMany { found: u32, limit: u32 },
    NoMemory,
}

impl From<NoMemory> for DiffStop {
    ghost use Rattle.std.specs.Prelude.{◌≡◌};
    ghost use Rattle.feature_diff.specs.declared.pair.DiffStop.TheVariants.{NoMemory};

    ghost from_gives = { λ _ stop. stop ≡ NoMemory };

    fn from(_refusal: NoMemory) -> DiffStop {
        DiffStop::NoMemory
    }
}

impl Pair {
    ghost use Rattle.feature_diff.specs.Differing.{AreDifferencesOf, IfTooMany, AreTooMany};
    ghost use Rattle.feature_diff.specs.Differing.{IsToldOf, places_of};
    ghost use Rattle.std.specs.Prelude.{List as ListOf};
    ghost use Rattle.feature_diff.specs.declared.difference.Difference.{Difference as AnyDifference};

    /// Puts two models that know all their actions into the numbers of their joint vocabulary. They
    /// are dropped on a refusal.
    pub fn pair(alloc: Global, planner: Model, user: Model) -> Result<Pair, PairStop>
        requires planner_whole { planner.unknown ≡ [] }
        requires user_whole { user.unknown ≡ [] }
        ensures ok { IfOk result (λ pair. ArePaired planner user pair.planner.words pair.planner
            pair.user) }
        ensures differs { IfDiffers result (IsFirstDisagreement planner.words user.words) }
        ensures disagree { IfDiffers result (λ fault. ¬ Agree planner.words user.words) }
    {
        let joint = join_models(alloc, planner, user)?;
        Ok(Pair {
            planner: joint.planner,
            user: joint.user,
        })
    }

    pub fn planner(&self) -> &Model
        ensures { result.now ≡ self.now.planner }
    {
        &self.planner
    }

    pub fn user(&self) -> &Model
        ensures { result.now ≡ self.now.user }
    {
        &self.user
    }

    /// The joint vocabulary.
    pub fn words(&self) -> &Vocabulary
        ensures { result.now ≡ self.now.planner.words }
    {
        &self.planner.words
    }

    /// All differences in their order, each with its content in both models.
    pub fn differences(&self, alloc: Global) -> Result<List<Difference>, DiffStop>
        ensures ok { IfOk result (AreDifferencesOf self.now.planner self.now.user) }
        ensures few { IfOk result (λ differences. length differences ≤ 256) }
        ensures too_many { IfTooMany result
            (λ found limit. (limit ≡ 256) × AreTooMany self.now.planner self.now.user found) }
    {
        let Gathered { found, kept } = gather(alloc, &self.planner, &self.user)?;
        if found > MOST_DIFFERENCES {
            return Err(DiffStop::TooMany {
                found,
                limit: MOST_DIFFERENCES,
            });
        }
        Ok(kept)
    }

    /// The user's model after the differences with these numbers are told. It lists all differences
    /// to know their numbers.
    pub fn patched(&self, alloc: Global, told: &Places) -> Result<Model, NoMemory>
        requires within { IsToldOf self.now.planner self.now.user told.now }
        ensures words { IfOk result (λ model. model.words ≡ self.now.planner.words) }
        ensures ok { IfOk result (λ model. (differences : ListOf AnyDifference)
            → AreDifferencesOf self.now.planner self.now.user differences →
            meaning model ≡ patched (meaning self.now.planner) (meaning self.now.user) (places_of
            differences) told.now) }
    {
        let differences = match self.differences(alloc) {
            Ok(differences) => differences,
            Err(DiffStop::TooMany { .. }) => unreachable!(),
            Err(DiffStop::NoMemory) => return Err(NoMemory),
        };
        blend_models(alloc, &self.planner, &self.user, &differences, told)
    }
}
