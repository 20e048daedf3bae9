//! Differences, their numbers, weights and the order of sets on small models.

ghost use Rattle.std.specs.Prelude.{◌≡◌, true, false, [], ◌∷◌};
ghost use Rattle.model_kit.specs.Places.{Init, Goal, Pre, Cost, meaning};
ghost use Rattle.model_kit.specs.Differences.{AreDifferences};
ghost use Rattle.model_kit.specs.Runs.{Has};
ghost use Rattle.model_kit.specs.Explanations.{AreWeights, IsPosed, IsWithin};
ghost use Rattle.mre_base.specs.Before.{is_before};
ghost use Rattle.model_examples.specs.Build.{fact, bare};
ghost use Rattle.model_examples.specs.Told.{of};
ghost use Rattle.model_examples.specs.Jump as jump;
ghost use Rattle.model_examples.specs.Kinds as kinds;

/// The list of the differences is whole and in order, and no other list is.
pub fn lists_of_differences()
    ensures each_kind { IsPosed kinds.task }
    ensures three { jump.AreListed jump.places }
    ensures swapped { ¬ jump.AreListed (Pre 1 (bare 1) ∷ Init (fact 1 []) ∷ Cost 1 ∷ []) }
    ensures one_missing { ¬ jump.AreListed (Init (fact 1 []) ∷ Pre 1 (bare 1) ∷ []) }
    ensures one_too_many { ¬ jump.AreListed (Init (fact 0 []) ∷ jump.places) }
{}

/// Told differences are as the planner has them, and all else is as the user has it.
pub fn told_differences()
    ensures told { Has (jump.after (2 ∷ [])) (Pre 1 (bare 1)) }
    ensures not_told { ¬ Has (jump.after (2 ∷ [])) (Init (fact 1 [])) }
    ensures no_difference { Has (jump.after (2 ∷ [])) (Goal (fact 2 [])) }
    ensures nothing_told { jump.after [] ≡ meaning jump.user }
    ensures all_told { jump.after (1 ∷ 2 ∷ 3 ∷ []) ≡ meaning jump.planner }
{}

/// Differences are numbered from 1.
pub fn numbers_of_differences()
    ensures three { IsWithin (jump.task jump.ones) (of (3 ∷ [])) }
    ensures none { IsWithin (jump.task jump.ones) (of []) }
    ensures four { ¬ IsWithin (jump.task jump.ones) (of (4 ∷ [])) }
    ensures zero { ¬ IsWithin (jump.task jump.ones) (of (0 ∷ [])) }
{}

/// Each difference has one weight from 1 to 1000000.
pub fn weights()
    ensures ones { AreWeights jump.places jump.ones }
    ensures largest { AreWeights jump.places (1 ∷ 1000000 ∷ 1 ∷ []) }
    ensures zero { ¬ AreWeights jump.places (1 ∷ 0 ∷ 1 ∷ []) }
    ensures too_large { ¬ AreWeights jump.places (1 ∷ 1000001 ∷ 1 ∷ []) }
    ensures too_few { ¬ AreWeights jump.places (1 ∷ 1 ∷ []) }
{}

/// The smaller weight is first, then the fewer numbers, then the earlier list of numbers.
pub fn order_of_sets()
    ensures lighter { is_before (1 ∷ 5 ∷ 1 ∷ []) (of (1 ∷ 3 ∷ [])) (of (2 ∷ [])) ≡ true }
    ensures heavier { is_before (1 ∷ 5 ∷ 1 ∷ []) (of (2 ∷ [])) (of (1 ∷ 3 ∷ [])) ≡ false }
    ensures fewer { is_before (1 ∷ 2 ∷ 1 ∷ []) (of (2 ∷ [])) (of (1 ∷ 3 ∷ [])) ≡ true }
    ensures earlier { is_before jump.ones (of (1 ∷ 3 ∷ [])) (of (2 ∷ 3 ∷ [])) ≡ true }
    ensures later { is_before jump.ones (of (2 ∷ 3 ∷ [])) (of (1 ∷ 3 ∷ [])) ≡ false }
    ensures same { is_before jump.ones (of (2 ∷ [])) (of (2 ∷ [])) ≡ false }
{}
