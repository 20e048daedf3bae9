//! Complete and monotonic sets, MCEs and MMEs of small models.

ghost use Rattle.std.specs.Prelude.{[], ◌∷◌};
ghost use Rattle.model_kit.specs.Explanations.{IsPosed, IsComplete, IsMonotonic, IsMCE, IsMME};
ghost use Rattle.model_examples.specs.Told.{of, AreComplete, AreMonotonic};
ghost use Rattle.model_examples.specs.Jump as jump;
ghost use Rattle.model_examples.specs.Belief as belief;
ghost use Rattle.model_examples.specs.Hidden as hidden;
ghost use Rattle.model_examples.specs.Together as together;
ghost use Rattle.model_examples.specs.Roads as roads;

/// In the user's model a jump is cheap and needs nothing.
pub fn three_differences()
    ensures posed { IsPosed (jump.task jump.ones) }
    ensures complete { AreComplete (jump.task jump.ones) jump.complete }
    ensures monotonic { AreMonotonic (jump.task jump.ones) jump.monotonic }
    ensures mce { IsMCE (jump.task jump.ones) (of (2 ∷ [])) }
    ensures mme { IsMME (jump.task jump.ones) (of (3 ∷ [])) }
    ensures heavy { IsMCE (jump.task (1 ∷ 5 ∷ 1 ∷ [])) (of (3 ∷ [])) }
    ensures complete_alone { ¬ IsMCE (jump.task jump.ones) (of (3 ∷ [])) }
    ensures monotonic_alone { ¬ IsMME (jump.task jump.ones) (of (1 ∷ 3 ∷ [])) }
{}

/// The user believes in an initial fact that isn't true.
pub fn one_belief()
    ensures posed { IsPosed belief.task }
    ensures nothing_told { ¬ IsComplete belief.task (of []) }
    ensures mce { IsMCE belief.task (of (1 ∷ [])) }
{}

/// The user knows an action that doesn't exist.
pub fn unknown_action()
    ensures posed { IsPosed hidden.task }
    ensures nothing_told { ¬ IsComplete hidden.task (of []) }
    ensures mce { IsMCE hidden.task (of (1 ∷ [])) }
{}

/// Two further facts let a cheaper list run only together.
pub fn facts_together()
    ensures posed { IsPosed together.task }
    ensures complete { AreComplete together.task together.complete }
    ensures not_monotonic { ¬ IsMonotonic together.task (of []) }
    ensures mce { IsMCE together.task (of []) }
    ensures mme { IsMME together.task (of (3 ∷ [])) }
{}

/// The user doesn't want what the planner wants, and takes a long road for a short one.
pub fn goal_and_values()
    ensures posed { IsPosed roads.task }
    ensures complete { AreComplete roads.task roads.complete }
    ensures mce { IsMCE roads.task (of (1 ∷ 2 ∷ [])) }
    ensures mme { IsMME roads.task (of (1 ∷ 2 ∷ [])) }
{}
