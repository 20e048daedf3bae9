//! Costs, steps, valid and cheapest plans of small models.

ghost use Rattle.std.specs.Prelude.{◌≡◌, Some, None, [], ◌∷◌};
ghost use Rattle.model_kit.specs.Places.{meaning};
ghost use Rattle.model_kit.specs.Runs.{cost_of, Needs, Applies, Initial, IsValid, cost, IsCheapest};
ghost use Rattle.model_examples.specs.Build.{step};
ghost use Rattle.model_examples.specs.Hidden as hidden;
ghost use Rattle.model_examples.specs.Roads as roads;

/// Costs are numbers or values at the objects; an absent value is no cost, and an unknown action
/// has none.
pub fn costs()
    ensures value { cost_of (meaning roads.planner) (roads.go 0 1) ≡ Some 2 }
    ensures absent { cost_of (meaning roads.user) (roads.go 1 0) ≡ None }
    ensures known { cost_of (meaning hidden.user) (step 1) ≡ Some 1 }
    ensures unknown { cost_of (meaning hidden.planner) (step 1) ≡ None }
    ensures no_action { cost_of (meaning hidden.planner) (step 2) ≡ None }
{}

/// An action applies where its preconditions are true and it has a cost; what it deletes and adds
/// is true afterwards.
pub fn steps()
    ensures needed { Needs (meaning roads.planner) (roads.go 0 1) (roads.at 0) }
    ensures not_needed { ¬ Needs (meaning roads.planner) (roads.go 0 1) (roads.at 1) }
    ensures applies { Applies (meaning roads.user) (λ atom. atom ≡ roads.at 0) (roads.go 0 1) }
    ensures unmet { ¬ Applies (meaning roads.user) (λ atom. atom ≡ roads.at 1) (roads.go 0 1) }
    ensures unpriced { ¬ Applies (meaning roads.user) (λ atom. atom ≡ roads.at 1) (roads.go 1 0) }
    ensures added { roads.after (roads.go 0 1) (roads.at 1) }
    ensures deleted { ¬ roads.after (roads.go 0 1) (roads.at 0) }
    ensures deleted_and_added { roads.after (roads.go 0 0) (roads.at 0) }
    ensures kept { roads.after (roads.go 1 2) (roads.at 0) }
    ensures never_added { ¬ roads.after (roads.go 0 1) (roads.at 2) }
{}

/// A valid list applies step by step and ends with the goal; its cost is the sum of its steps'.
pub fn valid_plans()
    ensures two_steps { IsValid (meaning roads.planner) roads.way }
    ensures wrong_order { ¬ IsValid (meaning roads.planner) (roads.go 1 2 ∷ roads.go 0 1 ∷ []) }
    ensures no_goal { ¬ IsValid (meaning roads.planner) (roads.go 0 1 ∷ []) }
    ensures nothing_wanted { IsValid (meaning roads.user) [] }
    ensures sum { cost (meaning roads.planner) roads.way ≡ 5 }
{}

/// A cheapest plan is valid and no valid list costs less; another may cost as much.
pub fn cheapest_plans()
    ensures cheapest { IsCheapest roads.words (meaning roads.planner) roads.way }
    ensures dearer { ¬ IsCheapest roads.words (meaning roads.planner) (roads.go 0 2 ∷ []) }
    ensures not_valid { ¬ IsCheapest roads.words (meaning roads.planner) (roads.go 0 1 ∷ []) }
    ensures tied { IsCheapest roads.words (meaning roads.tied) roads.way }
    ensures tied_too { IsCheapest roads.words (meaning roads.tied) (roads.go 0 2 ∷ []) }
{}
