//! Judgements of plans on small models.

ghost use Rattle.std.specs.Prelude.{[], ◌∷◌};
ghost use Rattle.model_kit.specs.declared.judging.NamedJudgement.TheVariants.{Valid, Fails, NoCost};
ghost use Rattle.model_kit.specs.declared.judging.NamedJudgement.TheVariants.{GoalMissing};
ghost use Rattle.model_kit.specs.Places.{meaning};
ghost use Rattle.model_kit.specs.Judgement.{Judges};
ghost use Rattle.model_examples.specs.Build.{step, fact};
ghost use Rattle.model_examples.specs.Belief as belief;
ghost use Rattle.model_examples.specs.Hidden as hidden;
ghost use Rattle.model_examples.specs.Together as together;
ghost use Rattle.model_examples.specs.Roads as roads;

/// A plan is valid, with its cost, or its judgement names the first thing that is wrong.
pub fn judgements_of_plans()
    ensures valid { Judges roads.words (meaning roads.planner) roads.way (Valid 5) }
    ensures other_cost { ¬ Judges roads.words (meaning roads.planner) roads.way (Valid 6) }
    ensures second { Judges roads.words (meaning roads.planner) (roads.go 0 1 ∷ roads.go 0 2 ∷ [])
        (Fails 2 (roads.at 0)) }
    ensures no_cost { Judges belief.words (meaning hidden.planner) (step 1 ∷ []) (NoCost 1) }
    ensures goal { Judges roads.words (meaning roads.planner) [] (GoalMissing (roads.at 2)) }
    ensures first { Judges together.words (meaning together.user) (step 1 ∷ [])
        (Fails 1 (fact 1 [])) }
    ensures not_first { ¬ Judges together.words (meaning together.user) (step 1 ∷ [])
        (Fails 1 (fact 2 [])) }
{}
