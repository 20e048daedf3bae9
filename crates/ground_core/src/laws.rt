//! Laws of grounding: lists of ground actions run as their numbers do and are explained as their
//! numbers are, and plans are listed.

ghost use Rattle.ground_core.specs.Full.{ListedAllLaw, FullLaw};
ghost use Rattle.ground_core.specs.Laws.{PlanLaw, GroundingLaw, ListedLaw, ExplanationLaw};
ghost use Rattle.ground_core.specs.Laws.{CheapestLaw};

/// The numbers that a ground's names give a plan are those of its actions in the ground's table.
pub fn law_plans()
    ensures { PlanLaw }
{}

/// Whatever is told, a list of ground actions is valid in the user's model after it exactly where
/// all its actions are listed and its numbers are valid in both relaxed tasks of the cube of that
/// one set, at the same cost. So the table may stand in for the models.
pub fn law_grounding()
    ensures { GroundingLaw }
{}

/// A plan that is valid in the planner's model has only listed actions, so it can be numbered.
pub fn law_listed()
    ensures { ListedLaw }
{}

/// A plan has the same complete and monotonic sets of differences, the same first ones of both and
/// the same costs after them as its numbers have in the table.
pub fn law_explanations()
    ensures { ExplanationLaw }
{}

/// A list that is cheapest in the table after all differences is that of a cheapest plan of the
/// planner's model.
pub fn law_cheapest()
    ensures { CheapestLaw }
{}

/// Two models over one vocabulary have a list of the atoms and ground actions that are reachable in
/// them. So either more is reachable than a table may list, or not.
pub fn law_full()
    ensures listed { ListedAllLaw }
    ensures decided { FullLaw }
{}
