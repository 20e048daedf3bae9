//! Laws of tables of two models: lists run alike in the table and in the models.

ghost use Rattle.named_tables.specs.Example.{ExampleLaw};
ghost use Rattle.named_tables.specs.Laws.{PricedLaw, ReachLaw, RunLaw};

/// The search for what is reachable by the rules of two models finds what is reachable in them.
pub fn law_reachable()
    ensures { ReachLaw }
{}

/// In a table of two models that lists the reachable atoms and actions, a list of numbers is to
/// each member what the list of ground actions with these numbers is to the user's model after the
/// same differences: valid there exactly where it is valid here, at the same cost, and cheapest
/// there exactly where it is cheapest here. Every valid list has numbers.
pub fn law_runs()
    ensures { RunLaw }
{}

/// A ground action has a cost after some set of differences exactly where there is a number in the
/// cost that a table gives it.
pub fn law_priced()
    ensures { PricedLaw }
{}

/// Two models where the user believes one fact too many, their reachable atoms and actions, and
/// their table.
pub fn law_example()
    ensures { ExampleLaw }
{}
