//! The laws of what searches log.
ghost use Rattle.search_log.specs.Laws.{ClosureLaw, DueLaw, LeanLaw, SearchLaw};

/// Each state of a task has exactly one free closure: what can be made true from it at no cost
/// where nothing is deleted.
pub fn law_closures()
    ensures { ClosureLaw }
{}

/// A node that a search may log stays due as the log goes on, and the atoms of a state that is due
/// are atoms of the task.
pub fn law_due()
    ensures { DueLaw }
{}

/// Proofs and lists that are lean by a log are lean by each log that goes on from it.
pub fn law_lean()
    ensures { LeanLaw }
{}

/// What a search adds to a log in two parts, each by the rules, it adds by the rules in all.
pub fn law_searches()
    ensures { SearchLaw }
{}
