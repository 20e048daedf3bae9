//! Laws of the two tasks of a cube, as functions whose contracts state them.

ghost use Rattle.case_kit.specs.Laws.{ChildLaw, ListLaw, MemberLaw, RelaxedLaw};
ghost use Rattle.case_kit.specs.Sums.{SumLaw};

/// The two tasks of a cube, which are made case by case, are exactly those that its members
/// determine.
pub fn law_relaxed()
    ensures { RelaxedLaw }
{}

/// A member depends only on the numbers from 1 to d. If a cube has decided all of them, both its
/// tasks are its only member.
pub fn law_members()
    ensures { MemberLaw }
{}

/// A list that is valid in a member is valid in the permissive task, and a list that is valid in
/// the restrictive task is valid in each member, at no greater cost. The two tasks of an inner cube
/// are between those of the outer one.
pub fn law_lists()
    ensures { ListLaw }
{}

/// The cost of a list in a member is between its least and its greatest cost over the cube, where
/// an absent cost is above every number, and so are its least and greatest costs over an inner
/// cube.
pub fn law_sums()
    ensures { SumLaw }
{}

/// Deciding one more difference leaves each action unchanged in which that difference has no part.
pub fn law_child()
    ensures { ChildLaw }
{}
