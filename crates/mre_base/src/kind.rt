//! The two kinds of explanation, and the two decisions on a difference.
/// Which explanation is sought: a minimally complete one, or a minimally monotonic one.
#[derive(Clone, Copy, Debug, PartialEq, Eq, Hash)]
pub enum Kind {
    /// The first set of differences after which the plan is valid and cheapest.
    Mce,
    /// The first set after which it stays valid and cheapest, whichever further differences are
    /// told.
    Mme,
}

/// How a difference was decided.
#[derive(Clone, Copy, Debug, PartialEq, Eq, Hash)]
pub enum Side {
    /// The user's model takes the planner's value at the place.
    Told,
    /// The user's model keeps its own value at the place.
    Left,
}
