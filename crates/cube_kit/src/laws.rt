//! The laws of the order of sets and of cubes, as functions whose contracts state them.
ghost use Rattle.cube_kit.specs.Laws.{CubeLaw, OrderLaw};

/// The order of sets of differences is strict and total, and each set is before every greater one.
/// Weights of numbers beyond those of the two sets play no part. If every weight is 1, the order is
/// by size and then by numbers.
pub fn law_order()
    ensures { OrderLaw }
{}

/// The members of each cube. The two children of a cube split its members between them, and the set
/// of a cube's told numbers is the first of its members.
pub fn law_cubes()
    ensures { CubeLaw }
{}
