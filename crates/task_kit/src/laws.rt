//! The laws of bounds and of cuts, as functions whose contracts state them.

ghost use Rattle.task_kit.specs.Bounds.{BoundLaw};
ghost use Rattle.task_kit.specs.Cuts.{CutLaw};

/// If numbered states include the start and, of each of them, every successor below a bound, then
/// no valid list costs less than the bound.
pub fn law_bounds()
    ensures { BoundLaw }
{}

/// Every list from a state to the goal costs at least the sum of the weights of the state's lawful
/// cuts.
pub fn law_cuts()
    ensures { CutLaw }
{}
