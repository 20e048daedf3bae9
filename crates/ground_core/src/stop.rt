//! Why a pair has no table.

ghost use Rattle.std.specs.Prelude.{◌≡◌};
ghost use Rattle.ground_core.specs.Stops.{no_memory, stop_of};

use mre_base::NoMemory;
use reach_kit::ReachStop;

/// Why two models have no table. If both limits are passed, either of them may be named.
#[derive(Clone, Copy, Debug, PartialEq, Eq)]
pub enum GroundStop {
    /// More ground actions than this are reachable.
    TooManyActions { limit: u32 },
    /// More ground atoms than this are reachable.
    TooManyAtoms { limit: u32 },
    NoMemory,
}

impl From<NoMemory> for GroundStop {
    ghost from_gives = { λ _ stop. stop ≡ no_memory };

    fn from(_refusal: NoMemory) -> GroundStop {
        GroundStop::NoMemory
    }
}

impl From<ReachStop> for GroundStop {
    ghost from_gives = { λ given stop. stop ≡ stop_of given };

    fn from(given: ReachStop) -> GroundStop {
        match given {
            ReachStop::TooManyAtoms { limit } => GroundStop::TooManyAtoms { limit },
            ReachStop::TooManyActions { limit } => GroundStop::TooManyActions { limit },
            ReachStop::NoMemory => GroundStop::NoMemory,
        }
    }
}
