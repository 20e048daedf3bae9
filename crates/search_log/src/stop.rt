//! How a search may stop before it has an answer.

use mre_base::Node;

/// Why a search stopped without an answer.
#[derive(Debug, Drop)]
pub enum SearchStop {
    /// The log has as many nodes as its limit, and this node would have been the next one.
    Spent { due: Node },
    NoMemory,
}

impl From<mre_base::NoMemory> for SearchStop {
    ghost use Rattle.std.specs.Prelude.{◌≡◌};
    ghost use Rattle.search_log.specs.declared.stop.SearchStop.TheVariants as stops;

    ghost from_gives = { λ failure stop. stop ≡ stops.NoMemory };

    fn from(_failure: mre_base::NoMemory) -> SearchStop {
        SearchStop::NoMemory
    }
}
