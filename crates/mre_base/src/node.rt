//! The steps of a search, as a log records them.
use crate::{Bits, Places};

/// One step of a search, as the log records it: the split of a cube of sets, the probe of a cube,
/// or the expansion of a state. `told` and `left` name the cube: the sets that contain all told
/// numbers and no left number.
#[derive(Debug, Drop, PartialEq, Eq, Hash)]
pub enum Node {
    /// The cube was split at a place. `up` says whether it belongs to a tree over the supersets of
    /// a set.
    Split {
        up: bool,
        told: Places,
        left: Places,
        place: u32,
    },
    /// A search for a cheaper plan began in the cube.
    Probe {
        told: Places,
        left: Places,
    },
    /// A state of that search was expanded: the atoms that are true, by their numbers.
    State {
        told: Places,
        left: Places,
        state: Bits,
    },
}
