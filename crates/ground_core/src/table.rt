//! A grounded pair: its table and its names.

use crate::NameTable;
use case_kit::CaseTable;

/// The table of two models over their reachable atoms and actions, and the printed forms of these.
pub struct Ground {
    pub table: CaseTable,
    pub names: NameTable,
}

impl Drop for Ground {
    fn drop(self) {
        let Ground { table: _, names: _ } = self;
    }
}
