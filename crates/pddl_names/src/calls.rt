//! A function at objects, the key of a table of values.

use mre_base::Text;

/// A function at objects: its name and theirs.
#[derive(Drop, PartialEq, Eq, PartialOrd, Ord)]
pub(crate) struct Call {
    pub(crate) words: Vec<Text>,
}
