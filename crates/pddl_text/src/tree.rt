//! The words and lists of a text.
use crate::Place;
use mre_base::{List, Text};

/// A word or a list of a text, with its place.
#[derive(Debug, Drop)]
pub enum Tree {
    /// A longest run of word bytes, in ASCII lower case. Its bytes have the positions from `first`
    /// on and before `past`.
    Word {
        text: Text,
        at: Place,
        first: u32,
        past: u32,
    },
    /// The trees between a `(` and its `)`, with the places of both.
    Items {
        list: List<Tree>,
        at: Place,
        close: Place,
    },
}

/// The words and lists of a whole text, in their order, and the place just past its last byte.
#[derive(Debug, Drop)]
pub struct Forest {
    pub trees: List<Tree>,
    pub past: Place,
}
