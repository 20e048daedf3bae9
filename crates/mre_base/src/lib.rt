//! The sets, lists, texts and logs on which every crate of the explainer rests.
#![tactic(auto)]

mod bits;
mod copied;
mod kind;
mod list;
mod no_memory;
mod node;
mod node_log;
mod places;
mod steps;
mod text;
mod words;

pub use bits::Bits;
pub use copied::Copied;
pub use kind::{Kind, Side};
pub use list::List;
pub use no_memory::{NoMemory, narrowed};
pub use node::Node;
pub use node_log::{NodeLog, PushStop};
pub use places::{MOST_PLACES, Places};
pub use steps::Steps;
pub use text::Text;
