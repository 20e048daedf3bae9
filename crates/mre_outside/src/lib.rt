//! The world outside: shelves, which hold files under names, and sinks, which take bytes.
#![tactic(auto)]

mod failing;
mod file_shelf;
mod memory_shelf;
mod memory_sink;
mod shelf;
mod sink;
mod sound_sink;
mod std_sink;
mod stream;

pub use failing::FailingCalls;
pub use file_shelf::FileShelf;
pub use memory_shelf::MemoryShelf;
pub use memory_sink::MemorySink;
pub use shelf::{Act, PutStop, Shelf, ShelfCall, ShelfStop};
pub use sink::{Sink, SinkStop};
pub use sound_sink::SoundSink;
pub use std_sink::StdSink;
pub use stream::{WriteFailed, read_from, write_to};
