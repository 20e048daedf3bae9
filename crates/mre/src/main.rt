//! The program `mre`: the top call over the words, the files and the streams of the system.
#![tactic(auto)]

use mre_outside::{FileShelf, StdSink};
use mre_top::{Ending, end_process, words_of};

fn main(rt: HostRuntime) -> Ending {
    end_process(
        rt.alloc(),
        words_of(&rt),
        &mut FileShelf::new(rt.alloc(), &rt),
        &mut StdSink::output(rt.stdout()),
        &mut StdSink::errors(rt.stderr()),
    )
}
