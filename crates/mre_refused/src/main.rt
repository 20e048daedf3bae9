//! The main function of `mre` over files that it refuses: in the planner's model another valid list
//! of actions costs less than the plan.
#![tactic(auto)]

use mre_outside::{FileShelf, StdSink};
use mre_top::{Ending, end_process, words_of};

fn main(rt: HostRuntime) -> Ending {
    end_process(
        rt.alloc(),
        words_of(&rt),
        &mut FileShelf::new(rt.alloc(), &rt),
        &mut StdSink::output(rt.stdout()),
        &mut StdSink::errors(rt.stderr()),
    )
}
