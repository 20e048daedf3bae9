//! The calls that a shelf or a sink in memory is to fail.
ghost use Rattle.std.specs.Prelude.{◌↔◌, IsTrue};

use mre_base::List;

/// Which calls on a shelf or a sink in memory fail, counted from 1.
#[derive(Debug, Drop)]
pub enum FailingCalls {
    /// The calls with these numbers.
    Listed(List<u32>),
    /// The call with this number and each later one.
    From(u32),
}

impl FailingCalls {
    ghost use Rattle.mre_outside.specs.Failing.{Fails};

    /// Whether the call of this number fails.
    pub fn fails(&self, call: u64) -> bool
        ensures { IsTrue result ↔ Fails self.now call }
    {
        match self {
            FailingCalls::Listed(numbers) => numbers
                .as_slice()
                .iter()
                .any(|number| u64::from(*number) == call),
            FailingCalls::From(first) => u64::from(*first) <= call,
        }
    }
}
