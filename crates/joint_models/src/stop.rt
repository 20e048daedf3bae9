//! Why two models have no joint vocabulary.

ghost use Rattle.std.specs.Prelude.{◌≡◌};
ghost use Rattle.joint_models.specs.declared.stop.PairStop.TheVariants.{NoMemory as Stopped};

use mre_base::{NoMemory, Text};

/// The first disagreement of two models: what each of them has there, or `none`.
#[derive(Debug)]
pub struct PairFault {
    pub planner: Text,
    pub user: Text,
}

impl Drop for PairFault {
    fn drop(self) {
        let PairFault {
            planner: _,
            user: _,
        } = self;
    }
}

/// Why two models have no joint vocabulary: they disagree, or memory ran out.
#[derive(Debug, Drop)]
pub enum PairStop {
    Differs(PairFault),
    NoMemory,
}

impl From<NoMemory> for PairStop {
    ghost from_gives = { λ _ stop. stop ≡ Stopped };

    fn from(_refusal: NoMemory) -> PairStop {
        PairStop::NoMemory
    }
}
