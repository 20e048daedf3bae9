//! A domain: its vocabulary and the bodies of its actions.

ghost use Rattle.std.specs.Prelude.{IsTrue};
ghost use Rattle.pddl_models.specs.Bodies.{are_bodies};

use crate::body::Body;
use model_kit::Vocabulary;
use mre_base::List;

/// A domain: its vocabulary, and the body of each action.
#[derive(Debug)]
pub struct Domain {
    pub words: Vocabulary,
    /// One body for each action of the words, in their order.
    pub bodies: List<Body>,
    pub ghost sound: { IsTrue (are_bodies words bodies) },
}

impl Drop for Domain {
    fn drop(self) {
        let Domain {
            words: _,
            bodies: _,
        } = self;
    }
}
