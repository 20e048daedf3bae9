//! The open lists of a text that is being read.
ghost use Rattle.std.specs.Prelude.{◌≡◌, ℕ, List as ListOf, ◌∷◌, OnOk, Err};
ghost use Rattle.pddl_text.specs.Reading.{reads};
ghost use Rattle.pddl_text.specs.Stops.{IfStopped};
ghost use Rattle.pddl_text.specs.Tokens as token;
ghost use Rattle.pddl_text.specs.declared.place.Place as place;

use crate::fault::Stop;
use crate::{Place, TextRule, Tree};
use mre_base::{List, NoMemory, Text};
use std::alloc::Global;
use std::mem;

/// An open list: the place of its `(`, and the trees before it in the list around it.
#[derive(Drop)]
pub struct Frame {
    pub at: Place,
    pub before: List<Tree>,
}

/// The open lists, the innermost last, and the trees so far of the innermost, or of the text if no
/// list is open.
#[derive(Drop)]
pub struct Grove {
    pub frames: Vec<Frame>,
    pub trees: List<Tree>,
}

impl Grove {
    /// How many lists can be open at once.
    pub const DEEPEST: usize = 64;

    pub fn put_word(&mut self, text: Text, at: Place, first: u32, past: u32) -> Result<(), NoMemory>
        ensures ok { OnOk result ((end : place.Place) (tokens : ListOf token.Token) →
            reads self.old end (token.Word text at first past ∷ tokens)
            ≡ reads self.new end tokens) }
    {
        self.trees.push(Tree::Word {
            text,
            at,
            first,
            past,
        })
    }

    pub fn open(&mut self, alloc: Global, at: Place) -> Result<(), Stop>
        ensures ok { OnOk result ((end : place.Place) (tokens : ListOf token.Token) →
            reads self.old end (token.Open at ∷ tokens) ≡ reads self.new end tokens) }
        ensures fault { IfStopped result (λ fault.
            (end : place.Place) (tokens : ListOf token.Token) →
            reads self.old end (token.Open at ∷ tokens) ≡ Err fault) }
    {
        if self.frames.len() >= Grove::DEEPEST {
            return Err(Stop::Fault {
                at,
                rule: TextRule::Deep,
            });
        }
        let before = mem::replace(&mut self.trees, List::empty(alloc));
        self.frames.push(Frame { at, before })?;
        Ok(())
    }

    pub fn close(&mut self, at: Place) -> Result<(), Stop>
        ensures ok { OnOk result ((end : place.Place) (tokens : ListOf token.Token) →
            reads self.old end (token.Close at ∷ tokens) ≡ reads self.new end tokens) }
        ensures fault { IfStopped result (λ fault.
            (end : place.Place) (tokens : ListOf token.Token) →
            reads self.old end (token.Close at ∷ tokens) ≡ Err fault) }
    {
        match self.frames.pop() {
            None => Err(Stop::Fault {
                at,
                rule: TextRule::Close,
            }),
            Some(frame) => {
                let list = mem::replace(&mut self.trees, frame.before);
                self.trees.push(Tree::Items {
                    list,
                    at: frame.at,
                    close: at,
                })?;
                Ok(())
            }
        }
    }
}
