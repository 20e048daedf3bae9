//! Reads the bytes of a text into words and lists.
ghost use Rattle.std.specs.Prelude.{◌≡◌, ◌+◌, ◌^◌, ◌<◌, ◌≤◌, ℕ, List as ListOf, ◌∷◌, [], length};
ghost use Rattle.std.specs.Prelude.{IfOk, OnOk, Err};
ghost use Rattle.std.specs.String.{string_bytes};
ghost use Rattle.std.specs.List.{AllByRecursion};
ghost use Rattle.pddl_text.specs.Answers.{IfFault, AnswersOk, AnswersFault, Gives};
ghost use Rattle.pddl_text.specs.Forests.{Spells, IsFirstFault, tokens_of_all};
ghost use Rattle.pddl_text.specs.Places.{after};
ghost use Rattle.pddl_text.specs.Reading.{left, reads, with_past, forest_of};
ghost use Rattle.pddl_text.specs.Spans.{IsTokenIn, SpansAscend};
ghost use Rattle.pddl_text.specs.Stops.{IfStopped, Finds};
ghost use Rattle.pddl_text.specs.Tokens.{EndsWord};
ghost use Rattle.pddl_text.specs.declared.fault.TextFault as faults;
ghost use Rattle.pddl_text.specs.declared.place.Place as place;
ghost use Rattle.pddl_text.specs.declared.tree.Forest as tree;

use crate::bytes::{ByteKind, is_word_byte, kind_of, letter_of};
use crate::fault::Stop;
use crate::grove::Grove;
use crate::place::Spot;
use crate::{Forest, Place, ReadStop, TextRule};
use mre_base::{List, NoMemory, Text};
use std::alloc::Global;

/// The state after the bytes so far.
#[derive(Clone, Copy)]
pub enum Mode {
    Between,
    Comment,
    InWord { from: Spot },
}

/// A text that is being read: its open lists and trees so far, the state after its bytes so far,
/// and the letters so far of its last word.
#[derive(Drop)]
pub struct Reader {
    pub grove: Grove,
    pub mode: Mode,
    pub letters: String,
}

impl Reader {
    /// Takes a byte outside words and comments.
    fn begin(&mut self, alloc: Global, spot: Spot, byte: u8) -> Result<(), Stop>
        requires { self.old.mode ≡ Mode.Between }
        ensures ok { OnOk result ((end : place.Place) (bytes : ListOf ℕ) →
            left self.old end spot (byte ∷ bytes) ≡ left self.new end (after spot byte) bytes) }
        ensures fault { IfStopped result (λ fault. (end : place.Place) (bytes : ListOf ℕ) →
            left self.old end spot (byte ∷ bytes) ≡ Err fault) }
    {
        match kind_of(byte) {
            ByteKind::White => Ok(()),
            ByteKind::Semicolon => {
                self.mode = Mode::Comment;
                Ok(())
            }
            ByteKind::Opening => self.grove.open(alloc, spot.place),
            ByteKind::Closing => self.grove.close(spot.place),
            ByteKind::Letter => {
                self.letters.clear();
                self.letters.push(letter_of(byte))?;
                self.mode = Mode::InWord { from: spot };
                Ok(())
            }
            ByteKind::Stray => Err(Stop::Fault {
                at: spot.place,
                rule: TextRule::Byte,
            }),
        }
    }

    /// Takes the word that ends before this spot.
    fn end_word(&mut self, alloc: Global, from: Spot, spot: Spot) -> Result<(), NoMemory>
        requires { self.old.mode ≡ Mode.InWord from }
        ensures ok { OnOk result ((end : place.Place) (bytes : ListOf ℕ) → EndsWord bytes →
            left self.old end spot bytes ≡ left self.new end spot bytes) }
        ensures between { OnOk result (self.new.mode ≡ Mode.Between) }
    {
        let text = Text::of(alloc, self.letters.as_str())?;
        self.mode = Mode::Between;
        self.grove
            .put_word(text, from.place, from.position, spot.position)
    }

    /// Takes the next byte.
    fn step(&mut self, alloc: Global, spot: Spot, byte: u8) -> Result<(), Stop>
        ensures ok { OnOk result ((end : place.Place) (bytes : ListOf ℕ) →
            left self.old end spot (byte ∷ bytes) ≡ left self.new end (after spot byte) bytes) }
        ensures fault { IfStopped result (λ fault. (end : place.Place) (bytes : ListOf ℕ) →
            left self.old end spot (byte ∷ bytes) ≡ Err fault) }
    {
        match self.mode {
            Mode::Between => self.begin(alloc, spot, byte),
            Mode::Comment => {
                if byte == b'\n' {
                    self.mode = Mode::Between;
                }
                Ok(())
            }
            Mode::InWord { from } => {
                if is_word_byte(byte) {
                    self.letters.push(letter_of(byte))?;
                    Ok(())
                } else {
                    self.end_word(alloc, from, spot)?;
                    self.begin(alloc, spot, byte)
                }
            }
        }
    }

    /// The forest, once the bytes have ended outside a word.
    fn finish(self, past: Place) -> Result<Forest, Stop>
        ensures { Finds result (with_past past (reads self.grove past [])) }
    {
        let mut grove = self.grove;
        match grove.frames.pop() {
            None => Ok(Forest {
                trees: grove.trees,
                past,
            }),
            Some(_) => Err(Stop::Fault {
                at: past,
                rule: TextRule::Open,
            }),
        }
    }

    /// The forest, once the bytes have ended.
    fn end(self, alloc: Global, spot: Spot) -> Result<Forest, Stop>
        ensures { Finds result (with_past spot.place (left self spot.place spot [])) }
    {
        let mut reader = self;
        match reader.mode {
            Mode::InWord { from } => match reader.end_word(alloc, from, spot) {
                Ok(()) => reader.finish(spot.place),
                Err(NoMemory) => Err(Stop::NoMemory),
            },
            Mode::Between => reader.finish(spot.place),
            Mode::Comment => reader.finish(spot.place),
        }
    }
}

/// What the bytes of a whole text are read as.
fn read_whole(alloc: Global, bytes: &[u8]) -> Result<Forest, Stop>
    requires short { length bytes.now < 2 ^ 28 }
    ensures { Finds result (forest_of bytes.now) }
{
    let mut reader = Reader {
        grove: Grove {
            frames: Vec::new(alloc),
            trees: List::empty(alloc),
        },
        mode: Mode::Between,
        letters: String::new(alloc),
    };
    let mut spot = Spot::start();
    for byte in bytes {
        reader.step(alloc, spot, *byte)?;
        spot = spot.after(*byte);
    }
    reader.end(alloc, spot)
}

/// The answer for a whole text.
fn answer(alloc: Global, bytes: &[u8]) -> Result<Forest, ReadStop>
    requires short { length bytes.now < 2 ^ 28 }
    ensures { Gives result (forest_of bytes.now) }
{
    match read_whole(alloc, bytes) {
        Ok(forest) => Ok(forest),
        Err(stop) => Err(stop.answer(alloc)),
    }
}

/// The words and lists of a text, or the first place where it breaks one of the rules `Byte`,
/// `Close`, `Deep` and `Open`.
pub fn read_forest(alloc: Global, bytes: &[u8]) -> Result<Forest, ReadStop>
    requires short { length bytes.now < 2 ^ 28 }

    // The answer is the forest that the bytes spell, or their first fault.
    ensures ok { IfOk result (λ forest. Spells bytes.now forest) }
    ensures fault { IfFault result (λ fault. IsFirstFault bytes.now fault) }

    // The forest that the bytes spell is the answer, and so is their first fault.
    ensures succeeds { (forest : tree.Forest) → Spells bytes.now forest →
        AnswersOk result forest }
    ensures refuses { (fault : faults.TextFault) → IsFirstFault bytes.now fault →
        AnswersFault result fault }

    // Each word is the lower case of its slice of the bytes, and the slices ascend.
    ensures words { IfOk result (λ forest.
        AllByRecursion (IsTokenIn bytes.now) (tokens_of_all forest.trees)) }
    ensures spans { IfOk result (λ forest.
        SpansAscend 0 (length bytes.now) (tokens_of_all forest.trees)) }
    ensures few { IfOk result (λ forest.
        length (tokens_of_all forest.trees) ≤ length bytes.now) }
{
    answer(alloc, bytes)
}
