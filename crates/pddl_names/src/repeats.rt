//! Whether a word declares a name again.

ghost use Rattle.std.specs.Prelude.{◌≡◌, ◌<◌, ◌&&◌, length, take, IfSome, IsTrue, slice_get};
ghost use Rattle.pddl_names.specs.Kinds.{ArePlaces, is_kind, is_once};
ghost use Rattle.pddl_names.specs.Naming.{is_again};

use crate::kind::Kind;
use crate::names::NameTable;
use crate::role::Word;
use mre_base::List;

/// Whether a word that declares a thing of the kind has the name of one that is declared before it.
pub fn is_declared_again(words: &List<Word>, place: usize, kind: Kind, places: &NameTable) -> bool
    requires once { IsTrue (is_once kind) }
    requires place { place < length words.now }
    requires declares { IfSome (slice_get words.now place) (λ w. IsTrue (is_kind kind w.role)) }
    requires places { ArePlaces kind words.now places.now }
    ensures { IfSome (slice_get words.now place) (λ w. result ≡ is_again (take place words.now) w) }
{
    match places.number(&words.item(place).text) {
        Some(first) => (first as usize) < place,
        None => false,
    }
}
