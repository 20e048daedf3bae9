//! Lists without repeats: an entry goes to the end unless its numbers were seen before.

ghost use Rattle.std.specs.Prelude.{◌≡◌, ◌||◌, not, false, ℕ, List, [], ◌∷◌, ◌++◌, IfOk, OnOk};
ghost use Rattle.model_kit.specs.Same.{same_numbers};
ghost use Rattle.pddl_models.specs.Unrepeated.{term_key, with_first, same_by, has_key, AreSeen};

use model_kit::{GroundAtom, SchemaAtom, Term};
use mre_base::{List, NoMemory};
use smallvec::SmallVec;
use std::alloc::Global;
use std::cmp::Ordering;
use std::collections::BTreeSet;
use std::marker::Model;

/// The numbers that distinguish an entry of a list from the others. Up to eight are kept in the value
/// itself.
#[derive(Drop)]
pub struct Key {
    numbers: SmallVec<u32, 8>,
}

impl Model for Key {
    ghost use Rattle.std.specs.Prelude.{List, ℕ};

    ghost Value = { List ℕ };

    ghost view = { λ key. key.numbers.items };
}

impl PartialEq for Key {
    ghost use Rattle.std.specs.Cmp.{partial_equiv_from_equiv};
    ghost use Rattle.std.specs.Cmp.Lexicographic.{pointwise, nat_list_eq_equiv};
    ghost use Rattle.std.specs.Prelude.{◌==◌};

    ghost eq = { pointwise ◌==◌ };

    ghost laws = { partial_equiv_from_equiv nat_list_eq_equiv };

    fn eq(&self, other: &Key) -> bool {
        self.numbers.as_slice() == other.numbers.as_slice()
    }
}

impl Eq for Key {
    ghost use Rattle.std.specs.Cmp.Lexicographic.{nat_list_eq_equiv};

    ghost laws = { nat_list_eq_equiv };
}

/// Number by number, a proper prefix first.
impl Ord for Key {
    ghost use Rattle.std.specs.Cmp.Lexicographic.{slice_cmp, nat_list_cmp_total, texts_ties};
    ghost use Rattle.std.specs.Ordering.{nat_cmp};
    ghost use Rattle.std.specs.Prelude.{refl};

    ghost cmp = { slice_cmp nat_cmp };

    ghost total = { nat_list_cmp_total };

    ghost matches_partial_cmp = { λ x y. refl };

    ghost matches_eq = { λ x y. texts_ties x y };

    fn cmp(&self, other: &Key) -> Ordering {
        self.numbers.as_slice().cmp(&other.numbers.as_slice())
    }
}

impl PartialOrd for Key {
    ghost use Rattle.std.specs.Cmp.Lexicographic.{slice_cmp, texts_po};
    ghost use Rattle.std.specs.Ordering.{nat_cmp};
    ghost use Rattle.std.specs.Prelude.{Some};

    ghost partial_cmp = { λ x y. Some (slice_cmp nat_cmp x y) };

    ghost laws = { texts_po };

    fn partial_cmp(&self, other: &Key) -> Option<Ordering> {
        Some(self.cmp(other))
    }
}

/// The numbers of the entries that a list has so far.
#[derive(Drop)]
pub struct Seen {
    keys: BTreeSet<Key>,
}

impl Seen {
    /// Nothing was seen yet.
    pub fn nothing(alloc: Global) -> Seen
        ensures { (numbers : List ℕ) → has_key result numbers ≡ false }
    {
        Seen {
            keys: BTreeSet::new(alloc),
        }
    }

    /// Whether the key is new; from then on it is not.
    pub fn add(&mut self, key: Key) -> Result<bool, NoMemory>
        ensures new { IfOk result (λ is_new. is_new ≡ not (has_key self.old key)) }
        ensures seen { OnOk result ((other : List ℕ) →
            has_key self.new other ≡ (same_numbers key other || has_key self.old other)) }
    {
        Ok(self.keys.insert(key)?)
    }
}

/// An entry that numbers distinguish from others.
pub trait Keyed {
    ghost use Rattle.std.specs.Prelude.{List, ℕ, IfOk, ◌≡◌};

    ghost key_of: { Self → List ℕ };

    fn key(&self, alloc: Global) -> Result<Key, NoMemory>
        ensures ok { IfOk result (λ key. key ≡ key_of self.now) };
}

/// A predicate and its objects.
impl Keyed for GroundAtom {
    ghost use Rattle.pddl_models.specs.Unrepeated.{atom_key};

    ghost key_of = { atom_key };

    fn key(&self, alloc: Global) -> Result<Key, NoMemory> {
        Key::headed(alloc, self.predicate, &self.objects)
    }
}

/// A function and its objects; the number that it is given does not count.
impl Keyed for (u32, List<u32>, u32) {
    ghost use Rattle.pddl_models.specs.Unrepeated.{value_key};

    ghost key_of = { value_key };

    fn key(&self, alloc: Global) -> Result<Key, NoMemory> {
        Key::headed(alloc, self.0, &self.1)
    }
}

/// A predicate and its terms.
impl Keyed for SchemaAtom {
    ghost use Rattle.pddl_models.specs.Unrepeated.{schema_atom_key};

    ghost key_of = { schema_atom_key };

    fn key(&self, alloc: Global) -> Result<Key, NoMemory> {
        let mut numbers = SmallVec::new(alloc);
        numbers.push(self.predicate)?;
        for place in 0..self.args.len() {
            push_term(&mut numbers, *self.args.item(place))?;
        }
        Ok(Key { numbers })
    }
}

impl Key {
    // A number and further ones after it.
    fn headed(alloc: Global, head: u32, rest: &List<u32>) -> Result<Key, NoMemory>
        ensures ok { IfOk result (λ made. made ≡ head ∷ rest.now) }
    {
        let mut numbers = SmallVec::new(alloc);
        numbers.push(head)?;
        numbers.extend_from_slice(rest.as_slice())?;
        Ok(Key { numbers })
    }
}

// Puts what distinguishes a term at the end.
fn push_term(numbers: &mut SmallVec<u32, 8>, term: Term) -> Result<(), NoMemory>
    ensures ok { OnOk result (numbers.new.items ≡ numbers.old.items ++ term_key term []) }
{
    let (sort, number) = match term {
        Term::Param(place) => (0, place),
        Term::Object(object) => (1, object),
    };
    numbers.push(sort)?;
    numbers.push(number)?;
    Ok(())
}

/// Puts an entry at the end of a list, unless its numbers were seen before.
pub fn push_first<T: Keyed + Drop>(
    alloc: Global,
    made: &mut List<T>,
    seen: &mut Seen,
    entry: T,
) -> Result<(), NoMemory>
    requires { AreSeen T.key_of made.old seen.old }
    ensures made { OnOk result (made.new ≡ with_first (same_by T.key_of) made.old entry) }
    ensures seen { OnOk result (AreSeen T.key_of made.new seen.new) }
{
    if seen.add(entry.key(alloc)?)? {
        made.push(entry)?;
    }
    Ok(())
}
