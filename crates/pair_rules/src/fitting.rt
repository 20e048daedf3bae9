//! The objects of each type that a parameter of an action has.

ghost use Rattle.std.specs.Prelude.{ℕ, ◌≡◌, ◌<◌, true, length, filter, All, Contains, IfOk};
ghost use Rattle.std.specs.List.{range_with_len};
ghost use Rattle.std.specs.FinSet as set;
ghost use Rattle.pair_rules.specs.Fitting.{AreTypesOf, AreUsed, AreObjectsOf, IsFitting, has_type};

use model_kit::Vocabulary;
use mre_base::{Bits, List, NoMemory, narrowed};
use std::alloc::Global;

// The types of an object: its own and those above it.
fn types_of(alloc: Global, words: &Vocabulary, count: u32, object: usize) -> Result<Bits, NoMemory>
    requires count { count ≡ length words.now.types }
    requires listed { object < length words.now.objects }
    ensures { IfOk result (AreTypesOf words.now object) }
{
    let mut types = Bits::empty(alloc, count)?;
    let mut current = words.objects.item(object).1;
    for _step in 0..u64::from(count) + 1 {
        types.put(current);
        // Every type is below the first, which is below nothing but itself.
        if current == 0 {
            break;
        }
        current = words.types.item(current as usize).1;
    }
    Ok(types)
}

// The types of all objects.
fn all_types(alloc: Global, words: &Vocabulary, count: u32) -> Result<List<Bits>, NoMemory>
    requires count { count ≡ length words.now.types }
    ensures { IfOk result (AreObjectsOf words.now (length words.now.objects)) }
{
    let mut made = List::empty(alloc);
    for object in 0..words.objects.len() {
        made.push(types_of(alloc, words, count, object)?)?;
    }
    Ok(made)
}

fn put_kinds(used: &mut Bits, kinds: &List<u32>)
    requires listed { All (λ kind. kind < used.old.width) kinds.now }
    ensures width { used.new.width ≡ used.old.width }
    ensures grows { (kind : ℕ) → set.contains used.old.members kind ≡ true
        → set.contains used.new.members kind ≡ true }
    ensures there { (kind : ℕ) → Contains kinds.now kind
        → set.contains used.new.members kind ≡ true }
{
    for place in 0..kinds.len() {
        used.put(*kinds.item(place));
    }
}

// The types of the parameters of actions.
fn used_types(alloc: Global, words: &Vocabulary, count: u32) -> Result<Bits, NoMemory>
    requires count { count ≡ length words.now.types }
    ensures { IfOk result (AreUsed words.now (length words.now.actions)) }
{
    let mut used = Bits::empty(alloc, count)?;
    for action in 0..words.actions.len() {
        put_kinds(&mut used, &words.actions.item(action).params);
    }
    Ok(used)
}

// The objects in whose sets a type is.
fn objects_of(
    alloc: Global,
    sets: &List<Bits>,
    count: u32,
    kind: u32,
) -> Result<List<u32>, NoMemory>
    requires count { count ≡ length sets.now }
    requires listed { All (λ bits. kind < bits.width) sets.now }
    ensures { IfOk result (λ made. made
        ≡ filter (has_type sets.now kind) (range_with_len 0 count)) }
{
    let mut made = List::empty(alloc);
    for object in 0..count {
        if sets.item(object as usize).contains(kind) {
            made.push(object)?;
        }
    }
    Ok(made)
}

/// The objects of each type. A type that no parameter has gets none.
pub(crate) fn fitting_of(alloc: Global, words: &Vocabulary) -> Result<List<List<u32>>, NoMemory>
    ensures { IfOk result (IsFitting words.now) }
{
    let count = narrowed(words.types.len())?;
    let objects = narrowed(words.objects.len())?;
    let used = used_types(alloc, words, count)?;
    let sets = all_types(alloc, words, count)?;
    let mut made = List::empty(alloc);
    for kind in 0..count {
        if used.contains(kind) {
            made.push(objects_of(alloc, &sets, objects, kind)?)?;
        } else {
            made.push(List::empty(alloc))?;
        }
    }
    Ok(made)
}
