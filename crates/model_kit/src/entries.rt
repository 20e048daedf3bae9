//! Whether the entries of a list pass a test and are distinct.

ghost use Rattle.std.specs.Prelude.{◌≡◌, ◌<◌, ◌+◌, Bool, length, drop, slice_get, IfSome};
ghost use Rattle.std.specs.List.{list_any};
ghost use Rattle.model_kit.specs.Names.{are_distinct, are_entries};

use mre_base::List;

// An entry of a list without repeats, tested against what is given beside the list.
pub(crate) trait Entry<C> {
    ghost passes: { C → Self → Bool };

    ghost same: { Self → Self → Bool };

    fn does_pass(&self, given: &C) -> bool
        ensures { result ≡ passes given.now self.now };

    fn is_same(&self, other: &Self) -> bool
        ensures { result ≡ same self.now other.now };
}

// Whether each entry passes, and no two are the same.
pub(crate) fn do_pass<C, T: Entry<C>>(entries: &List<T>, given: &C) -> bool
    ensures { result ≡ are_entries (T.passes given.now) T.same entries.now }
{
    for place in 0..entries.len() {
        if !entries.item(place).does_pass(given) {
            return false;
        }
    }
    do_differ::<C, T>(entries)
}

fn do_differ<C, T: Entry<C>>(entries: &List<T>) -> bool
    ensures { result ≡ are_distinct T.same entries.now }
{
    for place in (0..entries.len()).rev() {
        if is_again::<C, T>(entries, place) {
            return false;
        }
    }
    true
}

// Whether the entry at a place is the same as a later one.
fn is_again<C, T: Entry<C>>(entries: &List<T>, place: usize) -> bool
    requires { place < length entries.now }
    ensures { IfSome (slice_get entries.now place)
        (λ entry. result ≡ list_any (T.same entry) (drop (place + 1) entries.now)) }
{
    let entry = entries.item(place);
    let count = entries.len();
    for later in place + 1..count {
        if entry.is_same(entries.item(later)) {
            return true;
        }
    }
    false
}
