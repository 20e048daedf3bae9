//! Sets of difference numbers.
ghost use Rattle.std.specs.Prelude.{◌≡◌, ◌<◌, ◌≤◌};
ghost use Rattle.std.specs.FinSet as set;
ghost use Rattle.mre_base.specs.Before.{count_of};
ghost use Rattle.mre_base.specs.Sets.{ArePlaces, is_same_set};

use crate::words;
use std::hash::{Hash, Hasher};
use std::marker::Model;

/// The greatest number that a difference may have. Differences are counted from 1.
pub const MOST_PLACES: u32 = 256;

const _: () = prove!(MOST_PLACES == 256);

/// A set of difference numbers, 1 to 256, in four words. No call takes memory.
#[derive(Debug, Drop)]
pub struct Places {
    words: [u64; 4],
}

impl Model for Places {
    ghost use Rattle.std.specs.Coded.{coded_ℕ};
    ghost use Rattle.std.specs.Ordering.{nat_cmp};
    ghost use Rattle.std.specs.FinSet as set;
    ghost use Rattle.mre_base.specs.Words.{places_in};

    ghost Value = { set.FinSet nat_cmp };

    ghost coded = { set.code coded_ℕ };

    ghost view = { λ places. places_in places.words };
}

impl Places {
    /// The empty set.
    pub fn none() -> Places
        ensures { result ≡ set.empty }
    {
        Places { words: [0; 4] }
    }

    pub fn has(&self, place: u32) -> bool
        requires low { 1 ≤ place }
        requires high { place ≤ 256 }
        ensures { result ≡ set.contains self.now place }
    {
        words::has(&self.words, place - 1)
    }

    /// The set with this number added, or the same set if it has the number.
    pub fn with(&self, place: u32) -> Places
        requires low { 1 ≤ place }
        requires high { place ≤ 256 }
        ensures { result ≡ set.insert self.now place }
    {
        let mut words = self.words;
        words::put(&mut words, place - 1);
        Places { words }
    }

    /// The set without this number.
    pub fn without(&self, place: u32) -> Places
        requires low { 1 ≤ place }
        requires high { place ≤ 256 }
        ensures { result ≡ set.remove self.now place }
    {
        let mut words = self.words;
        words::take_out(&mut words, place - 1);
        Places { words }
    }

    /// Whether each number of this set is in the other.
    pub fn inside(&self, other: &Places) -> bool
        ensures { result ≡ set.is_subset self.now other.now }
    {
        words::is_subset(&self.words, &other.words)
    }

    /// The number of members.
    pub fn count(&self) -> u32
        ensures count { result ≡ count_of self.now }
        ensures numbers { ArePlaces self.now }
    {
        words::count(&self.words)
    }

    pub fn copy(&self) -> Places
        ensures { result ≡ self.now }
    {
        Places { words: self.words }
    }
}

impl PartialEq for Places {
    ghost use Rattle.std.specs.Cmp.{partial_equiv_from_equiv};
    ghost use Rattle.mre_base.specs.SameSets.{is_same_set-equiv};

    ghost eq = { is_same_set };

    ghost laws = { partial_equiv_from_equiv is_same_set-equiv };

    fn eq(&self, other: &Places) -> bool {
        words::is_same(&self.words, &other.words)
    }
}

impl Eq for Places {
    ghost use Rattle.mre_base.specs.SameSets.{is_same_set-equiv};

    ghost laws = { is_same_set-equiv };
}

impl Hash for Places {
    ghost use Rattle.std.specs.Prelude.{◌+◌};
    ghost use Rattle.std.specs.Hash as fed;
    ghost use Rattle.mre_base.specs.Words.{words_from};
    ghost use Rattle.mre_base.specs.SameSets.{same_from_is_same_set};
    ghost use Rattle.std.proofs.Common.{ap};

    ghost hash_input = { λ members.
        fed.slice fed.u64 (words_from (λ k. set.contains members (k + 1)) 0 4) };

    ghost respects_eq = { λ one two same.
        ap (λ members. fed.slice fed.u64 (words_from (λ k. set.contains members (k + 1)) 0 4))
        (same_from_is_same_set one two same) };

    fn hash<H: Hasher>(&self, state: &mut H) {
        words::hash(&self.words, state);
    }
}
