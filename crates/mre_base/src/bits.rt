//! Sets of numbers below a width, as bits.
ghost use Rattle.std.specs.Prelude.{◌≡◌, ◌<◌, ◌≤◌, ◌↔◌, IsTrue, IsOk, IfOk};
ghost use Rattle.std.specs.FinSet as set;
ghost use Rattle.mre_base.specs.Before.{is_earlier_list};
ghost use Rattle.mre_base.specs.Sets.{AreBelow, numbers_below};

use crate::{NoMemory, words};
use smallvec::SmallVec;
use std::alloc::Global;
use std::hash::{Hash, Hasher};
use std::marker::Model;

/// A width and a set of numbers below it. Up to a width of 128 the words are kept in the value
/// itself.
#[derive(Debug)]
pub struct Bits {
    width: u32,
    words: SmallVec<u64, 2>,
}

impl Model for Bits {
    ghost use Rattle.mre_base.specs.Sets.{BitSet, bit_set_code};
    ghost use Rattle.mre_base.specs.Words.{bits_below, HoldBits};

    ghost Value = { BitSet };

    ghost coded = { bit_set_code };

    ghost view = { λ bits. record {
      width = bits.width;
      members = bits_below bits.width bits.words.items;
    } };

    ghost invariant = { λ bits. HoldBits bits.width bits.words.items };
}

impl Drop for Bits {
    fn drop(self) {
        let Bits { width: _, words: _ } = self;
    }
}

impl Bits {
    /// The empty set of this width.
    pub fn empty(alloc: Global, width: u32) -> Result<Bits, NoMemory>
        ensures ok { IfOk result (λ made. made ≡ record { width = width; members = set.empty }) }
        ensures succeeds { width ≤ 128 → IsOk result }
    {
        let words = SmallVec::from_elem(alloc, 0, width.div_ceil(64) as usize)?;
        Ok(Bits { width, words })
    }

    pub fn copy(&self, alloc: Global) -> Result<Bits, NoMemory>
        ensures ok { IfOk result (λ made. made ≡ self.now) }
        ensures succeeds { self.now.width ≤ 128 → IsOk result }
    {
        let words = SmallVec::from_slice(alloc, self.words.as_slice())?;
        Ok(Bits {
            width: self.width,
            words,
        })
    }

    /// Makes this set equal to the other one.
    pub fn copy_from(&mut self, other: &Bits)
        requires { self.old.width ≡ other.now.width }
        ensures { self.new ≡ other.now }
    {
        words::copy(&mut self.words, other.words.as_slice());
    }

    pub fn width(&self) -> u32
        ensures width { result ≡ self.now.width }
        ensures below { AreBelow self.now }
    {
        self.width
    }

    pub fn contains(&self, i: u32) -> bool
        requires { i < self.now.width }
        ensures { result ≡ set.contains self.now.members i }
    {
        words::has(self.words.as_slice(), i)
    }

    pub fn put(&mut self, i: u32)
        requires { i < self.old.width }
        ensures { self.new ≡ record self.old { members = set.insert self.old.members i } }
    {
        words::put_in(&mut self.words, i);
    }

    pub fn take_out(&mut self, i: u32)
        requires { i < self.old.width }
        ensures { self.new ≡ record self.old { members = set.remove self.old.members i } }
    {
        words::take_out_of(&mut self.words, i);
    }

    /// Whether each number of this set is in the other.
    pub fn is_subset(&self, other: &Bits) -> bool
        requires { self.now.width ≡ other.now.width }
        ensures { result ≡ set.is_subset self.now.members other.now.members }
    {
        words::is_subset(self.words.as_slice(), other.words.as_slice())
    }

    /// Whether the sets have the same numbers.
    pub fn same(&self, other: &Bits) -> bool
        requires { self.now.width ≡ other.now.width }
        ensures { IsTrue result ↔ (self.now ≡ other.now) }
    {
        words::is_same(self.words.as_slice(), other.words.as_slice())
    }

    /// Whether the ascending list of this set's numbers is before the other's: compared place by
    /// place, a proper prefix first.
    pub fn list_before(&self, other: &Bits) -> bool
        requires { self.now.width ≡ other.now.width }
        ensures { result ≡ is_earlier_list (numbers_below self.now.width self.now.members)
            (numbers_below other.now.width other.now.members) }
    {
        words::is_list_before(self.words.as_slice(), other.words.as_slice())
    }
}

impl PartialEq for Bits {
    ghost use Rattle.std.specs.Cmp.{partial_equiv_from_equiv};
    ghost use Rattle.mre_base.specs.Sets.{is_same_bit_set};
    ghost use Rattle.mre_base.specs.SameSets.{is_same_bit_set-equiv};

    ghost eq = { is_same_bit_set };

    ghost laws = { partial_equiv_from_equiv is_same_bit_set-equiv };

    fn eq(&self, other: &Bits) -> bool {
        self.width == other.width && self.same(other)
    }
}

impl Eq for Bits {
    ghost use Rattle.mre_base.specs.SameSets.{is_same_bit_set-equiv};

    ghost laws = { is_same_bit_set-equiv };
}

impl Hash for Bits {
    ghost use Rattle.mre_base.specs.Words.{hash_of_bits};
    ghost use Rattle.mre_base.specs.SameSets.{same_from_is_same_bit_set};
    ghost use Rattle.std.proofs.Common.{ap};

    ghost hash_input = { hash_of_bits };

    ghost respects_eq = { λ one two same.
        ap hash_of_bits (same_from_is_same_bit_set one two same) };

    fn hash<H: Hasher>(&self, state: &mut H) {
        state.write_u32(self.width);
        words::hash(self.words.as_slice(), state);
    }
}
