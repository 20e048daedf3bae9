//! Terms, schema atoms and ground atoms.

ghost use Rattle.std.specs.Prelude.{◌≡◌, ◌==◌, IfOk};
ghost use Rattle.std.specs.Cmp.{partial_order_from_own_ties};
ghost use Rattle.std.specs.Cmp.Rules.{comparing};
ghost use Rattle.std.specs.Cmp.Lexicographic.{pointwise, slice_cmp};
ghost use Rattle.std.specs.Ordering.{nat_cmp, on, then_cmp, eq_of_both, as_partial_cmp};
ghost use Rattle.std.proofs.Common.{rules};

use mre_base::{Copied, List, NoMemory};
use std::alloc::Global;
use std::cmp::Ordering;

/// An argument in an action schema.
#[derive(Clone, Copy, Debug, PartialEq, Eq)]
pub enum Term {
    /// A parameter of the schema, by its position from 0.
    Param(u32),
    /// An object, by its number.
    Object(u32),
}

/// A predicate with terms, as in an action schema.
#[derive(Debug, Drop)]
pub struct SchemaAtom {
    pub predicate: u32,
    pub args: List<Term>,
}

/// A predicate with objects.
#[derive(Debug, Drop)]
pub struct GroundAtom {
    pub predicate: u32,
    pub objects: List<u32>,
}

impl PartialEq for GroundAtom {
    ghost eq = { eq_of_both (on (λ a. a.predicate) ◌==◌) (on (λ a. a.objects) (pointwise ◌==◌)) };

    ghost laws = { Prim.search (comparing, rules) };

    fn eq(&self, other: &GroundAtom) -> bool {
        self.predicate == other.predicate && self.objects.as_slice() == other.objects.as_slice()
    }
}

impl Eq for GroundAtom {
    ghost laws = { Prim.search (comparing, rules) };
}

/// By predicate number, and then by the objects' numbers.
impl Ord for GroundAtom {
    ghost cmp = { then_cmp (on (λ a. a.predicate) nat_cmp)
        (on (λ a. a.objects) (slice_cmp nat_cmp)) };

    ghost total = { Prim.search (comparing, rules) };

    ghost matches_partial_cmp = { Prim.search (comparing, rules) };

    ghost matches_eq = { Prim.search (comparing, rules) };

    fn cmp(&self, other: &GroundAtom) -> Ordering {
        self.predicate
            .cmp(&other.predicate)
            .then(self.objects.as_slice().cmp(&other.objects.as_slice()))
    }
}

impl PartialOrd for GroundAtom {
    ghost partial_cmp = { as_partial_cmp
        (then_cmp (on (λ a. a.predicate) nat_cmp) (on (λ a. a.objects) (slice_cmp nat_cmp))) };

    ghost laws = { partial_order_from_own_ties
        (Prim.search (comparing, rules))
        (Prim.search (comparing, rules)) };

    fn partial_cmp(&self, other: &GroundAtom) -> Option<Ordering> {
        Some(self.cmp(other))
    }
}

impl GroundAtom {
    pub fn copy(&self, alloc: Global) -> Result<GroundAtom, NoMemory>
        ensures ok { IfOk result (λ made. made ≡ self.now) }
    {
        Ok(GroundAtom {
            predicate: self.predicate,
            objects: self.objects.copy(alloc)?,
        })
    }
}

impl Copied for GroundAtom {
    fn copied(&self, alloc: Global) -> Result<GroundAtom, NoMemory> {
        self.copy(alloc)
    }
}

impl Copied for Term {
    fn copied(&self, _alloc: Global) -> Result<Term, NoMemory> {
        Ok(*self)
    }
}

impl Copied for SchemaAtom {
    fn copied(&self, alloc: Global) -> Result<SchemaAtom, NoMemory> {
        Ok(SchemaAtom {
            predicate: self.predicate,
            args: self.args.copied(alloc)?,
        })
    }
}
