//! Printed forms as keys of an ordered map.

ghost use Rattle.std.specs.Prelude.{◌==◌};
ghost use Rattle.std.specs.Cmp.{partial_order_from_own_ties};
ghost use Rattle.std.specs.Cmp.Rules.{comparing};
ghost use Rattle.std.specs.Cmp.Lexicographic.{pointwise, slice_cmp};
ghost use Rattle.std.specs.Ordering.{nat_cmp, on, as_partial_cmp};
ghost use Rattle.std.proofs.Common.{rules};

use mre_base::Text;
use std::cmp::Ordering;

// A printed form, in ASCII order.
#[derive(Drop)]
pub(crate) struct Form {
    pub(crate) text: Text,
}

impl PartialEq for Form {
    ghost eq = { on (λ f. f.text) (pointwise ◌==◌) };

    ghost laws = { Prim.search (comparing, rules) };

    fn eq(&self, other: &Form) -> bool {
        self.text.bytes() == other.text.bytes()
    }
}

impl Eq for Form {
    ghost laws = { Prim.search (comparing, rules) };
}

impl Ord for Form {
    ghost cmp = { on (λ f. f.text) (slice_cmp nat_cmp) };

    ghost total = { Prim.search (comparing, rules) };

    ghost matches_partial_cmp = { Prim.search (comparing, rules) };

    ghost matches_eq = { Prim.search (comparing, rules) };

    fn cmp(&self, other: &Form) -> Ordering {
        self.text.bytes().cmp(&other.text.bytes())
    }
}

impl PartialOrd for Form {
    ghost partial_cmp = { as_partial_cmp (on (λ f. f.text) (slice_cmp nat_cmp)) };

    ghost laws = { partial_order_from_own_ties
        (Prim.search (comparing, rules))
        (Prim.search (comparing, rules)) };

    fn partial_cmp(&self, other: &Form) -> Option<Ordering> {
        Some(self.cmp(other))
    }
}
