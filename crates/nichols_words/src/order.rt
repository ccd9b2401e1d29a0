//! The word order: by length, and then by letters from the left.

ghost use Rattle.std.proofs.Common.{rules};
ghost use Rattle.std.specs.Cmp.{partial_order_from_own_ties};
ghost use Rattle.std.specs.Cmp.Rules.{comparing};
ghost use Rattle.std.specs.Ordering.{as_partial_cmp, eq_by_cmp};
ghost use Rattle.nichols_tensor.specs.WordOrder.{word_cmp};
ghost use Rattle.nichols_tensor.proofs.Order.{word_cmp_total, word_eq_laws};

use crate::Word;
use std::cmp::Ordering;

impl PartialEq for Word {
    ghost eq = { eq_by_cmp word_cmp };

    ghost laws = { Prim.search (comparing, rules) };

    fn eq(&self, other: &Word) -> bool {
        self.cmp(other) == Ordering::Equal
    }
}

impl Eq for Word {
    ghost laws = { word_eq_laws };
}

impl PartialOrd for Word {
    ghost partial_cmp = { as_partial_cmp word_cmp };

    ghost laws = { partial_order_from_own_ties (Prim.search (comparing, rules)) (Prim.search (comparing, rules)) };

    fn partial_cmp(&self, other: &Word) -> Option<Ordering> {
        Some(self.cmp(other))
    }
}

impl Ord for Word {
    ghost cmp = { word_cmp };

    ghost total = { word_cmp_total };

    ghost matches_partial_cmp = { Prim.search (comparing, rules) };

    ghost matches_eq = { Prim.search (comparing, rules) };

    fn cmp(&self, other: &Word) -> Ordering {
        match self.len().cmp(&other.len()) {
            Ordering::Equal => self.letters().cmp(&other.letters()),
            unequal => unequal,
        }
    }
}
