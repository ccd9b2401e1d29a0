//! What a certificate certifies.

use nichols_braid::{Braid, Order};
use nichols_words::{Relation, Word};
use std::marker::Model;

/// A degree of an algebra: its least words, rising, and its relations, whose candidates rise. All are in ranks.
#[derive(Drop)]
pub struct CertifiedDegree {
    pub basis: Vec<Word>,
    pub relations: Vec<Relation>,
}

impl Model for CertifiedDegree {
    ghost use Rattle.nichols_check.specs.Certificate.{DegreeValue};

    ghost Value = { DegreeValue };

    ghost view = { λ d. record { basis = d.basis.items; relations = d.relations.items } };
}

/// A braid on ranks, an order of its letters, and the degrees of its algebra that a certificate certifies, from degree 0 on.
#[derive(Drop)]
pub struct Certified {
    /// The braid on ranks.
    pub braid: Braid,
    /// The letters of the document, from the least to the greatest.
    pub order: Order,
    /// Degree 0, and then one for each table.
    pub degrees: Vec<CertifiedDegree>,
}

impl Model for Certified {
    ghost use Rattle.nichols_check.specs.Certificate.{CertifiedValue};

    ghost Value = { CertifiedValue };

    ghost view = { λ c. record { braid = c.braid; order = c.order; degrees = c.degrees.items } };
}
