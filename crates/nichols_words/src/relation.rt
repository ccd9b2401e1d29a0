//! Relations between words.

ghost use Rattle.std.specs.Prelude.{◌≡◌, IfOk};

use crate::{Comb, Word};
use std::alloc::{AllocError, Global};
use std::marker::Model;

/// A word with the combination of words before it that it equals in an algebra.
#[derive(Drop)]
pub struct Relation {
    pub candidate: Word,
    pub form: Comb,
}

impl Model for Relation {
    ghost use Rattle.nichols_tensor.specs.Relation.{PlainRelation};

    ghost Value = { PlainRelation };

    ghost view = { λ r. record { candidate = r.candidate; form = r.form } };
}

impl Relation {
    /// An equal relation in memory of its own.
    pub fn copy(&self, alloc: Global) -> Result<Relation, AllocError>
        ensures { IfOk result (λ r. r ≡ self.now) }
    {
        let form = self.form.copy(alloc)?;
        Ok(Relation {
            candidate: self.candidate,
            form,
        })
    }
}
