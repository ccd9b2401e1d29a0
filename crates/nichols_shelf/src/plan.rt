//! What a shelf stands on.

use nichols_braid::Braid;
use nichols_core::Layout;
use nichols_value::BlockKey;
use std::marker::Model;

/// The braid, the layout, the key of each block in block order, and the rows limit.
///
/// The braid says which values are right for a key.
#[derive(Drop)]
pub struct Plan {
    pub(crate) braid: Braid,
    pub(crate) layout: Layout,
    pub(crate) keys: Vec<BlockKey>,
    pub(crate) rows_limit: u32,
}

impl Model for Plan {
    ghost use Rattle.nichols_shelf.specs.Plan.{PlanValue, IsPlan};

    ghost Value = { PlanValue };

    ghost view = { λ g. record { braid = g.braid; layout = g.layout; keys = g.keys.items; rows_limit = g.rows_limit } };

    ghost invariant = { λ g. IsPlan (record { braid = g.braid; layout = g.layout; keys = g.keys.items; rows_limit = g.rows_limit }) };
}
