//! What a block is worth.

ghost use Rattle.std.specs.Prelude.{◌≡◌};
ghost use Rattle.nichols_value.specs.Worth.{lean_value};

use crate::rule::BlockRule;

/// The value of a block under a rows limit.
#[derive(Drop)]
pub enum BlockValue {
    /// Its rule, where it and all blocks below it are within the limit.
    Rule(BlockRule),
    /// The number of its candidates, which exceeds the limit, where all blocks below it are within the limit.
    Over(u64),
    /// A block below it isn't within the limit.
    Void,
    /// There was no memory.
    Starved,
}

impl BlockValue {
    /// Lets go what serves the degree above.
    pub fn let_go(&mut self)
        ensures { self.new ≡ lean_value self.old }
    {
        if let BlockValue::Rule(rule) = self {
            rule.let_go();
        }
    }
}
