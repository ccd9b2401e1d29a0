//! Values of blocks, shared.

ghost use Rattle.std.specs.Prelude.{◌≡◌, ◌⊎◌, IfOk, IsOk, MatchOption};
ghost use Rattle.std.specs.Bool.{MatchBool};
ghost use Rattle.nichols_value.specs.Worth.{lean_value, worth};
ghost use Rattle.nichols_value.specs.declared.shared.Shared.TheVariants as variant;
ghost use Rattle.nichols_value.specs.declared.value.BlockValue.TheVariants.{Starved};

use crate::value::BlockValue;
use std::alloc::{AllocError, Global};
use std::sync::Arc;

/// A value of a block that several may hold. Want of memory is a value, too, and takes none.
///
/// Contracts compare what two of them stand for (`worth`).
#[derive(Drop)]
pub enum Shared {
    /// This value.
    Value(Arc<BlockValue, Global>),
    /// There was no memory.
    Starved,
}

impl Shared {
    /// The value, shared, or `Starved` for want of memory.
    pub fn of(alloc: Global, value: BlockValue) -> Shared
        ensures { (worth result ≡ value) ⊎ (worth result ≡ Starved) }
    {
        match Arc::new(alloc, value) {
            Ok(shared) => Shared::Value(shared),
            Err(_) => Shared::Starved,
        }
    }

    /// The same value, shared once more. A copy of `Starved` takes no memory and succeeds.
    pub fn copy(&self) -> Result<Shared, AllocError>
        ensures same { IfOk result (λ c. worth c ≡ worth self.now) }
        ensures starved { self.now ≡ variant.Starved → IsOk result }
    {
        match self {
            Shared::Value(shared) => Ok(Shared::Value(Arc::try_clone(shared)?)),
            Shared::Starved => Ok(Shared::Starved),
        }
    }

    /// The value, or `None` for want of memory.
    pub fn get(&self) -> Option<&BlockValue>
        ensures { MatchOption result (worth self.now ≡ Starved) (λ v. v.now ≡ worth self.now) }
    {
        match self {
            Shared::Value(shared) => Some(&**shared),
            Shared::Starved => None,
        }
    }

    /// Lets go what serves the degree above, where nobody else holds the value: whether it did.
    pub fn let_go(&mut self) -> bool
        ensures { MatchBool result (worth self.new ≡ lean_value (worth self.old)) (worth self.new ≡ worth self.old) }
    {
        match self {
            Shared::Value(shared) => match Arc::get_mut(shared) {
                Some(value) => {
                    value.let_go();
                    true
                }
                None => false,
            },
            Shared::Starved => false,
        }
    }
}

/// The value of the lower block by a letter.
#[derive(Drop)]
pub struct LowerValue {
    pub letter: u8,
    pub value: Shared,
}
