//! Arithmetic in finite fields: those of p elements, for six moduli, and those of p squared elements.
#![tactic(auto)]

mod field;
mod ground;
mod kind;
pub mod laws;
mod prime;
mod quadratic;

pub use field::Field;
pub use ground::Ground;
pub use kind::Kind;
pub use prime::Prime;
pub use quadratic::Quadratic;

/// Why there is no field.
#[derive(Clone, Copy, Debug, PartialEq, Eq)]
pub enum FieldFault {
    /// The modulus isn't one of the six.
    OutsideList(i64),
    /// The extension's polynomial has this root.
    Root(u32),
}

#[cfg(test)]
mod tests;
