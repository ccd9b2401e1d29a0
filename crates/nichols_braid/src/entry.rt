//! A scalar of a braid as it is given.

/// A scalar as it is given: an integer, or two integers for an element of a field with an extension.
///
/// Integers are taken as residues.
#[derive(Clone, Copy, Debug, PartialEq, Eq)]
pub enum Entry {
    /// The element of one integer.
    Whole(i64),
    /// The element (u, v) of two integers; there is one only where the field has an extension.
    Pair(i64, i64),
}
