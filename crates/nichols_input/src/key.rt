//! The keys of a document.

ghost use Rattle.std.specs.Prelude.{◌≡◌};
ghost use Rattle.nichols_input.specs.Keys.{key_name};

/// A key that a document may have.
#[derive(Clone, Copy, Debug, PartialEq, Eq)]
pub enum Key {
    /// `modulus`, an integer.
    Modulus,
    /// `extension`, an array of exactly two integers, which may be left out.
    Extension,
    /// `rack`, an array of arrays of integers.
    Rack,
    /// `cocycle`, an entry or an array of arrays of entries: integers, or with an extension also arrays of exactly two integers.
    Cocycle,
    /// `order`, an array of integers, which may be left out.
    Order,
    /// `expressions`, an array of strings, which may be left out.
    Expressions,
}

impl Key {
    /// The key as it is written.
    pub fn name(self) -> &'static str
        ensures { result.now ≡ key_name self }
    {
        match self {
            Key::Modulus => "modulus",
            Key::Extension => "extension",
            Key::Rack => "rack",
            Key::Cocycle => "cocycle",
            Key::Order => "order",
            Key::Expressions => "expressions",
        }
    }
}
