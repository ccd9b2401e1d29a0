//! The text of any key.

ghost use Rattle.std.specs.Prelude.{◌≡◌, IfOk};

use std::alloc::{AllocError, Global};
use std::marker::Model;

/// The text of a key, which contracts see as its bytes.
#[derive(Debug, Drop)]
pub struct KeyText {
    text: String,
}

impl Model for KeyText {
    ghost use Rattle.std.specs.Prelude.{ℕ, List, string_bytes};

    ghost Value = { List ℕ };

    ghost view = { λ k. string_bytes k.text };
}

impl KeyText {
    /// The text in memory of its own.
    pub fn new(alloc: Global, text: &str) -> Result<KeyText, AllocError>
        ensures { IfOk result (λ k. k ≡ text.now) }
    {
        Ok(KeyText {
            text: String::from_str(alloc, text)?,
        })
    }

    /// The text.
    pub fn as_str(&self) -> &str
        ensures { result.now ≡ self.now }
    {
        self.text.as_str()
    }
}
