//! Documents: a braid, and expressions over its letters.
#![tactic(auto)]

mod document;
mod expressions;
mod faults;
mod key;
mod key_text;
mod keys;
pub mod laws;
mod shapes;

pub use document::{Document, read_certified, read_document};
pub use faults::InputFault;
pub use key::Key;
pub use key_text::KeyText;
pub use nichols_expression::{Cause, EXPRESSION_LIMIT, ExpressionFault, read_expression};

#[cfg(test)]
mod tests;

/// The most bytes of a document.
pub const DOCUMENT_LIMIT: usize = 1_048_576;
