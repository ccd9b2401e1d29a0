//! The texts that the program prints, each as a function of what it tells.
#![tactic(auto)]

mod degree;
mod end;
mod expressions;
mod header;
mod key_line;
mod line;
mod number;
mod refusal;
mod table_lines;
mod word;

pub use degree::{brief_degree_text, degree_text};
pub use end::{EndLine, end_text};
pub use expressions::{beyond_text, form_text, image_text};
pub use header::{header_text, symmetrize_header};
pub use line::{Line, memory_line, read_fault_line, usage_line};
pub use number::{push_number, push_numbered};
pub use refusal::{Refusal, refusal_text};
pub use word::{push_form, push_word};

#[cfg(test)]
mod tests;
