//! The top call: from the words of the command line and the bytes of a document to the report and the status.
#![tactic(auto)]

mod algebra;
mod commands;
mod cover;
mod cover_text;
mod entry;
pub mod laws;
mod line;
mod normals;
mod product;
mod product_text;
mod reduce;
mod status;
mod symmetrize;
mod table;
mod table_text;
mod writer;

pub use entry::run;
pub use status::Status;

#[cfg(test)]
mod tests;
