//! Products in Nichols algebras.
#![tactic(auto)]

mod factors;
pub mod laws;
mod parts;
mod products;
mod running;
mod word_products;

pub use products::{product_run, times};
pub use word_products::products_with;
