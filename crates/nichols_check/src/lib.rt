//! Certificates of Nichols algebras: what a document certifies, and why it is refused.
#![tactic(auto)]

mod certified;
mod faults;
pub mod laws;

pub use certified::{Certified, CertifiedDegree};
pub use faults::CertificateFault;

/// The most tables of a certificate.
pub const TABLE_LIMIT: usize = 60;
