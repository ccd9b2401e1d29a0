//! Tests of crates that take long to prove, by their public calls: over these crates as libraries, so that they aren't proved
//! again for their tests.
#![tactic(auto)]

#[cfg(test)]
mod elimination;
#[cfg(test)]
mod machine;
#[cfg(test)]
mod products;
