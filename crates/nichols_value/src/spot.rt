//! Where the form of a candidate stands.

/// Where the form of a candidate `u b` stands: the letter b, and the place of u in the lower block by b.
#[derive(Clone, Copy)]
pub struct Spot {
    pub letter: u8,
    pub place: u32,
}
