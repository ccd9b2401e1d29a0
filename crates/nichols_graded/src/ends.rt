//! How the degrees of an algebra end.

/// Why the degrees stop before an empty one.
#[derive(Clone, Copy, Debug, PartialEq, Eq)]
pub enum Stop {
    /// The next degree is beyond the degree limit.
    DegreeLimit,
    /// The next degree, which is named, has more products than [`nichols_braid::MOST_PRODUCTS`].
    Wide(u32),
    /// In the next degree a product has more candidates than the rows limit.
    Rows {
        /// The degree.
        degree: u32,
        /// The number of the first such product in its degree, from 1 on.
        product: u32,
        /// The number of its candidates.
        count: u64,
    },
}

/// The end of the degrees.
#[derive(Clone, Copy, Debug, PartialEq, Eq)]
pub enum End {
    /// The last finished degree is empty, and so are all later ones.
    Closed,
    /// No further degree is made.
    Stopped(Stop),
    /// There was no memory for a block of the next degree.
    Starved,
}

/// What one call made.
#[derive(Clone, Copy, Debug)]
pub struct Advance {
    /// How many degrees were finished: at most the window.
    pub finished: u32,
    /// The end, where it was reached in this call.
    pub end: Option<End>,
}
