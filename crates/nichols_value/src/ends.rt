//! Where a least word stands below without its end letters.

/// Where a least word stands without its last letter, and without its first one: its places among the words of the lower blocks.
#[derive(Clone, Copy)]
pub struct Ends {
    pub front: u32,
    pub back: u32,
}
