//! Edges, and the two orders that show whether a letter stands twice at a block.

ghost use Rattle.std.specs.Prelude.{◌≡◌, ◌↔◌, IsTrue, IsPermutation};
ghost use Rattle.std.specs.List.Sorted.{IsNonDecreasingBy};
ghost use Rattle.nichols_core.specs.Layout.{IsRisingBy, exit_place, entry_place};

/// An edge from a block to one of the next degree, with a letter from 1 to `LETTER_LIMIT`. Blocks count from 0.
#[derive(Clone, Copy, Debug, PartialEq, Eq, Drop)]
pub struct Edge {
    pub lower: u32,
    pub letter: u8,
    pub upper: u32,
}

/// A number that rises with the lower block, and then with the letter.
fn exit_place(edge: &Edge) -> u64
    ensures { result ≡ exit_place edge.now }
{
    u64::from(edge.lower) * 256 + u64::from(edge.letter)
}

/// A number that rises with the upper block, and then with the letter.
pub(crate) fn entry_place(edge: &Edge) -> u64
    ensures { result ≡ entry_place edge.now }
{
    u64::from(edge.upper) * 256 + u64::from(edge.letter)
}

pub(crate) fn sort_by_exit(edges: &mut Vec<Edge>)
    ensures permutation { IsPermutation edges.old.items edges.new.items }
    ensures sorted { IsNonDecreasingBy exit_place edges.new.items }
{
    edges.sort_unstable_by_key(|edge| exit_place(edge));
}

pub(crate) fn sort_by_entry(edges: &mut Vec<Edge>)
    ensures permutation { IsPermutation edges.old.items edges.new.items }
    ensures sorted { IsNonDecreasingBy entry_place edges.new.items }
{
    edges.sort_unstable_by_key(|edge| entry_place(edge));
}

/// Whether the places at which the edges leave their lower blocks rise, so that no two are equal.
pub(crate) fn leave_apart(edges: &[Edge]) -> bool
    ensures { IsTrue result ↔ IsRisingBy exit_place edges.now }
{
    for i in 1..edges.len() {
        if exit_place(&edges[i - 1]) >= exit_place(&edges[i]) {
            return false;
        }
    }
    true
}

/// Whether the places at which the edges enter their upper blocks rise, so that no two are equal.
pub(crate) fn enter_apart(edges: &[Edge]) -> bool
    ensures { IsTrue result ↔ IsRisingBy entry_place edges.now }
{
    for i in 1..edges.len() {
        if entry_place(&edges[i - 1]) >= entry_place(&edges[i]) {
            return false;
        }
    }
    true
}
