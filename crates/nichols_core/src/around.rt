//! Whether the edges around a block are picked or laid.

ghost use Rattle.std.specs.Prelude.{◌≡◌, length};
ghost use Rattle.nichols_core.specs.Machine.{none_picked, all_picked, all_laid};
ghost use Rattle.nichols_core.specs.States.{mark_at};

use crate::edge::Edge;
use crate::layout::Layout;

/// Whether no edge into the block is picked.
pub(crate) fn none_picked(layout: &Layout, picked: &[bool], block: u32) -> bool
    requires { length picked.now ≡ length layout.now.edges }
    ensures { result ≡ none_picked layout.now.edges (mark_at picked.now) block }
{
    let (first, end) = layout.entries(block);
    for i in first..end {
        if picked[i] {
            return false;
        }
    }
    true
}

/// Whether all edges into the block are picked.
pub(crate) fn all_picked(layout: &Layout, picked: &[bool], block: u32) -> bool
    requires { length picked.now ≡ length layout.now.edges }
    ensures { result ≡ all_picked layout.now.edges (mark_at picked.now) block }
{
    let (first, end) = layout.entries(block);
    for i in first..end {
        if !picked[i] {
            return false;
        }
    }
    true
}

/// Whether all edges out of the block are laid.
pub(crate) fn all_laid(edges: &[Edge], laid: &[bool], block: u32) -> bool
    requires { length laid.now ≡ length edges.now }
    ensures { result ≡ all_laid edges.now (mark_at laid.now) block }
{
    for i in 0..edges.len() {
        if edges[i].lower == block && !laid[i] {
            return false;
        }
    }
    true
}
