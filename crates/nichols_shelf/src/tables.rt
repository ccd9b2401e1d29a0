//! Tables that find an edge by its letter at a block.

ghost use Rattle.std.specs.Prelude.{◌≡◌, ◌+◌, ◌-◌, ◌*◌, ◌<◌, ◌≤◌, length, IfOk};
ghost use Rattle.nichols_tensor.specs.declared.TheConstants.{LETTER_LIMIT};
ghost use Rattle.nichols_core.specs.Layout.{IsLayout};
ghost use Rattle.nichols_shelf.specs.Tables.{FindsEntries, FindsExits, letter_place};

use nichols_core::Layout;
use nichols_tensor::LETTER_LIMIT;
use std::alloc::{AllocError, Global};

/// How many letters a block may have.
const LETTERS: usize = LETTER_LIMIT as usize;

/// Has the number of each edge at its upper block and letter.
pub(crate) fn entries(alloc: Global, layout: &Layout) -> Result<Vec<usize>, AllocError>
    ensures { IfOk result (λ v. FindsEntries v.items layout.now) }
{
    let mut table = Vec::from_elem(alloc, 0, places(layout))?;
    for number in 0..layout.edges.len() {
        let edge = layout.edge(number);
        table[letter_place(edge.upper, edge.letter)] = number;
    }
    Ok(table)
}

/// Has the number of each edge at its lower block and letter.
pub(crate) fn exits(alloc: Global, layout: &Layout) -> Result<Vec<usize>, AllocError>
    ensures { IfOk result (λ v. FindsExits v.items layout.now) }
{
    let mut table = Vec::from_elem(alloc, 0, places(layout))?;
    for number in 0..layout.edges.len() {
        let edge = layout.edge(number);
        table[letter_place(edge.lower, edge.letter)] = number;
    }
    Ok(table)
}

/// How many places a table has: one for each block and letter.
fn places(layout: &Layout) -> usize
    ensures size { result ≡ length layout.now.degrees * LETTER_LIMIT }
    ensures rules { IsLayout layout.now }
{
    layout.meets_its_rules();
    layout.degrees.len() * LETTERS
}

/// Where a table has the number of the edge of that letter at the block.
pub(crate) fn letter_place(block: u32, letter: u8) -> usize
    requires { 1 ≤ letter }
    ensures { result ≡ letter_place block letter }
{
    block as usize * LETTERS + (letter as usize - 1)
}
