//! The lines of rows and scalars that aren't a braid.

ghost use Rattle.std.specs.Prelude.{◌≡◌, ◌++◌, Some, IfOk, OnOk, codes, decimal, option_map};
ghost use Rattle.nichols_field.specs.Pairs.{pair};
ghost use Rattle.nichols_braid.specs.FaultAnswers.{table_fault_in};
ghost use Rattle.nichols_text.specs.Refusals.{cocycle_zero_text, letters_text, not_bijective_text, not_cocycle_text, not_distributive_text, rack_entry_text, table_line};

use crate::number::{numbered_text, push_integer, push_number, push_numbered};
use crate::word::push_parts;
use nichols_braid::{BraidFault, Shown};
use nichols_tensor::LETTER_LIMIT;
use std::alloc::{AllocError, Global};

/// The line of rows and scalars that aren't a braid.
#[tactic(auto, unfolding(crate::specs::Refusals::rack_shape_text, crate::specs::Refusals::cocycle_shape_text))]
pub(crate) fn tables_text(alloc: Global, fault: &BraidFault) -> Result<Vec<u8>, AllocError>
    ensures { IfOk result (λ r. option_map table_line (table_fault_in fault.now) ≡ Some r.items) }
{
    match fault {
        BraidFault::Letters(n) => letters_text(alloc, *n as u64),
        BraidFault::RackShape(row) => numbered_text(
            alloc,
            "refused: rack row ",
            *row as u64,
            " has a wrong length\n",
        ),
        BraidFault::RackEntry(i, j, v) => rack_entry_text(alloc, *i, *j, *v),
        BraidFault::NotBijective(i, j, k, v) => not_bijective_text(alloc, *i, *j, *k, *v),
        BraidFault::NotDistributive(i, j, k, left, right) => {
            not_distributive_text(alloc, *i, *j, *k, *left, *right)
        }
        BraidFault::CocycleShape(row) => numbered_text(
            alloc,
            "refused: cocycle row ",
            *row as u64,
            " is missing, surplus or of a wrong length\n",
        ),
        BraidFault::CocycleZero(i, j) => cocycle_zero_text(alloc, *i, *j),
        BraidFault::NotCocycle(i, j, k, left, right) => {
            not_cocycle_text(alloc, *i, *j, *k, *left, *right)
        }
        BraidFault::Memory => Err(AllocError),
    }
}

/// The line for a number of letters that no rack has.
#[tactic(auto, unfolding(crate::specs::Refusals::letters_text))]
fn letters_text(alloc: Global, n: u64) -> Result<Vec<u8>, AllocError>
    ensures { IfOk result (λ r. r.items ≡ letters_text n) }
{
    let mut out = Vec::from_slice(alloc, b"refused: ")?;
    push_number(&mut out, n)?;
    push_numbered(
        &mut out,
        " letters outside 1 to ",
        u64::from(LETTER_LIMIT),
        "\n",
    )?;
    Ok(out)
}

/// The line for an entry of the rack that is no letter.
#[tactic(auto, unfolding(crate::specs::Refusals::rack_entry_text))]
fn rack_entry_text(alloc: Global, i: u32, j: u32, v: i64) -> Result<Vec<u8>, AllocError>
    ensures { IfOk result (λ r. r.items ≡ rack_entry_text i j v) }
{
    let mut out = Vec::from_slice(alloc, b"refused: rack entry ")?;
    push_number(&mut out, u64::from(i))?;
    out.extend_from_slice(b" ")?;
    push_number(&mut out, u64::from(j))?;
    out.extend_from_slice(b" is ")?;
    push_integer(&mut out, v)?;
    out.extend_from_slice(b"\n")?;
    Ok(out)
}

/// The line for a row of the rack that has one letter twice.
#[tactic(auto, unfolding(crate::specs::Refusals::not_bijective_text))]
fn not_bijective_text(alloc: Global, i: u8, j: u8, k: u8, v: u8) -> Result<Vec<u8>, AllocError>
    ensures { IfOk result (λ r. r.items ≡ not_bijective_text i j k v) }
{
    let mut out = Vec::from_slice(alloc, b"refused: rack row ")?;
    push_number(&mut out, u64::from(i))?;
    out.extend_from_slice(b" has ")?;
    push_number(&mut out, u64::from(v))?;
    out.extend_from_slice(b" at places ")?;
    push_number(&mut out, u64::from(j))?;
    out.extend_from_slice(b" and ")?;
    push_number(&mut out, u64::from(k))?;
    out.extend_from_slice(b"\n")?;
    Ok(out)
}

/// The line for a table that isn't distributive at i, j, k: there `i ▷ (j ▷ k)` is `left`, and `(i ▷ j) ▷ (i ▷ k)` is `right`.
#[tactic(auto, unfolding(crate::specs::Refusals::not_distributive_text, crate::specs::Refusals::sides_text))]
fn not_distributive_text(
    alloc: Global,
    i: u8,
    j: u8,
    k: u8,
    left: u8,
    right: u8,
) -> Result<Vec<u8>, AllocError>
    ensures { IfOk result (λ r. r.items ≡ not_distributive_text i j k left right) }
{
    let mut out = Vec::from_slice(alloc, b"refused: not distributive at ")?;
    push_letters(&mut out, i, j, k)?;
    push_number(&mut out, u64::from(left))?;
    out.extend_from_slice(b" and ")?;
    push_number(&mut out, u64::from(right))?;
    out.extend_from_slice(b"\n")?;
    Ok(out)
}

/// The line for a scalar that is zero.
#[tactic(auto, unfolding(crate::specs::Refusals::cocycle_zero_text))]
fn cocycle_zero_text(alloc: Global, i: u8, j: u8) -> Result<Vec<u8>, AllocError>
    ensures { IfOk result (λ r. r.items ≡ cocycle_zero_text i j) }
{
    let mut out = Vec::from_slice(alloc, b"refused: cocycle entry ")?;
    push_number(&mut out, u64::from(i))?;
    out.extend_from_slice(b" ")?;
    push_number(&mut out, u64::from(j))?;
    out.extend_from_slice(b" is zero\n")?;
    Ok(out)
}

/// The line for scalars that are no cocycle at i, j, k: there `q(i, j ▷ k) q(j, k)` is `left`, and `q(i ▷ j, i ▷ k) q(i, k)` is `right`.
#[tactic(auto, unfolding(crate::specs::Refusals::not_cocycle_text, crate::specs::Refusals::sides_text))]
fn not_cocycle_text(
    alloc: Global,
    i: u8,
    j: u8,
    k: u8,
    left: Shown,
    right: Shown,
) -> Result<Vec<u8>, AllocError>
    ensures { IfOk result (λ r. r.items ≡ not_cocycle_text i j k (pair left.low left.high) (pair right.low right.high)) }
{
    let mut out = Vec::from_slice(alloc, b"refused: not a cocycle at ")?;
    push_letters(&mut out, i, j, k)?;
    push_parts(&mut out, left.low, left.high)?;
    out.extend_from_slice(b" and ")?;
    push_parts(&mut out, right.low, right.high)?;
    out.extend_from_slice(b"\n")?;
    Ok(out)
}

/// Puts three letters behind a text, and a colon.
fn push_letters(out: &mut Vec<u8>, i: u8, j: u8, k: u8) -> Result<(), AllocError>
    ensures { OnOk result (out.new.items ≡ out.old.items ++ (decimal i ++ codes " " ++ decimal j ++ codes " " ++ decimal k ++ codes ": ")) }
{
    push_number(out, u64::from(i))?;
    out.extend_from_slice(b" ")?;
    push_number(out, u64::from(j))?;
    out.extend_from_slice(b" ")?;
    push_number(out, u64::from(k))?;
    out.extend_from_slice(b": ")?;
    Ok(())
}
