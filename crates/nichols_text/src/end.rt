//! The end piece of a report.

ghost use Rattle.std.specs.Prelude.{◌≡◌, ◌++◌, ◌≤◌, IfOk, OnOk, option_map};
ghost use Rattle.nichols_text.specs.Pieces.{end_line, StopsLater, hilbert_line, factors_line, closing_line, end_piece};

use crate::number::push_number;
use std::alloc::{AllocError, Global};

/// How an algebra ended.
#[derive(Clone, Copy, Debug, PartialEq, Eq)]
pub enum EndLine {
    /// The last degree is empty: the degree before it, and the sum of all dimensions.
    Closed {
        top: u32,
        dimension: u64,
    },
    /// The degree limit was reached: the last finished degree.
    DegreeLimit {
        last: u32,
    },
    /// Too many products: the degree that has them, which wasn't finished.
    Wide {
        degree: u32,
    },
    /// Too many rows: the degree that wasn't finished, the number of the product and its rows.
    Rows {
        degree: u32,
        product: u32,
        count: u64,
    },
}

/// The end line, the line of the dimensions of the finished degrees in order and, where the algebra is closed, the line of the
/// factors: `None` says that there are none. Elsewhere the factors aren't looked at.
#[tactic(auto, unfolding(crate::specs::Pieces::end_piece))]
pub fn end_text(
    alloc: Global,
    line: &EndLine,
    dimensions: &[u64],
    factors: Option<&[u32]>,
) -> Result<Vec<u8>, AllocError>
    requires { StopsLater line.now }
    ensures { IfOk result (λ r. r.items ≡ end_piece line.now dimensions.now (option_map (λ s. s.now) factors.entry)) }
{
    let mut out = Vec::new(alloc);
    push_end(&mut out, line)?;
    push_dimensions(&mut out, dimensions)?;
    push_closing(&mut out, line, factors)?;
    Ok(out)
}

/// Puts the end line behind a text.
fn push_end(out: &mut Vec<u8>, line: &EndLine) -> Result<(), AllocError>
    requires { StopsLater line.now }
    ensures { OnOk result (out.new.items ≡ out.old.items ++ end_line line.now) }
{
    match line {
        EndLine::Closed { top, dimension } => push_closed(out, *top, *dimension),
        EndLine::DegreeLimit { last } => push_degree_limit(out, *last),
        EndLine::Wide { degree } => push_wide(out, *degree),
        EndLine::Rows {
            degree,
            product,
            count,
        } => push_rows(out, *degree, *product, *count),
    }
}

/// Puts the line of a closed algebra behind a text.
#[tactic(auto, unfolding(crate::specs::Pieces::end_line))]
fn push_closed(out: &mut Vec<u8>, top: u32, dimension: u64) -> Result<(), AllocError>
    ensures { OnOk result (out.new.items ≡ out.old.items ++ end_line (EndLine.Closed top dimension)) }
{
    out.extend_from_slice(b"closed top ")?;
    push_number(out, u64::from(top))?;
    out.extend_from_slice(b" dimension ")?;
    push_number(out, dimension)?;
    out.extend_from_slice(b"\n")?;
    Ok(())
}

/// Puts the line of the degree limit behind a text.
#[tactic(auto, unfolding(crate::specs::Pieces::end_line))]
fn push_degree_limit(out: &mut Vec<u8>, last: u32) -> Result<(), AllocError>
    ensures { OnOk result (out.new.items ≡ out.old.items ++ end_line (EndLine.DegreeLimit last)) }
{
    out.extend_from_slice(b"stopped degree limit last ")?;
    push_number(out, u64::from(last))?;
    out.extend_from_slice(b"\n")?;
    Ok(())
}

/// Puts the line of a degree with too many products behind a text.
#[tactic(auto, unfolding(crate::specs::Pieces::end_line))]
fn push_wide(out: &mut Vec<u8>, degree: u32) -> Result<(), AllocError>
    requires { 1 ≤ degree }
    ensures { OnOk result (out.new.items ≡ out.old.items ++ end_line (EndLine.Wide degree)) }
{
    let last = degree - 1;
    out.extend_from_slice(b"stopped wide degree ")?;
    push_number(out, u64::from(degree))?;
    out.extend_from_slice(b" last ")?;
    push_number(out, u64::from(last))?;
    out.extend_from_slice(b"\n")?;
    Ok(())
}

/// Puts the line of a product with too many rows behind a text.
#[tactic(auto, unfolding(crate::specs::Pieces::end_line))]
fn push_rows(out: &mut Vec<u8>, degree: u32, product: u32, count: u64) -> Result<(), AllocError>
    requires { 1 ≤ degree }
    ensures { OnOk result (out.new.items ≡ out.old.items ++ end_line (EndLine.Rows degree product count)) }
{
    out.extend_from_slice(b"stopped rows degree ")?;
    push_number(out, u64::from(degree))?;
    out.extend_from_slice(b" product ")?;
    push_number(out, u64::from(product))?;
    out.extend_from_slice(b" count ")?;
    push_number(out, count)?;
    out.extend_from_slice(b" last ")?;
    push_number(out, u64::from(degree - 1))?;
    out.extend_from_slice(b"\n")?;
    Ok(())
}

/// Puts the Hilbert line behind a text.
#[tactic(auto, unfolding(crate::specs::Pieces::hilbert_line))]
fn push_dimensions(out: &mut Vec<u8>, dimensions: &[u64]) -> Result<(), AllocError>
    ensures { OnOk result (out.new.items ≡ out.old.items ++ hilbert_line dimensions.now) }
{
    out.extend_from_slice(b"hilbert")?;
    for dimension in dimensions {
        out.extend_from_slice(b" ")?;
        push_number(out, *dimension)?;
    }
    out.extend_from_slice(b"\n")?;
    Ok(())
}

/// Puts the factors line of a closed algebra behind a text, and nothing for another.
fn push_closing(
    out: &mut Vec<u8>,
    line: &EndLine,
    factors: Option<&[u32]>,
) -> Result<(), AllocError>
    ensures { OnOk result (out.new.items ≡ out.old.items ++ closing_line line.now (option_map (λ s. s.now) factors.entry)) }
{
    match line {
        EndLine::Closed { .. } => push_factors(out, factors),
        _ => Ok(()),
    }
}

/// Puts the factors line behind a text.
#[tactic(auto, unfolding(crate::specs::Pieces::factors_line))]
fn push_factors(out: &mut Vec<u8>, factors: Option<&[u32]>) -> Result<(), AllocError>
    ensures { OnOk result (out.new.items ≡ out.old.items ++ factors_line (option_map (λ s. s.now) factors.entry)) }
{
    let Some(numbers) = factors else {
        out.extend_from_slice(b"factors none\n")?;
        return Ok(());
    };
    out.extend_from_slice(b"factors")?;
    for factor in numbers {
        out.extend_from_slice(b" ")?;
        push_number(out, u64::from(*factor))?;
    }
    out.extend_from_slice(b"\n")?;
    Ok(())
}
