//! The lines of a quadratic cover.

ghost use Rattle.std.specs.Prelude.{◌≡◌, ◌++◌, ◌-◌, IfOk, OnOk};
ghost use Rattle.nichols_top.specs.CoverLines.{comparison_line, cover_lines, dimensions_line, stop_line};

use nichols_cover::{Cover, CoverStop};
use nichols_text::{push_number, push_numbered};
use std::alloc::{AllocError, Global};

/// The line of a cover's dimensions, the line that compares it with its algebra, by the first degree in which their dimensions differ, and
/// the line of the stop, where it stopped.
#[tactic(auto, unfolding(crate::specs::CoverLines::cover_lines))]
pub(crate) fn cover_text(
    alloc: Global,
    cover: &Cover,
    difference: Option<u32>,
) -> Result<Vec<u8>, AllocError>
    ensures { IfOk result (λ r. r.items ≡ cover_lines cover.now difference) }
{
    let mut out = Vec::new(alloc);
    push_dimensions(&mut out, cover.dimensions.as_slice())?;
    push_comparison(&mut out, difference, cover.dimensions.len())?;
    push_stop(&mut out, cover.stop)?;
    Ok(out)
}

/// Puts the line of the dimensions behind a text.
#[tactic(auto, unfolding(crate::specs::CoverLines::dimensions_line))]
fn push_dimensions(out: &mut Vec<u8>, dimensions: &[u64]) -> Result<(), AllocError>
    ensures { OnOk result (out.new.items ≡ out.old.items ++ dimensions_line dimensions.now) }
{
    out.extend_from_slice(b"cover")?;
    for dimension in dimensions {
        out.extend_from_slice(b" ")?;
        push_number(out, *dimension)?;
    }
    out.extend_from_slice(b"\n")?;
    Ok(())
}

/// Puts the line that compares so many dimensions behind a text.
#[tactic(auto, unfolding(crate::specs::CoverLines::comparison_line))]
fn push_comparison(
    out: &mut Vec<u8>,
    difference: Option<u32>,
    degrees: usize,
) -> Result<(), AllocError>
    ensures { OnOk result (out.new.items ≡ out.old.items ++ comparison_line difference (degrees - 1)) }
{
    match difference {
        None => push_numbered(
            out,
            "cover equal through ",
            degrees.saturating_sub(1) as u64,
            "\n",
        ),
        Some(degree) => push_numbered(out, "cover differs first at ", u64::from(degree), "\n"),
    }
}

/// Puts the line of a stop behind a text.
#[tactic(auto, unfolding(crate::specs::CoverLines::stop_line))]
fn push_stop(out: &mut Vec<u8>, stop: Option<CoverStop>) -> Result<(), AllocError>
    ensures { OnOk result (out.new.items ≡ out.old.items ++ stop_line stop) }
{
    let Some(CoverStop { degree, count }) = stop else {
        return Ok(());
    };
    out.extend_from_slice(b"cover stopped degree ")?;
    push_number(out, u64::from(degree))?;
    out.extend_from_slice(b" count ")?;
    push_number(out, count)?;
    out.extend_from_slice(b"\n")?;
    Ok(())
}
