//! The lines of a table of products.

ghost use Rattle.std.specs.Prelude.{◌≡◌, IfOk};
ghost use Rattle.nichols_top.specs.TableLines.{times_line, too_large_line};

use nichols_braid::Order;
use nichols_field::Field;
use nichols_text::{push_form, push_numbered, push_word};
use nichols_words::{Comb, Word};
use std::alloc::{AllocError, Global};

/// `times <u> <v> = <form>`: the normal form of the product of two words.
#[tactic(auto, unfolding(crate::specs::TableLines::times_line))]
pub(crate) fn times_text(
    alloc: Global,
    field: Field,
    order: &Order,
    u: &Word,
    v: &Word,
    form: &Comb,
) -> Result<Vec<u8>, AllocError>
    ensures { IfOk result (λ r. r.items ≡ times_line field order.now u.now v.now form.now) }
{
    let mut out = Vec::from_slice(alloc, b"times ")?;
    push_word(&mut out, order, u)?;
    out.extend_from_slice(b" ")?;
    push_word(&mut out, order, v)?;
    out.extend_from_slice(b" = ")?;
    push_form(&mut out, field, order, form)?;
    out.extend_from_slice(b"\n")?;
    Ok(out)
}

/// `table too large <d>`: the algebra has this dimension.
#[tactic(auto, unfolding(crate::specs::TableLines::too_large_line))]
pub(crate) fn too_large_text(alloc: Global, dimension: u64) -> Result<Vec<u8>, AllocError>
    ensures { IfOk result (λ r. r.items ≡ too_large_line dimension) }
{
    let mut out = Vec::new(alloc);
    push_numbered(&mut out, "table too large ", dimension, "\n")?;
    Ok(out)
}
