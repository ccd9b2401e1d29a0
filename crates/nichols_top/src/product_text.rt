//! The lines of products of expressions.

ghost use Rattle.std.specs.Prelude.{◌≡◌, IfOk};
ghost use Rattle.nichols_top.specs.ProductLines.{product_line, product_beyond_line};

use nichols_braid::Order;
use nichols_field::Field;
use nichols_text::{push_form, push_number, push_numbered};
use nichols_words::Comb;
use std::alloc::{AllocError, Global};

/// `product <k> = <form>`: the normal form of the product of the first k expressions.
#[tactic(auto, unfolding(crate::specs::ProductLines::product_line))]
pub(crate) fn product_text(
    alloc: Global,
    field: Field,
    order: &Order,
    number: u32,
    form: &Comb,
) -> Result<Vec<u8>, AllocError>
    ensures { IfOk result (λ r. r.items ≡ product_line field order.now number form.now) }
{
    let mut out = Vec::new(alloc);
    push_numbered(&mut out, "product ", u64::from(number), " = ")?;
    push_form(&mut out, field, order, form)?;
    out.extend_from_slice(b"\n")?;
    Ok(out)
}

/// `product <k> beyond <m>`: the product of the first k expressions is beyond the last finished degree m.
#[tactic(auto, unfolding(crate::specs::ProductLines::product_beyond_line))]
pub(crate) fn product_beyond_text(
    alloc: Global,
    number: u32,
    last: u32,
) -> Result<Vec<u8>, AllocError>
    ensures { IfOk result (λ r. r.items ≡ product_beyond_line number last) }
{
    let mut out = Vec::new(alloc);
    push_numbered(&mut out, "product ", u64::from(number), " beyond ")?;
    push_number(&mut out, u64::from(last))?;
    out.extend_from_slice(b"\n")?;
    Ok(out)
}
