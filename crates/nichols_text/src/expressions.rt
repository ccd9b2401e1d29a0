//! The lines of a document's expressions.

ghost use Rattle.std.specs.Prelude.{◌≡◌, ◌++◌, IfOk, codes, decimal};
ghost use Rattle.nichols_expression.specs.Printed.{form_text};
ghost use Rattle.nichols_text.specs.Expressions.{image_line, form_line, beyond_line};

use crate::number::push_number;
use crate::word::push_form;
use nichols_braid::Order;
use nichols_field::Field;
use nichols_words::Comb;
use std::alloc::{AllocError, Global};

/// `image <k> = <image>`: the image of expression k, counted from 1.
#[tactic(auto, unfolding(crate::specs::Expressions::image_line))]
pub fn image_text(
    alloc: Global,
    field: Field,
    order: &Order,
    number: u32,
    image: &Comb,
) -> Result<Vec<u8>, AllocError>
    ensures { IfOk result (λ r. r.items ≡ image_line field order.now number image.now) }
{
    equation_text(alloc, field, order, "image ", number, image)
}

/// `form <k> = <form>`: the normal form of expression k, counted from 1.
#[tactic(auto, unfolding(crate::specs::Expressions::form_line))]
pub fn form_text(
    alloc: Global,
    field: Field,
    order: &Order,
    number: u32,
    form: &Comb,
) -> Result<Vec<u8>, AllocError>
    ensures { IfOk result (λ r. r.items ≡ form_line field order.now number form.now) }
{
    equation_text(alloc, field, order, "form ", number, form)
}

/// `form <k> beyond <m>`: expression k, counted from 1, has a longer word than the last finished degree m.
#[tactic(auto, unfolding(crate::specs::Expressions::beyond_line))]
pub fn beyond_text(alloc: Global, number: u32, last: u32) -> Result<Vec<u8>, AllocError>
    ensures { IfOk result (λ r. r.items ≡ beyond_line number last) }
{
    let mut out = Vec::from_slice(alloc, b"form ")?;
    push_number(&mut out, u64::from(number))?;
    out.extend_from_slice(b" beyond ")?;
    push_number(&mut out, u64::from(last))?;
    out.extend_from_slice(b"\n")?;
    Ok(out)
}

/// What is told of a numbered expression, as a combination that it is.
fn equation_text(
    alloc: Global,
    field: Field,
    order: &Order,
    before: &str,
    number: u32,
    value: &Comb,
) -> Result<Vec<u8>, AllocError>
    ensures { IfOk result (λ r. r.items ≡ before.now ++ decimal number ++ codes " = " ++ form_text field order.now value.now ++ codes "\n") }
{
    let mut out = Vec::from_slice(alloc, before.as_bytes())?;
    push_number(&mut out, u64::from(number))?;
    out.extend_from_slice(b" = ")?;
    push_form(&mut out, field, order, value)?;
    out.extend_from_slice(b"\n")?;
    Ok(out)
}
