//! The headers of reports.

ghost use Rattle.std.specs.Prelude.{◌≡◌, ◌++◌, length, IfOk, OnOk};
ghost use Rattle.nichols_text.specs.Pieces.{extension_words, field_words, header_piece, order_words, symmetrize_piece};

use crate::number::push_number;
use nichols_braid::{Braid, Order};
use nichols_field::Field;
use std::alloc::{AllocError, Global};

/// `nichols <field> letters <n> degree <degree limit> rows <rows limit>`, with the order where it isn't 1 to n.
#[tactic(auto, unfolding(crate::specs::Pieces::header_piece))]
pub fn header_text(
    alloc: Global,
    braid: &Braid,
    order: &Order,
    degree_limit: u32,
    rows_limit: u32,
) -> Result<Vec<u8>, AllocError>
    requires { length order.now ≡ braid.now.letters }
    ensures { IfOk result (λ r. r.items ≡ header_piece braid.now order.now degree_limit rows_limit) }
{
    let mut out = Vec::from_slice(alloc, b"nichols ")?;
    push_field(&mut out, braid.field())?;
    out.extend_from_slice(b" letters ")?;
    push_number(&mut out, u64::from(braid.letters()))?;
    out.extend_from_slice(b" degree ")?;
    push_number(&mut out, u64::from(degree_limit))?;
    out.extend_from_slice(b" rows ")?;
    push_number(&mut out, u64::from(rows_limit))?;
    push_order(&mut out, braid, order)?;
    out.extend_from_slice(b"\n")?;
    Ok(out)
}

/// `nichols symmetrize <field> letters <n>`, with the order where it isn't 1 to n.
#[tactic(auto, unfolding(crate::specs::Pieces::symmetrize_piece))]
pub fn symmetrize_header(alloc: Global, braid: &Braid, order: &Order) -> Result<Vec<u8>, AllocError>
    requires { length order.now ≡ braid.now.letters }
    ensures { IfOk result (λ r. r.items ≡ symmetrize_piece braid.now order.now) }
{
    let mut out = Vec::from_slice(alloc, b"nichols symmetrize ")?;
    push_field(&mut out, braid.field())?;
    out.extend_from_slice(b" letters ")?;
    push_number(&mut out, u64::from(braid.letters()))?;
    push_order(&mut out, braid, order)?;
    out.extend_from_slice(b"\n")?;
    Ok(out)
}

/// Puts `p <p>` behind a text, and with an extension ` extension <a> <b>`.
#[tactic(auto, unfolding(crate::specs::Pieces::field_words))]
fn push_field(out: &mut Vec<u8>, field: Field) -> Result<(), AllocError>
    ensures { OnOk result (out.new.items ≡ out.old.items ++ field_words field) }
{
    out.extend_from_slice(b"p ")?;
    push_number(out, u64::from(field.modulus()))?;
    push_extension(out, field.extension())
}

/// Puts ` extension <a> <b>` behind a text, where there is an extension.
fn push_extension(out: &mut Vec<u8>, numbers: Option<(u32, u32)>) -> Result<(), AllocError>
    ensures { OnOk result (out.new.items ≡ out.old.items ++ extension_words numbers) }
{
    let Some(numbers) = numbers else {
        return Ok(());
    };
    out.extend_from_slice(b" extension ")?;
    push_number(out, u64::from(numbers.0))?;
    out.extend_from_slice(b" ")?;
    push_number(out, u64::from(numbers.1))?;
    Ok(())
}

/// Puts ` order` behind a text, with each letter of the order after a space, unless the order is 1 to n.
#[tactic(auto, unfolding(crate::specs::Pieces::order_words))]
fn push_order(out: &mut Vec<u8>, braid: &Braid, order: &Order) -> Result<(), AllocError>
    requires { length order.now ≡ braid.now.letters }
    ensures { OnOk result (out.new.items ≡ out.old.items ++ order_words braid.now.letters order.now) }
{
    let _field = braid.field();
    let list = order.list();
    if list == Order::plain(braid.letters()).list() {
        return Ok(());
    }
    out.extend_from_slice(b" order")?;
    for letter in list {
        out.extend_from_slice(b" ")?;
        push_number(out, u64::from(*letter))?;
    }
    Ok(())
}
