//! The lines of normal forms.

ghost use Rattle.std.specs.Prelude.{◌≡◌, ◌≤◌, [], ◌∷◌, length, IfOk};
ghost use Rattle.nichols_expression.specs.declared.TheConstants.{EXPRESSION_LIMIT};
ghost use Rattle.nichols_top.specs.NormalLine.{normal_line, normal_piece};
ghost use Rattle.nichols_top.specs.Report.{numbered_pieces};
ghost use Rattle.nichols_top.specs.Written.{IsStopped, writer_seen, Puts};

use crate::product_text::{product_beyond_text, product_text};
use crate::writer::{Break, Writer};
use nichols_braid::Order;
use nichols_field::Field;
use nichols_io::Sink;
use nichols_reduce::Normal;
use nichols_text::{beyond_text, form_text};
use std::alloc::{AllocError, Global};

/// What lines of normal forms tell of.
#[derive(Clone, Copy)]
pub(crate) enum Told {
    /// The expressions of a document, one by one.
    Forms,
    /// The products of its first expressions.
    Products,
}

/// Writes what is known of normal forms, of expressions or of products, numbered from 1 on.
pub(crate) fn put_normals<K: Sink>(
    alloc: Global,
    told: Told,
    field: Field,
    order: &Order,
    normals: &[Normal],
    out: &mut Writer<'_, K>,
) -> Result<(), Break>
    requires number { length normals.now ≤ EXPRESSION_LIMIT }
    ensures same_sink { out.new.sink.ghost_name ≡ out.old.sink.ghost_name }
    ensures pieces { Puts (numbered_pieces (normal_piece told field order.now) 1 normals.now) (writer_seen K.taken K.faults out.old) (writer_seen K.taken K.faults out.new) result }
    ensures stopped { result ≡ Err Break.Fault → IsStopped K.taken K.faults out.old.sink.now out.new.sink.now }
{
    let mut number = 1;
    for normal in normals {
        put_normal(alloc, told, field, order, number, normal, out)?;
        number += 1;
    }
    Ok(())
}

/// Writes a normal form, or that it is beyond the last finished degree.
fn put_normal<K: Sink>(
    alloc: Global,
    told: Told,
    field: Field,
    order: &Order,
    number: u32,
    normal: &Normal,
    out: &mut Writer<'_, K>,
) -> Result<(), Break>
    ensures same_sink { out.new.sink.ghost_name ≡ out.old.sink.ghost_name }
    ensures piece { Puts (normal_piece told field order.now number normal.now ∷ []) (writer_seen K.taken K.faults out.old) (writer_seen K.taken K.faults out.new) result }
    ensures stopped { result ≡ Err Break.Fault → IsStopped K.taken K.faults out.old.sink.now out.new.sink.now }
{
    let text = normal_text(alloc, told, field, order, number, normal)?;
    out.put(text.as_slice(), None)
}

/// The line of a normal form, or of one that is beyond the last finished degree.
fn normal_text(
    alloc: Global,
    told: Told,
    field: Field,
    order: &Order,
    number: u32,
    normal: &Normal,
) -> Result<Vec<u8>, AllocError>
    ensures { IfOk result (λ text. text.items ≡ normal_line told field order.now number normal.now) }
{
    match (told, normal) {
        (Told::Forms, Normal::Form(form)) => form_text(alloc, field, order, number, form),
        (Told::Forms, Normal::Beyond(last)) => beyond_text(alloc, number, *last),
        (Told::Products, Normal::Form(form)) => product_text(alloc, field, order, number, form),
        (Told::Products, Normal::Beyond(last)) => product_beyond_text(alloc, number, *last),
    }
}
