//! The report of images under the quantum symmetrizer.

ghost use Rattle.std.specs.Prelude.{◌≡◌, ◌≤◌, [], ◌∷◌, length, None};
ghost use Rattle.std.specs.List.{AllByRecursion};
ghost use Rattle.nichols_tensor.specs.Combination.{AllElements};
ghost use Rattle.nichols_tensor.specs.Words.{IsOver};
ghost use Rattle.nichols_expression.specs.declared.TheConstants.{EXPRESSION_LIMIT};
ghost use Rattle.nichols_lift.specs.Lengths.{AllAtMost};
ghost use Rattle.nichols_lift.specs.declared.TheConstants.{PLACE_LIMIT};
ghost use Rattle.nichols_text.specs.Pieces.{symmetrize_piece};
ghost use Rattle.nichols_top.specs.Report.{piece, numbered_pieces};
ghost use Rattle.nichols_top.specs.Symmetrize.{is_long, first_long, image_due, symmetrize_due};
ghost use Rattle.nichols_top.specs.Written.{IsStopped, writer_seen, Puts, Writes};

use crate::line::put_refusal;
use crate::status::Status;
use crate::writer::{Break, Writer};
use nichols_braid::{Braid, Order};
use nichols_input::Document;
use nichols_io::Sink;
use nichols_lift::{PLACE_LIMIT, symmetrize};
use nichols_text::{Refusal, image_text, symmetrize_header};
use nichols_words::Comb;
use std::alloc::Global;

/// Writes the images of a document's expressions, or the line of the first one that is too long.
pub(crate) fn put_symmetrize<K: Sink>(
    alloc: Global,
    document: &Document,
    out: &mut Writer<'_, K>,
) -> Result<Status, Break>
    requires letters { AllByRecursion (IsOver document.now.braid.letters) document.now.expressions }
    requires elements { AllByRecursion (AllElements document.now.braid.field) document.now.expressions }
    requires order { length document.now.order ≡ document.now.braid.letters }
    requires number { length document.now.expressions ≤ EXPRESSION_LIMIT }
    ensures same_sink { out.new.sink.ghost_name ≡ out.old.sink.ghost_name }
    ensures report { Writes (symmetrize_due document.now) (writer_seen K.taken K.faults out.old) (writer_seen K.taken K.faults out.new) result }
    ensures stopped { result ≡ Err Break.Fault → IsStopped K.taken K.faults out.old.sink.now out.new.sink.now }
{
    let expressions = document.expressions.as_slice();
    if let Some(number) = first_long(expressions) {
        return put_refusal(alloc, &Refusal::LongExpression(number), out);
    }
    put_header(alloc, &document.braid, &document.order, out)?;
    put_images(alloc, &document.braid, &document.order, expressions, out)?;
    Ok(Status::Complete)
}

/// The number, from 1, of the first expression with a word that is too long.
fn first_long(expressions: &[Comb]) -> Option<u32>
    requires { length expressions.now ≤ EXPRESSION_LIMIT }
    ensures number { result ≡ first_long 1 expressions.now }
    ensures short { result ≡ None → AllByRecursion (AllAtMost PLACE_LIMIT) expressions.now }
{
    let mut number = 1;
    for expression in expressions {
        if is_long(expression) {
            return Some(number);
        }
        number += 1;
    }
    None
}

/// Whether an expression has a word that is too long for the sum over all permutations.
fn is_long(expression: &Comb) -> bool
    ensures { result ≡ is_long expression.now }
{
    expression
        .terms()
        .iter()
        .any(|term| term.word.len() > PLACE_LIMIT)
}

/// Writes the header.
fn put_header<K: Sink>(
    alloc: Global,
    braid: &Braid,
    order: &Order,
    out: &mut Writer<'_, K>,
) -> Result<(), Break>
    requires { length order.now ≡ braid.now.letters }
    ensures same_sink { out.new.sink.ghost_name ≡ out.old.sink.ghost_name }
    ensures piece { Puts (piece (symmetrize_piece braid.now order.now) None ∷ []) (writer_seen K.taken K.faults out.old) (writer_seen K.taken K.faults out.new) result }
    ensures stopped { result ≡ Err Break.Fault → IsStopped K.taken K.faults out.old.sink.now out.new.sink.now }
{
    let text = symmetrize_header(alloc, braid, order)?;
    out.put(text.as_slice(), None)
}

/// Writes the images of expressions, numbered from 1 on.
fn put_images<K: Sink>(
    alloc: Global,
    braid: &Braid,
    order: &Order,
    expressions: &[Comb],
    out: &mut Writer<'_, K>,
) -> Result<(), Break>
    requires letters { AllByRecursion (IsOver braid.now.letters) expressions.now }
    requires elements { AllByRecursion (AllElements braid.now.field) expressions.now }
    requires short { AllByRecursion (AllAtMost PLACE_LIMIT) expressions.now }
    requires number { length expressions.now ≤ EXPRESSION_LIMIT }
    ensures same_sink { out.new.sink.ghost_name ≡ out.old.sink.ghost_name }
    ensures pieces { Puts (numbered_pieces (image_due braid.now order.now) 1 expressions.now) (writer_seen K.taken K.faults out.old) (writer_seen K.taken K.faults out.new) result }
    ensures stopped { result ≡ Err Break.Fault → IsStopped K.taken K.faults out.old.sink.now out.new.sink.now }
{
    let mut number = 1;
    for expression in expressions {
        put_image(alloc, braid, order, number, expression, out)?;
        number += 1;
    }
    Ok(())
}

/// Writes the image of an expression.
fn put_image<K: Sink>(
    alloc: Global,
    braid: &Braid,
    order: &Order,
    number: u32,
    expression: &Comb,
    out: &mut Writer<'_, K>,
) -> Result<(), Break>
    requires letters { IsOver braid.now.letters expression.now }
    requires elements { AllElements braid.now.field expression.now }
    requires short { AllAtMost PLACE_LIMIT expression.now }
    ensures same_sink { out.new.sink.ghost_name ≡ out.old.sink.ghost_name }
    ensures piece { Puts (image_due braid.now order.now number expression.now ∷ []) (writer_seen K.taken K.faults out.old) (writer_seen K.taken K.faults out.new) result }
    ensures stopped { result ≡ Err Break.Fault → IsStopped K.taken K.faults out.old.sink.now out.new.sink.now }
{
    let field = braid.field();
    let image = symmetrize(alloc, braid, expression)?;
    let text = image_text(alloc, field, order, number, &image)?;
    out.put(text.as_slice(), None)
}
