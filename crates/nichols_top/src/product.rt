//! The report of products.

ghost use Rattle.std.specs.Prelude.{◌≡◌, ◌≤◌, length, map, IfOk};
ghost use Rattle.std.specs.List.{AllByRecursion, range_with_len};
ghost use Rattle.nichols_tensor.specs.Combination.{AllElements};
ghost use Rattle.nichols_tensor.specs.Words.{IsOver};
ghost use Rattle.nichols_command.specs.Command.{AreInRange};
ghost use Rattle.nichols_crew.specs.Counting.{HasCounted};
ghost use Rattle.nichols_expression.specs.declared.TheConstants.{EXPRESSION_LIMIT};
ghost use Rattle.nichols_product.specs.Products.{products_of};
ghost use Rattle.nichols_top.specs.Algebra.{scope_of};
ghost use Rattle.nichols_top.specs.Counted.{algebra_blocks};
ghost use Rattle.nichols_top.specs.Ended.{HasEnd};
ghost use Rattle.nichols_top.specs.Product.{first_product_due, product_due};
ghost use Rattle.nichols_top.specs.Written.{IsStopped, writer_seen, Puts, Writes};

use crate::algebra::{Ended, put_pieces, status_of};
use crate::normals::{Told, put_normals};
use crate::status::Status;
use crate::writer::{Break, Writer};
use nichols_braid::Order;
use nichols_command::Options;
use nichols_crew::Gate;
use nichols_graded::Graded;
use nichols_input::Document;
use nichols_io::Sink;
use nichols_memo::Memo;
use nichols_product::product_run;
use nichols_reduce::Normal;
use nichols_words::Comb;
use std::alloc::{AllocError, Global};
use std::thread::Threads;

/// The slots of the memo that products are given, which ask nothing of it.
const SLOTS: u32 = 1;

/// Writes the report of the algebra of a document's braid, and the products of its first expressions.
pub(crate) fn put_product<R: Threads + Sync, K: Sink, G: Gate + Sync>(
    rt: &R,
    alloc: Global,
    document: Document,
    options: Options,
    out: &mut Writer<'_, K>,
    gate: &mut G,
) -> Result<Status, Break>
    requires options { AreInRange options }
    requires letters { AllByRecursion (IsOver document.braid.letters) document.expressions }
    requires elements { AllByRecursion (AllElements document.braid.field) document.expressions }
    requires order { length document.order ≡ document.braid.letters }
    requires number { length document.expressions ≤ EXPRESSION_LIMIT }
    ensures same_sink { out.new.sink.ghost_name ≡ out.old.sink.ghost_name }
    ensures report { Writes (product_due document (scope_of options)) (writer_seen K.taken K.faults out.old) (writer_seen K.taken K.faults out.new) result }
    ensures counted { IfOk result (λ _. HasCounted (algebra_blocks document.braid (scope_of options)) (G.count gate.old) (G.count gate.new)) }
    ensures stopped { result ≡ Err Break.Fault → IsStopped K.taken K.faults out.old.sink.now out.new.sink.now }
{
    let Document {
        braid,
        order,
        expressions,
    } = document;
    let ended = put_pieces(rt, alloc, braid, &order, options, out, gate)?;
    put_first_products(alloc, &ended, &order, expressions.as_slice(), out)?;
    Ok(status_of(ended.stop))
}

/// Writes the products of the first expression, of the first two, and so on up to all of them.
fn put_first_products<K: Sink>(
    alloc: Global,
    ended: &Ended,
    order: &Order,
    expressions: &[Comb],
    out: &mut Writer<'_, K>,
) -> Result<(), Break>
    requires reached { HasEnd ended.now.graded ended.now.stop }
    requires letters { AllByRecursion (IsOver ended.now.graded.braid.letters) expressions.now }
    requires elements { AllByRecursion (AllElements ended.now.graded.braid.field) expressions.now }
    requires number { length expressions.now ≤ EXPRESSION_LIMIT }
    ensures same_sink { out.new.sink.ghost_name ≡ out.old.sink.ghost_name }
    ensures pieces { Puts (map (first_product_due ended.now.graded.braid order.now ended.now.stop ended.now.graded.last expressions.now) (range_with_len 1 (length expressions.now))) (writer_seen K.taken K.faults out.old) (writer_seen K.taken K.faults out.new) result }
    ensures stopped { result ≡ Err Break.Fault → IsStopped K.taken K.faults out.old.sink.now out.new.sink.now }
{
    // Nothing is left to write, so that no memory may be asked for.
    if expressions.is_empty() {
        return Ok(());
    }
    let products = first_products(alloc, &ended.graded, expressions)?;
    let field = ended.graded.levels().braid().field();
    put_normals(
        alloc,
        Told::Products,
        field,
        order,
        products.as_slice(),
        out,
    )
}

/// What is known of these products.
fn first_products(
    alloc: Global,
    graded: &Graded,
    expressions: &[Comb],
) -> Result<Vec<Normal>, AllocError>
    requires letters { AllByRecursion (IsOver graded.now.braid.letters) expressions.now }
    requires elements { AllByRecursion (AllElements graded.now.braid.field) expressions.now }
    ensures { IfOk result (λ r. r.items ≡ products_of graded.now.braid graded.now.last expressions.now) }
{
    let levels = graded.levels();
    let (memo, mut seat) = Memo::start(alloc, levels.braid(), SLOTS)?;
    product_run(alloc, levels, &memo, &mut seat, expressions)
}
