//! The report of a table of products.

ghost use Rattle.std.specs.Prelude.{◌≡◌, ◌<◌, ◌≤◌, [], ◌∷◌, suc, true, length, map, sum, IfOk};
ghost use Rattle.std.specs.List.{AllByRecursion, range_with_len};
ghost use Rattle.nichols_tensor.specs.Words.{IsWordOver};
ghost use Rattle.nichols_braid.specs.End.{is_empty_degree};
ghost use Rattle.nichols_braid.specs.Kernel.{is_in_kernel};
ghost use Rattle.nichols_command.specs.Command.{AreInRange};
ghost use Rattle.nichols_crew.specs.Counting.{HasCounted};
ghost use Rattle.nichols_top.specs.Algebra.{dimensions_of, scope_of};
ghost use Rattle.nichols_top.specs.Counted.{algebra_blocks};
ghost use Rattle.nichols_top.specs.Ended.{HasEnd};
ghost use Rattle.nichols_top.specs.Report.{piece};
ghost use Rattle.nichols_top.specs.Table.{least_words, products_due, table_at, table_due, table_pieces, times_due};
ghost use Rattle.nichols_top.specs.TableLines.{times_line};
ghost use Rattle.nichols_top.specs.Written.{IsStopped, writer_seen, Puts, Writes};

use crate::algebra::{Ended, put_pieces, status_of};
use crate::status::Status;
use crate::table_text::{times_text, too_large_text};
use crate::writer::{Break, Writer};
use nichols_braid::{Braid, Order};
use nichols_command::Options;
use nichols_crew::Gate;
use nichols_field::Field;
use nichols_graded::Graded;
use nichols_io::Sink;
use nichols_product::products_with;
use nichols_words::{Comb, Word};
use std::alloc::{AllocError, Global};
use std::thread::Threads;

/// The greatest dimension of an algebra whose table of products is written.
pub(crate) const TABLE_LIMIT: u64 = 200;

/// Writes the brief report of a braid's algebra, and where it is closed its table of products.
pub(crate) fn put_table<R: Threads + Sync, K: Sink, G: Gate + Sync>(
    rt: &R,
    alloc: Global,
    braid: Braid,
    order: &Order,
    options: Options,
    out: &mut Writer<'_, K>,
    gate: &mut G,
) -> Result<Status, Break>
    requires options { AreInRange options }
    requires letters { length order.now ≡ braid.letters }
    ensures same_sink { out.new.sink.ghost_name ≡ out.old.sink.ghost_name }
    ensures report { Writes (table_due braid order.now (scope_of options)) (writer_seen K.taken K.faults out.old) (writer_seen K.taken K.faults out.new) result }
    ensures counted { IfOk result (λ _. HasCounted (algebra_blocks braid (scope_of options)) (G.count gate.old) (G.count gate.new)) }
    ensures stopped { result ≡ Err Break.Fault → IsStopped K.taken K.faults out.old.sink.now out.new.sink.now }
{
    let brief = Options {
        brief: true,
        ..options
    };
    let ended = put_pieces(rt, alloc, braid, order, brief, out, gate)?;
    put_closed(alloc, &ended, order, out)?;
    Ok(status_of(ended.stop))
}

/// Writes the table of an algebra, where it is closed.
fn put_closed<K: Sink>(
    alloc: Global,
    ended: &Ended,
    order: &Order,
    out: &mut Writer<'_, K>,
) -> Result<(), Break>
    requires reached { HasEnd ended.now.graded ended.now.stop }
    ensures same_sink { out.new.sink.ghost_name ≡ out.old.sink.ghost_name }
    ensures pieces { Puts (table_at ended.now.graded.braid order.now ended.now.stop (range_with_len 0 (suc ended.now.graded.last))) (writer_seen K.taken K.faults out.old) (writer_seen K.taken K.faults out.new) result }
    ensures stopped { result ≡ Err Break.Fault → IsStopped K.taken K.faults out.old.sink.now out.new.sink.now }
{
    let _levels = ended.graded.levels();
    match ended.stop {
        None => put_products(alloc, &ended.graded, order, out),
        Some(_) => Ok(()),
    }
}

/// Writes the table of a closed algebra, or its dimension where that is too large.
fn put_products<K: Sink>(
    alloc: Global,
    graded: &Graded,
    order: &Order,
    out: &mut Writer<'_, K>,
) -> Result<(), Break>
    requires closed { is_empty_degree is_in_kernel graded.now.braid graded.now.last ≡ true }
    ensures same_sink { out.new.sink.ghost_name ≡ out.old.sink.ghost_name }
    ensures pieces { Puts (table_pieces graded.now.braid order.now (range_with_len 0 (suc graded.now.last))) (writer_seen K.taken K.faults out.old) (writer_seen K.taken K.faults out.new) result }
    ensures stopped { result ≡ Err Break.Fault → IsStopped K.taken K.faults out.old.sink.now out.new.sink.now }
{
    let _levels = graded.levels();
    let dimension = dimension(alloc, graded)?;
    if dimension > TABLE_LIMIT {
        let text = too_large_text(alloc, dimension)?;
        return out.put(text.as_slice(), None);
    }
    let words = least_words(alloc, graded)?;
    put_rows(alloc, graded, order, words.as_slice(), out)
}

/// The dimension of a closed algebra.
fn dimension(alloc: Global, graded: &Graded) -> Result<u64, AllocError>
    ensures { IfOk result (λ d. d ≡ sum (dimensions_of graded.now.braid (range_with_len 0 (suc graded.now.last)))) }
{
    let dimensions = graded.dimensions(alloc)?;
    Ok(dimensions.iter().sum())
}

/// Writes the products of each least word of a closed algebra with each.
fn put_rows<K: Sink>(
    alloc: Global,
    graded: &Graded,
    order: &Order,
    words: &[Word],
    out: &mut Writer<'_, K>,
) -> Result<(), Break>
    requires closed { is_empty_degree is_in_kernel graded.now.braid graded.now.last ≡ true }
    requires words { words.now ≡ least_words graded.now.braid (range_with_len 0 (suc graded.now.last)) }
    ensures same_sink { out.new.sink.ghost_name ≡ out.old.sink.ghost_name }
    ensures pieces { Puts (products_due graded.now.braid order.now words.now) (writer_seen K.taken K.faults out.old) (writer_seen K.taken K.faults out.new) result }
    ensures stopped { result ≡ Err Break.Fault → IsStopped K.taken K.faults out.old.sink.now out.new.sink.now }
{
    let _levels = graded.levels();
    for word in words {
        put_row(alloc, graded, order, word, words, out)?;
    }
    Ok(())
}

/// The least words of the finished degrees, in order.
fn least_words(alloc: Global, graded: &Graded) -> Result<Vec<Word>, AllocError>
    ensures { IfOk result (λ r. r.items ≡ least_words graded.now.braid (range_with_len 0 (suc graded.now.last))) }
{
    let last = graded.levels().last();
    let mut words = Vec::new(alloc);
    for m in 0..last + 1 {
        let mut basis = graded.basis(alloc, m)?;
        words.append(&mut basis)?;
    }
    Ok(words)
}

/// Writes the products of a least word of a closed algebra with these words, of which there are some.
fn put_row<K: Sink>(
    alloc: Global,
    graded: &Graded,
    order: &Order,
    word: &Word,
    others: &[Word],
    out: &mut Writer<'_, K>,
) -> Result<(), Break>
    requires closed { is_empty_degree is_in_kernel graded.now.braid graded.now.last ≡ true }
    requires letters { IsWordOver graded.now.braid.letters word.now }
    requires made { length word.now ≤ graded.now.last }
    requires other_letters { AllByRecursion (IsWordOver graded.now.braid.letters) others.now }
    requires some { 0 < length others.now }
    ensures same_sink { out.new.sink.ghost_name ≡ out.old.sink.ghost_name }
    ensures pieces { Puts (map (times_due graded.now.braid order.now word.now) others.now) (writer_seen K.taken K.faults out.old) (writer_seen K.taken K.faults out.new) result }
    ensures stopped { result ≡ Err Break.Fault → IsStopped K.taken K.faults out.old.sink.now out.new.sink.now }
{
    let levels = graded.levels();
    let field = levels.braid().field();
    let products = products_with(alloc, levels, word, others)?;
    let forms = products.as_slice();
    for (k, other) in others.iter().enumerate() {
        put_times(alloc, field, order, word, other, &forms[k], out)?;
    }
    Ok(())
}

/// Writes a product of two words.
fn put_times<K: Sink>(
    alloc: Global,
    field: Field,
    order: &Order,
    u: &Word,
    v: &Word,
    form: &Comb,
    out: &mut Writer<'_, K>,
) -> Result<(), Break>
    ensures same_sink { out.new.sink.ghost_name ≡ out.old.sink.ghost_name }
    ensures piece { Puts (piece (times_line field order.now u.now v.now form.now) None ∷ []) (writer_seen K.taken K.faults out.old) (writer_seen K.taken K.faults out.new) result }
    ensures stopped { result ≡ Err Break.Fault → IsStopped K.taken K.faults out.old.sink.now out.new.sink.now }
{
    let text = times_text(alloc, field, order, u, v, form)?;
    out.put(text.as_slice(), None)
}
