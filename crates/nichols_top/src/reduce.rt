//! The report of normal forms.

ghost use Rattle.std.specs.Prelude.{◌≡◌, ◌≤◌, length, IfOk};
ghost use Rattle.std.specs.List.{AllByRecursion};
ghost use Rattle.nichols_tensor.specs.Combination.{AllElements};
ghost use Rattle.nichols_tensor.specs.Words.{IsOver};
ghost use Rattle.nichols_command.specs.Command.{AreInRange};
ghost use Rattle.nichols_expression.specs.declared.TheConstants.{EXPRESSION_LIMIT};
ghost use Rattle.nichols_top.specs.Algebra.{scope_of};
ghost use Rattle.nichols_top.specs.Ended.{HasEnd};
ghost use Rattle.nichols_top.specs.Reduce.{form_due, reduce_due};
ghost use Rattle.nichols_top.specs.Report.{numbered_pieces};
ghost use Rattle.nichols_crew.specs.Counting.{HasCounted};
ghost use Rattle.nichols_top.specs.Counted.{algebra_blocks};
ghost use Rattle.nichols_top.specs.Written.{IsStopped, writer_seen, Puts, Writes};

use crate::algebra::{Ended, put_pieces, status_of};
use crate::normals::{Told, put_normals};
use crate::status::Status;
use crate::writer::{Break, Writer};
use nichols_braid::Order;
use nichols_command::Options;
use nichols_crew::Gate;
use nichols_input::Document;
use nichols_io::Sink;
use nichols_reduce::normal_all;
use nichols_words::Comb;
use std::alloc::Global;
use std::thread::Threads;

/// Writes the report of the algebra of a document's braid, and the normal forms of its expressions.
pub(crate) fn put_reduce<R: Threads + Sync, K: Sink, G: Gate + Sync>(
    rt: &R,
    alloc: Global,
    document: Document,
    options: Options,
    out: &mut Writer<'_, K>,
    gate: &mut G,
) -> Result<Status, Break>
    requires options { AreInRange options }
    requires letters { AllByRecursion (IsOver document.braid.letters) document.expressions }
    requires elements { AllByRecursion (AllElements document.braid.field) document.expressions }
    requires order { length document.order ≡ document.braid.letters }
    requires number { length document.expressions ≤ EXPRESSION_LIMIT }
    ensures same_sink { out.new.sink.ghost_name ≡ out.old.sink.ghost_name }
    ensures report { Writes (reduce_due document (scope_of options)) (writer_seen K.taken K.faults out.old) (writer_seen K.taken K.faults out.new) result }
    ensures counted { IfOk result (λ _. HasCounted (algebra_blocks document.braid (scope_of options)) (G.count gate.old) (G.count gate.new)) }
    ensures stopped { result ≡ Err Break.Fault → IsStopped K.taken K.faults out.old.sink.now out.new.sink.now }
{
    let Document {
        braid,
        order,
        expressions,
    } = document;
    let ended = put_pieces(rt, alloc, braid, &order, options, out, gate)?;
    put_forms(
        rt,
        alloc,
        &ended,
        &order,
        expressions.as_slice(),
        options.workers,
        out,
    )?;
    Ok(status_of(ended.stop))
}

/// Writes the normal forms of expressions, numbered from 1 on, which so many workers find.
fn put_forms<R: Threads + Sync, K: Sink>(
    rt: &R,
    alloc: Global,
    ended: &Ended,
    order: &Order,
    expressions: &[Comb],
    workers: u32,
    out: &mut Writer<'_, K>,
) -> Result<(), Break>
    requires reached { HasEnd ended.now.graded ended.now.stop }
    requires letters { AllByRecursion (IsOver ended.now.graded.braid.letters) expressions.now }
    requires elements { AllByRecursion (AllElements ended.now.graded.braid.field) expressions.now }
    requires number { length expressions.now ≤ EXPRESSION_LIMIT }
    requires some_workers { 1 ≤ workers }
    ensures same_sink { out.new.sink.ghost_name ≡ out.old.sink.ghost_name }
    ensures pieces { Puts (numbered_pieces (form_due ended.now.graded.braid order.now ended.now.stop ended.now.graded.last) 1 expressions.now) (writer_seen K.taken K.faults out.old) (writer_seen K.taken K.faults out.new) result }
    ensures stopped { result ≡ Err Break.Fault → IsStopped K.taken K.faults out.old.sink.now out.new.sink.now }
{
    // Nothing is left to write, so that no memory may be asked for.
    if expressions.is_empty() {
        return Ok(());
    }
    let levels = ended.graded.levels();
    let normals = normal_all(rt, alloc, levels, expressions, workers)?;
    put_normals(
        alloc,
        Told::Forms,
        levels.braid().field(),
        order,
        normals.as_slice(),
        out,
    )
}
