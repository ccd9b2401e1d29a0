//! The report of each command.

ghost use Rattle.std.specs.Prelude.{◌≡◌, ◌≤◌, length, IfOk};
ghost use Rattle.std.specs.List.{AllByRecursion};
ghost use Rattle.nichols_tensor.specs.Combination.{AllElements};
ghost use Rattle.nichols_tensor.specs.Words.{IsOver, up_to};
ghost use Rattle.nichols_braid.specs.Points.{points_braid};
ghost use Rattle.nichols_command.specs.Command.{IsAccepted, IsAcceptedTask, AreInRange, IsNumberOfPoints};
ghost use Rattle.nichols_expression.specs.declared.TheConstants.{EXPRESSION_LIMIT};
ghost use Rattle.nichols_top.specs.Algebra.{scope_of, in_brief, algebra_due};
ghost use Rattle.nichols_crew.specs.Counting.{HasCounted};
ghost use Rattle.nichols_top.specs.Counted.{algebra_blocks, command_blocks, task_blocks};
ghost use Rattle.nichols_top.specs.Due.{task_due, command_due};
ghost use Rattle.nichols_top.specs.Written.{IsStopped, writer_seen, Writes};

use crate::algebra::put_algebra;
use crate::cover::put_cover;
use crate::line::put_refusal;
use crate::product::put_product;
use crate::reduce::put_reduce;
use crate::status::Status;
use crate::symmetrize::put_symmetrize;
use crate::table::put_table;
use crate::writer::{Break, Writer};
use nichols_braid::{Braid, Order};
use nichols_command::{Command, Options, Task};
use nichols_crew::Gate;
use nichols_input::{Document, read_document};
use nichols_io::Sink;
use nichols_text::Refusal;
use std::alloc::Global;
use std::thread::Threads;

/// Writes the report of a command for its document.
pub(crate) fn put_command<R: Threads + Sync, K: Sink, G: Gate + Sync>(
    rt: &R,
    alloc: Global,
    command: Command,
    document: &[u8],
    out: &mut Writer<'_, K>,
    gate: &mut G,
) -> Result<Status, Break>
    requires { IsAccepted command }
    ensures same_sink { out.new.sink.ghost_name ≡ out.old.sink.ghost_name }
    ensures report { Writes (command_due command document.now) (writer_seen K.taken K.faults out.old) (writer_seen K.taken K.faults out.new) result }
    ensures counted { IfOk result (λ _. HasCounted (command_blocks command document.now) (G.count gate.old) (G.count gate.new)) }
    ensures stopped { result ≡ Err Break.Fault → IsStopped K.taken K.faults out.old.sink.now out.new.sink.now }
{
    match command {
        Command::OnDocument(task) => match read_document(alloc, document) {
            Ok(document) => put_task(rt, alloc, task, document, out, gate),
            Err(fault) => put_refusal(alloc, &Refusal::Input(fault), out),
        },
        Command::Points(k, options) => put_points(rt, alloc, k, options, out, gate),
    }
}

/// Writes the report of a document that isn't refused.
fn put_task<R: Threads + Sync, K: Sink, G: Gate + Sync>(
    rt: &R,
    alloc: Global,
    task: Task,
    document: Document,
    out: &mut Writer<'_, K>,
    gate: &mut G,
) -> Result<Status, Break>
    requires task { IsAcceptedTask task }
    requires letters { AllByRecursion (IsOver document.braid.letters) document.expressions }
    requires elements { AllByRecursion (AllElements document.braid.field) document.expressions }
    requires order { length document.order ≡ document.braid.letters }
    requires number { length document.expressions ≤ EXPRESSION_LIMIT }
    ensures same_sink { out.new.sink.ghost_name ≡ out.old.sink.ghost_name }
    ensures report { Writes (task_due task document) (writer_seen K.taken K.faults out.old) (writer_seen K.taken K.faults out.new) result }
    ensures counted { IfOk result (λ _. HasCounted (task_blocks task document) (G.count gate.old) (G.count gate.new)) }
    ensures stopped { result ≡ Err Break.Fault → IsStopped K.taken K.faults out.old.sink.now out.new.sink.now }
{
    match task {
        Task::Algebra(options) => {
            let order = document.order;
            put_algebra(rt, alloc, document.braid, &order, options, out, gate)
        }
        Task::Reduce(options) => put_reduce(rt, alloc, document, options, out, gate),
        Task::Symmetrize => put_symmetrize(alloc, &document, out),
        Task::Product(options) => put_product(rt, alloc, document, options, out, gate),
        Task::Table(options) => {
            let order = document.order;
            put_table(rt, alloc, document.braid, &order, options, out, gate)
        }
        Task::Cover(options) => {
            let order = document.order;
            put_cover(rt, alloc, document.braid, &order, options, out, gate)
        }
    }
}

/// Writes the brief report of the braid of the transpositions of k points.
#[tactic(auto, using(nichols_tensor::proofs::Letters::up_to_length))]
fn put_points<R: Threads + Sync, K: Sink, G: Gate + Sync>(
    rt: &R,
    alloc: Global,
    k: u32,
    options: Options,
    out: &mut Writer<'_, K>,
    gate: &mut G,
) -> Result<Status, Break>
    requires points { IsNumberOfPoints k }
    requires options { AreInRange options }
    ensures same_sink { out.new.sink.ghost_name ≡ out.old.sink.ghost_name }
    ensures report { Writes (algebra_due (points_braid k) (up_to (points_braid k).letters) (in_brief (scope_of options))) (writer_seen K.taken K.faults out.old) (writer_seen K.taken K.faults out.new) result }
    ensures counted { IfOk result (λ _. HasCounted (algebra_blocks (points_braid k) (scope_of options)) (G.count gate.old) (G.count gate.new)) }
    ensures stopped { result ≡ Err Break.Fault → IsStopped K.taken K.faults out.old.sink.now out.new.sink.now }
{
    let braid = Braid::points(alloc, k)?;
    let brief = Options {
        brief: true,
        ..options
    };
    let _field = braid.field();
    let order = Order::plain(braid.letters());
    put_algebra(rt, alloc, braid, &order, brief, out, gate)
}
