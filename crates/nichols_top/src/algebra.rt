//! The report of an algebra.

ghost use Rattle.std.specs.Prelude.{◌≡◌, ◌≤◌, ◌<◌, ◌-◌, ◌^◌, suc, [], ◌∷◌, map, length, sum, option_map, IfOk};
ghost use Rattle.std.specs.List.{range_with_len};
ghost use Rattle.nichols_braid.specs.Kernel.{is_in_kernel};
ghost use Rattle.nichols_braid.specs.Least.{basis, relations};
ghost use Rattle.nichols_command.specs.Command.{AreInRange};
ghost use Rattle.nichols_crew.specs.Counting.{HasCounted, block_count};
ghost use Rattle.nichols_graded.specs.Ends.{end_by, finished_degrees};
ghost use Rattle.nichols_text.specs.Pieces.{degree_piece};
ghost use Rattle.nichols_top.specs.Algebra.{scope_of, header_due, degree_due, dimensions_of, factors_at, end_line_of, status_of, end_due, pieces_due, algebra_due};
ghost use Rattle.nichols_top.specs.Counted.{algebra_blocks};
ghost use Rattle.nichols_top.specs.Ended.{HasEnd, IsEnded};
ghost use Rattle.nichols_top.specs.Written.{IsStopped, writer_seen, Puts, Writes};

use crate::status::Status;
use crate::writer::{Break, Writer};
use nichols_braid::{Braid, Order};
use nichols_command::Options;
use nichols_crew::Gate;
use nichols_graded::{End, Graded, Stop};
use nichols_io::Sink;
use nichols_text::{EndLine, brief_degree_text, degree_text, end_text, header_text};
use std::alloc::{AllocError, Global};
use std::thread::Threads;

/// An algebra whose end was reached, with what stops it; where nothing does, it is closed.
#[derive(Drop)]
pub(crate) struct Ended {
    pub(crate) graded: Graded,
    pub(crate) stop: Option<Stop>,
}

/// Writes the report of a braid's algebra.
pub(crate) fn put_algebra<R: Threads + Sync, K: Sink, G: Gate + Sync>(
    rt: &R,
    alloc: Global,
    braid: Braid,
    order: &Order,
    options: Options,
    out: &mut Writer<'_, K>,
    gate: &mut G,
) -> Result<Status, Break>
    requires options { AreInRange options }
    requires letters { length order.now ≡ braid.letters }
    ensures same_sink { out.new.sink.ghost_name ≡ out.old.sink.ghost_name }
    ensures report { Writes (algebra_due braid order.now (scope_of options)) (writer_seen K.taken K.faults out.old) (writer_seen K.taken K.faults out.new) result }
    ensures counted { IfOk result (λ _. HasCounted (algebra_blocks braid (scope_of options)) (G.count gate.old) (G.count gate.new)) }
    ensures stopped { result ≡ Err Break.Fault → IsStopped K.taken K.faults out.old.sink.now out.new.sink.now }
{
    let ended = put_pieces(rt, alloc, braid, order, options, out, gate)?;
    Ok(status_of(ended.stop))
}

/// Writes the pieces of an algebra's report, the header, each degree once it is done, and the end; answers the algebra.
pub(crate) fn put_pieces<R: Threads + Sync, K: Sink, G: Gate + Sync>(
    rt: &R,
    alloc: Global,
    braid: Braid,
    order: &Order,
    options: Options,
    out: &mut Writer<'_, K>,
    gate: &mut G,
) -> Result<Ended, Break>
    requires options { AreInRange options }
    requires letters { length order.now ≡ braid.letters }
    ensures same_sink { out.new.sink.ghost_name ≡ out.old.sink.ghost_name }
    ensures pieces { Puts (pieces_due braid order.now (scope_of options)) (writer_seen K.taken K.faults out.old) (writer_seen K.taken K.faults out.new) result }
    ensures ended { IfOk result (λ e. IsEnded braid (scope_of options) e.graded e.stop) }
    ensures counted { IfOk result (λ e. HasCounted (block_count braid 1 e.graded.last) (G.count gate.old) (G.count gate.new)) }
    ensures stopped { result ≡ Err Break.Fault → IsStopped K.taken K.faults out.old.sink.now out.new.sink.now }
{
    put_header(alloc, &braid, order, options, out)?;
    let mut graded = Graded::start(
        alloc,
        braid,
        options.degree_limit,
        options.rows_limit,
        options.window,
    )?;
    put_degrees(alloc, &graded, order, 0, options.brief, out)?;
    'degrees: loop {
        let next = graded.levels().last() + 1;
        let advance = graded.advance(rt, alloc, options.workers, gate)?;
        put_degrees(alloc, &graded, order, next, options.brief, out)?;
        if let Some(end) = advance.end {
            let stop = stop_of(end)?;
            put_end(alloc, &graded, stop, out)?;
            return Ok(Ended { graded, stop });
        }
    }
}

/// What stops an algebra that has this end, or nothing where it is closed. Want of memory for a block of the next degree is no end.
fn stop_of(end: End) -> Result<Option<Stop>, AllocError>
    ensures { IfOk result (λ stop. end ≡ end_by stop) }
{
    match end {
        End::Closed => Ok(None),
        End::Stopped(stop) => Ok(Some(stop)),
        End::Starved => Err(AllocError),
    }
}

/// Writes the header.
fn put_header<K: Sink>(
    alloc: Global,
    braid: &Braid,
    order: &Order,
    options: Options,
    out: &mut Writer<'_, K>,
) -> Result<(), Break>
    requires { length order.now ≡ braid.now.letters }
    ensures same_sink { out.new.sink.ghost_name ≡ out.old.sink.ghost_name }
    ensures piece { Puts (header_due braid.now order.now (scope_of options) ∷ []) (writer_seen K.taken K.faults out.old) (writer_seen K.taken K.faults out.new) result }
    ensures stopped { result ≡ Err Break.Fault → IsStopped K.taken K.faults out.old.sink.now out.new.sink.now }
{
    let text = header_text(
        alloc,
        braid,
        order,
        options.degree_limit,
        options.rows_limit,
    )?;
    out.put(text.as_slice(), None)
}

/// Writes the pieces of the degrees from one on up to the last finished one.
fn put_degrees<K: Sink>(
    alloc: Global,
    graded: &Graded,
    order: &Order,
    from: u32,
    brief: bool,
    out: &mut Writer<'_, K>,
) -> Result<(), Break>
    requires { from ≤ suc graded.now.last }
    ensures same_sink { out.new.sink.ghost_name ≡ out.old.sink.ghost_name }
    ensures finished { graded.now.last < length (finished_degrees graded.now.braid graded.now.limit graded.now.rows) }
    ensures pieces { Puts (map (degree_due graded.now.braid order.now brief) (range_with_len from (suc graded.now.last - from)))
        (writer_seen K.taken K.faults out.old) (writer_seen K.taken K.faults out.new) result }
    ensures stopped { result ≡ Err Break.Fault → IsStopped K.taken K.faults out.old.sink.now out.new.sink.now }
{
    let last = graded.levels().last();
    for m in from..last + 1 {
        put_degree(alloc, graded, order, m, brief, out)?;
    }
    Ok(())
}

/// The text of a finished degree; in brief its least words and relations aren't listed.
fn finished_text(
    alloc: Global,
    graded: &Graded,
    order: &Order,
    m: u32,
    brief: bool,
) -> Result<Vec<u8>, AllocError>
    requires { m ≤ graded.now.last }
    ensures { IfOk result (λ text. text.items ≡ degree_piece graded.now.braid.field order.now m (basis is_in_kernel graded.now.braid m) (relations is_in_kernel graded.now.braid m) brief) }
{
    if brief {
        return brief_degree_text(alloc, m, graded.dimension(m));
    }
    let basis = graded.basis(alloc, m)?;
    let relations = graded.relations(alloc, m)?;
    let field = graded.levels().braid().field();
    degree_text(
        alloc,
        field,
        order,
        m,
        basis.as_slice(),
        relations.as_slice(),
        brief,
    )
}

/// Writes the piece of a finished degree.
fn put_degree<K: Sink>(
    alloc: Global,
    graded: &Graded,
    order: &Order,
    m: u32,
    brief: bool,
    out: &mut Writer<'_, K>,
) -> Result<(), Break>
    requires { m ≤ graded.now.last }
    ensures same_sink { out.new.sink.ghost_name ≡ out.old.sink.ghost_name }
    ensures piece { Puts (degree_due graded.now.braid order.now brief m ∷ []) (writer_seen K.taken K.faults out.old) (writer_seen K.taken K.faults out.new) result }
    ensures stopped { result ≡ Err Break.Fault → IsStopped K.taken K.faults out.old.sink.now out.new.sink.now }
{
    let text = finished_text(alloc, graded, order, m, brief)?;
    out.put(text.as_slice(), Some(m))
}

/// Writes the end piece.
fn put_end<K: Sink>(
    alloc: Global,
    graded: &Graded,
    stop: Option<Stop>,
    out: &mut Writer<'_, K>,
) -> Result<(), Break>
    requires { HasEnd graded.now stop }
    ensures same_sink { out.new.sink.ghost_name ≡ out.old.sink.ghost_name }
    ensures piece { Puts (end_due graded.now.braid stop (range_with_len 0 (suc graded.now.last)) ∷ [])
        (writer_seen K.taken K.faults out.old) (writer_seen K.taken K.faults out.new) result }
    ensures stopped { result ≡ Err Break.Fault → IsStopped K.taken K.faults out.old.sink.now out.new.sink.now }
{
    let dimensions = graded.dimensions(alloc)?;
    let factors = factors_at(alloc, graded, stop)?;
    let line = end_line(stop, graded.levels().last(), dimensions.as_slice());
    let text = end_text(alloc, &line, dimensions.as_slice(), factors.as_deref())?;
    out.put(text.as_slice(), None)
}

/// The factors of the Hilbert series, where the algebra is closed and it has such factors.
fn factors_at(
    alloc: Global,
    graded: &Graded,
    stop: Option<Stop>,
) -> Result<Option<Vec<u32>>, AllocError>
    requires { HasEnd graded.now stop }
    ensures { IfOk result (λ f. option_map (λ v. v.items) f ≡ factors_at stop (dimensions_of graded.now.braid (range_with_len 0 (suc graded.now.last)))) }
{
    let _levels = graded.levels();
    match stop {
        None => graded.factors(alloc),
        Some(_) => Ok(None),
    }
}

/// The line of the end after the last finished degree, by what stops the algebra, with the dimensions of the finished degrees.
fn end_line(stop: Option<Stop>, last: u32, dimensions: &[u64]) -> EndLine
    requires { sum dimensions.now < 2 ^ 64 }
    ensures { result ≡ end_line_of stop last dimensions.now }
{
    match stop {
        None => EndLine::Closed {
            top: last.saturating_sub(1),
            dimension: dimensions.iter().sum(),
        },
        Some(Stop::DegreeLimit) => EndLine::DegreeLimit { last },
        Some(Stop::Wide(degree)) => EndLine::Wide { degree },
        Some(
            Stop::Rows {
                degree,
                product,
                count,
            },
        ) => EndLine::Rows {
            degree,
            product,
            count,
        },
    }
}

/// The status of an algebra's report, by what stops it.
pub(crate) fn status_of(stop: Option<Stop>) -> Status
    ensures { result ≡ status_of stop }
{
    match stop {
        None => Status::Complete,
        Some(_) => Status::Stopped,
    }
}
