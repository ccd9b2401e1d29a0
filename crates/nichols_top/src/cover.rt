//! The report of a quadratic cover.

ghost use Rattle.std.specs.Prelude.{◌≡◌, ◌≤◌, [], ◌∷◌, suc, length, IfOk};
ghost use Rattle.std.specs.List.{AllByRecursion};
ghost use Rattle.nichols_command.specs.Command.{AreInRange};
ghost use Rattle.nichols_cover.specs.Level.{IsQuadraticRelation};
ghost use Rattle.nichols_crew.specs.Counting.{HasCounted};
ghost use Rattle.nichols_top.specs.Algebra.{scope_of};
ghost use Rattle.nichols_top.specs.Counted.{algebra_blocks};
ghost use Rattle.nichols_top.specs.Cover.{cover_due, cover_piece, cover_status, cover_through, first_difference, quadratic_relations};
ghost use Rattle.nichols_top.specs.Written.{IsStopped, writer_seen, Puts, Writes};

use crate::algebra::put_pieces;
use crate::cover_text::cover_text;
use crate::status::Status;
use crate::writer::{Break, Writer};
use nichols_braid::{Braid, Order};
use nichols_command::Options;
use nichols_cover::{Cover, CoverStop, cover};
use nichols_crew::Gate;
use nichols_graded::{Graded, Stop};
use nichols_io::Sink;
use nichols_words::Relation;
use std::alloc::{AllocError, Global};
use std::thread::Threads;

/// The most candidates of a degree of a cover. The rows limit of the command line is the algebra's alone.
pub(crate) const CANDIDATE_LIMIT: u32 = 1024;

/// Writes the brief report of a braid's algebra, and its quadratic cover.
pub(crate) fn put_cover<R: Threads + Sync, K: Sink, G: Gate + Sync>(
    rt: &R,
    alloc: Global,
    braid: Braid,
    order: &Order,
    options: Options,
    out: &mut Writer<'_, K>,
    gate: &mut G,
) -> Result<Status, Break>
    requires options { AreInRange options }
    requires letters { length order.now ≡ braid.letters }
    ensures same_sink { out.new.sink.ghost_name ≡ out.old.sink.ghost_name }
    ensures report { Writes (cover_due braid order.now (scope_of options)) (writer_seen K.taken K.faults out.old) (writer_seen K.taken K.faults out.new) result }
    ensures counted { IfOk result (λ _. HasCounted (algebra_blocks braid (scope_of options)) (G.count gate.old) (G.count gate.new)) }
    ensures stopped { result ≡ Err Break.Fault → IsStopped K.taken K.faults out.old.sink.now out.new.sink.now }
{
    let brief = Options {
        brief: true,
        ..options
    };
    let ended = put_pieces(rt, alloc, braid, order, brief, out, gate)?;
    let stop = put_cover_piece(alloc, &ended.graded, out)?;
    Ok(cover_status(ended.stop, stop))
}

/// Writes the piece of the cover through the last finished degree, and answers where the cover stopped.
fn put_cover_piece<K: Sink>(
    alloc: Global,
    graded: &Graded,
    out: &mut Writer<'_, K>,
) -> Result<Option<CoverStop>, Break>
    ensures same_sink { out.new.sink.ghost_name ≡ out.old.sink.ghost_name }
    ensures piece { Puts (cover_piece graded.now.braid graded.now.last ∷ []) (writer_seen K.taken K.faults out.old) (writer_seen K.taken K.faults out.new) result }
    ensures stop { IfOk result (λ stop. stop ≡ (cover_through graded.now.braid graded.now.last).stop) }
    ensures stopped { result ≡ Err Break.Fault → IsStopped K.taken K.faults out.old.sink.now out.new.sink.now }
{
    let cover = cover_through(alloc, graded)?;
    let difference = first_difference(graded, cover.dimensions.as_slice());
    let text = cover_text(alloc, &cover, difference)?;
    out.put(text.as_slice(), None)?;
    Ok(cover.stop)
}

/// The cover through the last finished degree.
fn cover_through(alloc: Global, graded: &Graded) -> Result<Cover, AllocError>
    ensures cover { IfOk result (λ c. c ≡ cover_through graded.now.braid graded.now.last) }
    ensures degrees { IfOk result (λ c. length c.dimensions ≤ suc graded.now.last) }
{
    let quadratic = quadratic_relations(alloc, graded)?;
    let levels = graded.levels();
    let braid = levels.braid();
    cover(
        alloc,
        braid.field(),
        braid.letters(),
        quadratic.as_slice(),
        levels.last(),
        CANDIDATE_LIMIT,
    )
}

/// The relations of degree 2; none where it isn't finished.
fn quadratic_relations(alloc: Global, graded: &Graded) -> Result<Vec<Relation>, AllocError>
    ensures relations { IfOk result (λ r. r.items ≡ quadratic_relations graded.now.braid graded.now.last) }
    ensures quadratic { IfOk result (λ r. AllByRecursion (IsQuadraticRelation graded.now.braid.field graded.now.braid.letters) r.items) }
{
    if graded.levels().last() < 2 {
        return Ok(Vec::new(alloc));
    }
    graded.relations(alloc, 2)
}

/// The first of the degrees of a cover in which the algebra has another dimension.
fn first_difference(graded: &Graded, dimensions: &[u64]) -> Option<u32>
    requires { length dimensions.now ≤ suc graded.now.last }
    ensures { result ≡ first_difference graded.now.braid dimensions.now }
{
    let _last = graded.levels().last();
    let mut degree = 0;
    for dimension in dimensions {
        if graded.dimension(degree) != *dimension {
            return Some(degree);
        }
        degree += 1;
    }
    None
}

/// The status of a report, by what stops the algebra and where the cover stopped.
fn cover_status(stop: Option<Stop>, cover: Option<CoverStop>) -> Status
    ensures { result ≡ cover_status stop cover }
{
    match (stop, cover) {
        (None, None) => Status::Complete,
        _ => Status::Stopped,
    }
}
