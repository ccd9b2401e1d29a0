//! The degrees of an algebra, one by one.

ghost use Rattle.std.specs.Prelude.{◌≡◌, ◌≤◌, false, OnOk};
ghost use Rattle.std.specs.Io.KnownBytes.{Appends};
ghost use Rattle.nichols_tensor.specs.Words.{up_to};
ghost use Rattle.nichols_braid.specs.Kernel.{is_in_kernel};
ghost use Rattle.nichols_braid.specs.Least.{basis, relations};
ghost use Rattle.nichols_text.specs.Pieces.{degree_piece};

use crate::algebra::MOST_DEGREE;
use crate::failure::Failure;
use nichols_braid::Order;
use nichols_crew::OpenGate;
use nichols_graded::{End, Graded};
use nichols_io::{Sink, put_all};
use nichols_text::degree_text;
use std::alloc::Global;
use std::thread::Threads;

/// So many threads make the blocks of a degree.
const WORKERS: u32 = 2;

/// Finishes the degrees of an algebra, and writes each as soon as it is there.
pub fn put_degrees<R: Threads + Sync, K: Sink>(
    rt: &R,
    alloc: Global,
    graded: &mut Graded,
    sink: &mut K,
) -> Result<(), Failure>
    requires { graded.old.ended ≡ false }
{
    let mut gate = OpenGate::new();
    put_degree(alloc, graded, 0, sink)?;
    // Each call finishes a degree or tells the end, so there are no more calls than this.
    for _call in 0..MOST_DEGREE + 1 {
        if graded.ended() {
            return Ok(());
        }
        let next = graded.levels().last() + 1;
        let advance = graded.advance(rt, alloc, WORKERS, &mut gate)?;
        for m in next..graded.levels().last() + 1 {
            put_degree(alloc, graded, m, sink)?;
        }
        match advance.end {
            Some(End::Starved) => return Err(Failure::Memory),
            _ => {}
        }
    }
    Ok(())
}

/// Writes a finished degree: its dimension, its least words and its relations.
fn put_degree<K: Sink>(alloc: Global, graded: &Graded, m: u32, sink: &mut K) -> Result<(), Failure>
    requires { m ≤ graded.now.last }
    ensures { OnOk result (Appends (K.taken sink.old) (K.taken sink.new) (degree_piece graded.now.braid.field (up_to graded.now.braid.letters) m (basis is_in_kernel graded.now.braid m) (relations is_in_kernel graded.now.braid m) false)) }
{
    let braid = graded.levels().braid();
    let field = braid.field();
    let order = Order::plain(braid.letters());
    let basis = graded.basis(alloc, m)?;
    let relations = graded.relations(alloc, m)?;
    let text = degree_text(
        alloc,
        field,
        &order,
        m,
        basis.as_slice(),
        relations.as_slice(),
        false,
    )?;
    if put_all(sink, text.as_slice()) {
        Ok(())
    } else {
        Err(Failure::Unwritten)
    }
}
