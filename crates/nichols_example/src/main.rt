//! Uses the libraries as a program of one's own would: a braid from tables, its degrees one by one, a normal form and a product of two
//! elements, all printed. `docs/LIBRARY.md` walks through it.
#![tactic(auto)]

mod algebra;
mod degrees;
mod elements;
mod failure;

use algebra::three_transpositions;
use degrees::put_degrees;
use elements::put_elements;
use failure::Failure;
use nichols_io::{Sink, StdSink};
use std::alloc::Global;
use std::io;
use std::process::ExitCode;
use std::thread::Threads;

/// Writes the degrees of the three transpositions, and then a normal form and a product there.
fn run<R: Threads + Sync, K: Sink>(rt: &R, alloc: Global, sink: &mut K) -> Result<(), Failure> {
    let mut graded = three_transpositions(alloc)?;
    put_degrees(rt, alloc, &mut graded, sink)?;
    put_elements(alloc, graded.levels(), sink)
}

fn main(rt: HostRuntime) -> ExitCode {
    let alloc = rt.alloc();
    let mut sink = StdSink::new(io::writer(&rt));
    match run(&rt, alloc, &mut sink) {
        Ok(()) => ExitCode::from(0),
        Err(_) => ExitCode::from(1),
    }
}
