//! Multiplies least words of the affine rack of five letters, and prints how many of the products are zero and how many terms the others
//! have, so that the products can be timed from outside.
#![tactic(auto)]

mod algebra;
mod counts;
mod products;
mod words;

use algebra::affine_five;
use counts::counted;
use std::alloc::Global;
use std::io;
use std::process::ExitCode;
use std::thread::Threads;
use words::least_words;

/// Makes the algebra and multiplies least words. It prints a line once the least words are listed, and one with what was counted.
/// `false` where there is no such algebra.
fn run<R: Print + Threads + Sync>(rt: &R, alloc: Global, products: u32) -> io::Result<bool> {
    let Some(graded) = affine_five(rt, alloc)? else {
        return Ok(false);
    };
    let words = least_words(alloc, &graded)?;
    println!(rt; "{} least words", words.len())?;
    let counts = counted(alloc, &graded, words.as_slice(), products)?;
    println!(rt;
        "{products} products, {} of them zero, {} terms",
        counts.zero, counts.terms
    )?;
    Ok(true)
}

/// The number that a word stands for.
fn number(words: &[String], place: usize) -> Option<u32> {
    words.get(place)?.as_str().parse::<u32>().ok()
}

/// Argument: how many products are made.
fn main(rt: HostRuntime) -> io::Result<ExitCode> {
    let alloc = rt.alloc();
    let words = std::env::args(&rt)?.collect::<Vec<String>>(alloc)?;
    let Some(products) = number(words.as_slice(), 1) else {
        return Ok(ExitCode::from(2));
    };
    if run(&rt, alloc, products)? {
        Ok(ExitCode::from(0))
    } else {
        Ok(ExitCode::from(1))
    }
}
