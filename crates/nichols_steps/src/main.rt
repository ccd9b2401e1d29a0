//! Takes the steps of a shelf, phase by phase, and prints a line as each phase ends, so that they can be timed from outside.
#![tactic(auto)]

mod calls;
mod crew;
mod hand;
mod pairs;
mod phases;

use crew::Crew;
use phases::PHASES;
use std::alloc::Global;
use std::io;
use std::process::ExitCode;
use std::thread::Threads;

/// How many pairs of blocks, and how many passes.
#[derive(Clone, Copy)]
struct Task {
    pairs: u32,
    passes: u32,
}

/// The number that a word stands for.
fn number(words: &[String], place: usize) -> Option<u32> {
    words.get(place)?.as_str().parse::<u32>().ok()
}

/// How many pairs and passes the words name.
fn task_of(words: &[String]) -> Option<Task> {
    Some(Task {
        pairs: number(words, 1)?,
        passes: number(words, 2)?,
    })
}

/// Takes all phases. It prints a line before the first one, one as each ends, with the number of pairs on which it found what it
/// should, and one with the number of blocks that are published. `false` where no crew can be made, or none that can be joined.
fn run<R: Print + Threads + Sync>(rt: &R, alloc: Global, task: Task) -> io::Result<bool> {
    let Some(mut crew) = Crew::start(alloc, task.pairs, task.passes)? else {
        return Ok(false);
    };
    println!(rt; "start")?;
    for phase in 0..PHASES {
        crew = crew.after(rt, phase)?;
        println!(rt; "phase {phase}: {} pairs", crew.found())?;
    }
    let Some(published) = crew.published(alloc)? else {
        return Ok(false);
    };
    println!(rt; "published: {published} blocks")?;
    Ok(true)
}

/// Arguments: pairs of blocks, passes.
fn main(rt: HostRuntime) -> io::Result<ExitCode> {
    let alloc = rt.alloc();
    let words = std::env::args(&rt)?.collect::<Vec<String>>(alloc)?;
    let Some(task) = task_of(words.as_slice()) else {
        return Ok(ExitCode::from(2));
    };
    if run(&rt, alloc, task)? {
        Ok(ExitCode::from(0))
    } else {
        Ok(ExitCode::from(1))
    }
}
