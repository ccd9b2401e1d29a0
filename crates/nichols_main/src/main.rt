//! The program: a document on standard input, its report on standard output, and the status as exit status.
#![tactic(auto)]

use nichols_crew::OpenGate;
use nichols_io::{StdSink, StdSource};
use nichols_top::{Status, run};
use std::io;
use std::process::ExitCode;

fn main(rt: HostRuntime) -> ExitCode {
    let alloc = rt.alloc();
    // The answer where there is no memory for the words, or one of them isn't UTF-8.
    let no_words = ExitCode::from(Status::Memory.code());
    let Ok(args) = std::env::args(&rt) else {
        return no_words;
    };
    let Ok(words) = args.skip(1).collect::<Vec<String>>(alloc) else {
        return no_words;
    };
    let mut source = StdSource::new(rt.reader());
    let mut sink = StdSink::new(io::writer(&rt));
    let mut gate = OpenGate::new();
    let status = run(
        &rt,
        alloc,
        words.as_slice(),
        &mut source,
        &mut sink,
        &mut gate,
    );
    ExitCode::from(status)
}
