use super::*;
use std::alloc::{AllocError, Global};
use std::test::Fail;

/// The words of a line.
fn words_of(alloc: Global, line: &[&str]) -> Result<Vec<String>, AllocError> {
    let mut words = Vec::new(alloc);
    for word in line {
        words.push(String::from_str(alloc, word)?)?;
    }
    Ok(words)
}

/// The options without any given.
const DEFAULTS: Options = Options {
    degree_limit: 12,
    rows_limit: 1024,
    workers: 4,
    window: 2,
    brief: false,
};

/// The command of the report of an algebra.
fn algebra(options: Options) -> Command {
    Command::OnDocument(Task::Algebra(options))
}

#[test]
fn plain_lines(rt: HostRuntime) -> Result<(), Fail> {
    let degree_4 = Options {
        degree_limit: 4,
        ..DEFAULTS
    };
    let all = Options {
        degree_limit: 60,
        rows_limit: 65536,
        workers: 16,
        window: 8,
        brief: true,
    };
    let least = Options {
        degree_limit: 0,
        rows_limit: 1,
        workers: 1,
        window: 1,
        brief: false,
    };
    let lines: [(&[&str], Command); 19] = [
        (&["algebra"], algebra(DEFAULTS)),
        (&["algebra", "--degree", "4"], algebra(degree_4)),
        (&["algebra", "--degree=04"], algebra(degree_4)),
        (&["algebra", "--degree", "000000004"], algebra(degree_4)),
        (&["--degree", "4", "algebra"], algebra(degree_4)),
        (
            &[
                "algebra",
                "--degree",
                "60",
                "--rows",
                "65536",
                "--workers",
                "16",
                "--window",
                "8",
                "--brief",
            ],
            algebra(all),
        ),
        (
            &[
                "algebra",
                "--brief",
                "--window=8",
                "--workers",
                "16",
                "--rows=65536",
                "--degree",
                "60",
            ],
            algebra(all),
        ),
        (
            &[
                "algebra",
                "--workers=1",
                "--rows",
                "1",
                "--window=1",
                "--degree=0",
            ],
            algebra(least),
        ),
        (&["algebra", "--"], algebra(DEFAULTS)),
        (
            &["reduce", "--degree=4"],
            Command::OnDocument(Task::Reduce(degree_4)),
        ),
        (
            &["product", "--degree=4"],
            Command::OnDocument(Task::Product(degree_4)),
        ),
        (
            &["table", "--degree=4"],
            Command::OnDocument(Task::Table(degree_4)),
        ),
        (
            &["cover", "--degree=4"],
            Command::OnDocument(Task::Cover(degree_4)),
        ),
        (&["points", "3"], Command::Points(3, DEFAULTS)),
        (
            &["points", "--degree", "4", "07"],
            Command::Points(7, degree_4),
        ),
        (&["symmetrize"], Command::OnDocument(Task::Symmetrize)),
        (
            &["symmetrize", "--rows", "9"],
            Command::OnDocument(Task::Symmetrize),
        ),
        (
            &["symmetrize", "--brief", "--degree=60"],
            Command::OnDocument(Task::Symmetrize),
        ),
        (
            &["algebra", "--brief"],
            algebra(Options {
                brief: true,
                ..DEFAULTS
            }),
        ),
    ];
    for (line, command) in lines {
        let words = words_of(rt.alloc(), line)?;
        assert_eq!(rt; command_of(rt.alloc(), words.as_slice())?, Some(command));
    }
    Ok(())
}

/// For each rule, lists of words that break it alone.
const BROKEN: [&[&str]; 40] = [
    &[],
    &["--brief"],
    &["--help"],
    &["-h"],
    &["algebra", "--help"],
    &["algebra", "--colour"],
    &["algebra", "--degrees", "4"],
    &["algebra", "-d", "4"],
    &["algebra", "--degree"],
    &["algebra", "--degree", "--brief"],
    &["algebra", "--brief=true"],
    &["algebra", "--degree", "4", "--degree", "4"],
    &["algebra", "--brief", "--brief"],
    &["algebra", "3", "3"],
    &["Algebra"],
    &["algebras"],
    &["reduces"],
    &["reduce", "3"],
    &["products"],
    &["points"],
    &["points", "2"],
    &["points", "8"],
    &["points", "+3"],
    &["algebra", "3"],
    &["symmetrize", "3"],
    &["product", "3"],
    &["table", "3"],
    &["cover", "3"],
    &["algebra", "--degree", "+4"],
    &["algebra", "--degree", " 4"],
    &["algebra", "--degree", "0x4"],
    &["algebra", "--degree", "0000000004"],
    &["algebra", "--degree="],
    &["algebra", "--degree", ""],
    &["algebra", "--rows", "0"],
    &["algebra", "--rows", "65537"],
    &["algebra", "--degree", "61"],
    &["algebra", "--workers", "0"],
    &["symmetrize", "--workers", "17"],
    &["algebra", "--window", "9"],
];

#[test]
fn broken_lines(rt: HostRuntime) -> Result<(), Fail> {
    for line in BROKEN {
        let words = words_of(rt.alloc(), line)?;
        assert_eq!(rt; command_of(rt.alloc(), words.as_slice())?, None);
    }
    Ok(())
}
