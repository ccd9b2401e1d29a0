//! The command of the words of a command line.

ghost use Rattle.std.specs.Prelude.{◌≡◌, IfOk, IfSome, map, option_map, string_bytes};
ghost use Rattle.nichols_command.specs.Command.{command_of, command_of_texts, options_of, command_named, without_points, of_points, is_set, IsAccepted, IsAcceptedTask, AreInRange};
ghost use Rattle.nichols_command.specs.Given.{texts_given};

use crate::limits::{
    DEGREE_DEFAULT, ROWS_DEFAULT, WINDOW_DEFAULT, WINDOW_MOST, WORKERS_DEFAULT, WORKERS_MOST,
};
use crate::numbers::{in_range, option_number, short_number};
use crate::words::{Given, read_words};
use nichols_braid::{MOST_DEGREES, MOST_ROWS, POINTS_LEAST, POINTS_MOST};
use std::alloc::{AllocError, Global};

/// The options of a command, with the defaults for those that aren't given.
#[derive(Clone, Copy, Debug, PartialEq, Eq)]
pub struct Options {
    /// The last degree that is made, at most `nichols_braid::MOST_DEGREES`.
    pub degree_limit: u32,
    /// The most rows of one block, from 1 to `nichols_braid::MOST_ROWS`.
    pub rows_limit: u32,
    /// How many workers there are, from 1 to `WORKERS_MOST`.
    pub workers: u32,
    /// The degrees per wave, from 1 to `WINDOW_MOST`.
    pub window: u32,
    /// Whether a degree's piece is the line of its dimension alone.
    pub brief: bool,
}

/// What is done with a document.
#[derive(Clone, Copy, Debug, PartialEq, Eq)]
pub enum Task {
    /// The report of the algebra of its braid.
    Algebra(Options),
    /// The same, and the normal forms of its expressions.
    Reduce(Options),
    /// The images of its expressions under the symmetrizer.
    Symmetrize,
    /// The report of the algebra of its braid, and the products of its first expressions.
    Product(Options),
    /// The brief report of the algebra of its braid, and its table of products.
    Table(Options),
    /// The brief report of the algebra of its braid, and the quadratic cover.
    Cover(Options),
}

/// What the words of a command line ask for.
#[derive(Clone, Copy, Debug, PartialEq, Eq)]
pub enum Command {
    /// A document is read, and something done with it.
    OnDocument(Task),
    /// The brief report of the transpositions of this many points, from `nichols_braid::POINTS_LEAST` to
    /// `nichols_braid::POINTS_MOST`.
    Points(u32, Options),
}

/// The command that words are, without the program's name; `None` where they are refused.
///
/// Options that a command doesn't use are checked like the others.
#[tactic(auto, unfolding(crate::specs::Command::command_of))]
pub fn command_of(alloc: Global, words: &[String]) -> Result<Option<Command>, AllocError>
    ensures command { IfOk result (λ c. c ≡ command_of (map string_bytes words.now)) }
    ensures accepted { IfOk result (λ c. IfSome c IsAccepted) }
{
    let Some(given) = read_words(alloc, words)? else {
        return Ok(None);
    };
    Ok(command_of_texts(&given))
}

/// The command that texts are.
fn command_of_texts(given: &Given) -> Option<Command>
    ensures command { result ≡ command_of_texts (texts_given given.now) }
    ensures accepted { IfSome result IsAccepted }
{
    let options = options_of(given)?;
    named(given.command?, given.points, options)
}

/// The options of texts, where each is a number in its range.
fn options_of(given: &Given) -> Option<Options>
    ensures options { result ≡ options_of (texts_given given.now) }
    ensures ranges { IfSome result AreInRange }
{
    let degree_limit = option_number(0, MOST_DEGREES, DEGREE_DEFAULT, given.degree)?;
    let rows_limit = option_number(1, MOST_ROWS, ROWS_DEFAULT, given.rows)?;
    let workers = option_number(1, WORKERS_MOST, WORKERS_DEFAULT, given.workers)?;
    let window = option_number(1, WINDOW_MOST, WINDOW_DEFAULT, given.window)?;
    let brief = is_set(given.brief);
    Some(Options {
        degree_limit,
        rows_limit,
        workers,
        window,
        brief,
    })
}

/// Whether a flag's text says that it is set.
fn is_set(text: Option<&str>) -> bool
    ensures { result ≡ is_set (option_map (λ s. s.now) text.entry) }
{
    match text {
        Some(value) => value == "true",
        None => false,
    }
}

/// The command with this name, where there is one and its `points` are as it asks.
fn named(name: &str, points: Option<&str>, options: Options) -> Option<Command>
    requires { AreInRange options }
    ensures command { result ≡ command_named name.now (option_map (λ s. s.now) points.entry) options }
    ensures accepted { IfSome result IsAccepted }
{
    match name {
        "algebra" => alone(points, Task::Algebra(options)),
        "reduce" => alone(points, Task::Reduce(options)),
        "symmetrize" => alone(points, Task::Symmetrize),
        "product" => alone(points, Task::Product(options)),
        "table" => alone(points, Task::Table(options)),
        "cover" => alone(points, Task::Cover(options)),
        "points" => of_points(points, options),
        _ => None,
    }
}

/// A task, whose command goes without `points`.
fn alone(points: Option<&str>, task: Task) -> Option<Command>
    requires { IsAcceptedTask task }
    ensures command { result ≡ without_points (option_map (λ s. s.now) points.entry) task }
    ensures accepted { IfSome result IsAccepted }
{
    match points {
        None => Some(Command::OnDocument(task)),
        Some(_) => None,
    }
}

/// The command of a number of points, which `points` writes.
fn of_points(points: Option<&str>, options: Options) -> Option<Command>
    requires { AreInRange options }
    ensures command { result ≡ of_points (option_map (λ s. s.now) points.entry) options }
    ensures accepted { IfSome result IsAccepted }
{
    let k = in_range(POINTS_LEAST, POINTS_MOST, short_number(points?.as_bytes())?)?;
    Some(Command::Points(k, options))
}
