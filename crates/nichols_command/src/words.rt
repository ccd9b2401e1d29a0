//! The texts that the words of the command line give, as `clap` reads them.

ghost use Rattle.std.specs.Prelude.{◌≡◌, IfOk, option_map, map, string_bytes};
ghost use Rattle.clap.specs.Simple.{app_of, with_rule};
ghost use Rattle.nichols_command.specs.Texts.{texts_of, places_app, nichols_app, value_rule, flag_rule};
ghost use Rattle.nichols_command.specs.Given.{texts_given};

use clap::error::ErrorKind;
use clap::{Arg, ArgAction, Command};
use std::alloc::{AllocError, Global};

/// The texts that the words give to the arguments; a flag's is `true` or `false`.
#[derive(Clone, Copy)]
pub(crate) struct Given<'a> {
    pub(crate) command: Option<&'a str>,
    pub(crate) points: Option<&'a str>,
    pub(crate) degree: Option<&'a str>,
    pub(crate) rows: Option<&'a str>,
    pub(crate) workers: Option<&'a str>,
    pub(crate) window: Option<&'a str>,
    pub(crate) brief: Option<&'a str>,
}

/// The command with its name and its two places, and without options.
fn places_command<'a>(alloc: Global) -> Result<Command<'a>, AllocError>
    ensures { IfOk result (λ c. app_of c ≡ places_app) }
{
    let command_arg = Arg::new(alloc, "command").required(true);
    let points_arg = Arg::new(alloc, "points");
    let named = Command::new(alloc, "nichols").no_binary_name(true);
    let with_command = named.arg(command_arg)?;
    let with_points = with_command.arg(points_arg)?;
    Ok(with_points)
}

/// A command with one more option, whose value is a text: an integer of `clap` would take a sign.
fn with_option<'a>(
    alloc: Global,
    command: Command<'a>,
    name: &'a str,
) -> Result<Command<'a>, AllocError>
    ensures { IfOk result (λ c. app_of c ≡ with_rule (app_of command.entry) (value_rule name.entry.now)) }
{
    let option_arg = Arg::new(alloc, name).long(name);
    command.arg(option_arg)
}

/// A command with one more flag.
fn with_flag<'a>(
    alloc: Global,
    command: Command<'a>,
    name: &'a str,
) -> Result<Command<'a>, AllocError>
    ensures { IfOk result (λ c. app_of c ≡ with_rule (app_of command.entry) (flag_rule name.entry.now)) }
{
    let flag_arg = Arg::new(alloc, name).long(name).action(ArgAction::SetTrue);
    command.arg(flag_arg)
}

/// The command line as `clap` is to read it.
fn nichols_command<'a>(alloc: Global) -> Result<Command<'a>, AllocError>
    ensures { IfOk result (λ c. app_of c ≡ nichols_app) }
{
    let with_places = places_command(alloc)?;
    let with_degree = with_option(alloc, with_places, "degree")?;
    let with_rows = with_option(alloc, with_degree, "rows")?;
    let with_workers = with_option(alloc, with_rows, "workers")?;
    let with_window = with_option(alloc, with_workers, "window")?;
    let whole = with_flag(alloc, with_window, "brief")?;
    Ok(whole)
}

/// The texts, where `clap` takes the words.
pub(crate) fn read_words<'a>(
    alloc: Global,
    words: &'a [String],
) -> Result<Option<Given<'a>>, AllocError>
    ensures { IfOk result (λ r. option_map texts_given r ≡ texts_of (map string_bytes words.now)) }
{
    let command = nichols_command(alloc)?;
    match command.try_get_matches_from(words) {
        Ok(matches) => Ok(Some(Given {
            command: matches.get_str("command"),
            points: matches.get_str("points"),
            degree: matches.get_str("degree"),
            rows: matches.get_str("rows"),
            workers: matches.get_str("workers"),
            window: matches.get_str("window"),
            brief: matches.get_str("brief"),
        })),
        Err(error) => match error.kind() {
            ErrorKind::OutOfMemory => Err(AllocError),
            _ => Ok(None),
        },
    }
}
