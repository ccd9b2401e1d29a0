//! What the words of the command line ask for.
#![tactic(auto)]

mod command;
pub mod laws;
mod limits;
mod numbers;
mod words;

pub use command::{Command, Options, Task, command_of};
pub use limits::{
    DEGREE_DEFAULT, DIGITS_MOST, ROWS_DEFAULT, WINDOW_DEFAULT, WINDOW_MOST, WORKERS_DEFAULT,
    WORKERS_MOST,
};

#[cfg(test)]
mod tests;
