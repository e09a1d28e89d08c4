//! The words of the command line, the command that they name, and what the program ends with, also where they can't be taken.
//!
//! It stands on `yds_text`, which reads numbers. It carries the promise that the command is what the definitions say that the words ask
//! for, with numbers within their limits, and that the exit status is the number of the run's status or, where the words can't be taken,
//! that of want of memory or `NO_WORDS`.
#![tactic(auto)]

mod codes;
mod command;

pub use codes::{NO_WORDS, exit_code};
pub use command::{Command, Question};
