//! The words of the command line: what they ask the program for.
#![tactic(auto)]

mod command;
mod options;
mod reading;

pub use options::{Generation, Request};
pub use reading::read_words;
