//! Reads the text of a Boolean program: its program, or its first refusal.
#![tactic(auto)]

mod body;
mod declarations;
mod procs;
mod program;
mod reading;

pub use program::read_program;
