//! What holds of every Boolean program that is read, as laws over definitions. No code.
#![tactic(auto)]

mod laws;

pub use laws::{programs_are_refused_by_lines, read_programs_are_lawful, rules_are_ways};
