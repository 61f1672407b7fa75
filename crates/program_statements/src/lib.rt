//! Reads statements: numbers in place of names, and what is amiss.
#![tactic(auto)]

mod choices;
mod labels;
mod reading;
mod statements;
mod targets;

pub use reading::{Scope, read_statement};
pub use statements::{StatementFaults, StatementRead};
