//! Reads the form of a program's line from its words.
#![tactic(auto)]

mod calls;
mod lines;
mod lists;
mod statements;
mod texts;

pub use lines::read_form;
pub use lists::single_name;
pub use texts::{LineText, StatementText};
