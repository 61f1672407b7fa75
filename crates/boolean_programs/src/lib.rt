//! Boolean programs as they are parsed, and what the reading of one makes sure of.
#![tactic(auto)]

mod expression;
mod point;
mod program;
mod statement;

pub use expression::Expression;
pub use point::{Point, ProgramQueries};
pub use program::{BodyLine, BodyList, Names, Proc, ProcList, Program};
pub use statement::{Bracket, Choice, ChoiceList, Numbers, Statement};
