//! The lowering of a Boolean program to a pushdown system over relations.
#![tactic(auto)]

mod alike;
mod kept;
mod layout;
mod lines;
mod lowering;
mod making;
mod marks;
mod names;
mod points;
mod rules;
mod sizes;
mod source;
mod spot;
mod variables;
mod ways;

pub use lowering::{Lowering, lower};
pub use points::PointTable;
pub use variables::{Variables, variables_of};
