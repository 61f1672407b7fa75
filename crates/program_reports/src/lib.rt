//! The report on a Boolean program: each query's point, as the program's machine reaches it or not.
#![tactic(auto)]

mod asked;
mod laws;
mod lines;
mod patterns;
mod report;
mod traces;
mod values;

pub use laws::answers_tell_points;
pub use report::report_on_program;
