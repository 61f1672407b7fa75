//! The answers to queries over a weighted pushdown system, backwards or forwards. There are two doors: `Saturation`, a book that
//! workers close, of which answers with listings of runs are read off, and `Values`, which finds values alone: with one worker by
//! the plain search, with two and more by a book that they close.
#![tactic(auto)]

mod answering;
mod backward;
mod book;
mod forward;
mod groups;
mod joint;
mod laws;
mod saturation;
mod values;

pub use answering::{answer, answer_over, saturate};
pub use saturation::Saturation;
pub use values::{Values, value};
