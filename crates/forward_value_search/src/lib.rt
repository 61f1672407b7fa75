//! Forwards search for values alone: from one pattern through each callee once, over tables of weights, until nothing waits. What
//! it then has is closed and made of runs, so a walk over it answers a query to any second pattern (Schwoon 2002; Reps,
//! Schwoon, Jha, Melski 2005).
#![tactic(auto)]

mod callees;
mod ends;
mod fire;
mod give;
mod meet;
mod read;
mod rules;
mod search;
mod take;

pub use callees::{Callee, callee_at};
pub use search::{open, turn};
