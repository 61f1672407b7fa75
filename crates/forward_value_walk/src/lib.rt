//! Forwards, the value of the runs between two patterns: a walk over pairs of a state of the second pattern, and of where the runs
//! of what lies below begin.
#![tactic(auto)]

mod beginning;
mod calls;
mod giving;
mod opening;
mod turns;

pub use turns::{ends_in_rest, walk, walk_by_tails};
