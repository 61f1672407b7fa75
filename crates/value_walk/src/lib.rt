//! Backwards, the value of the runs between two patterns: a walk over pairs of a state of the first pattern, and of a control or a
//! state of the second.
#![tactic(auto)]

mod giving;
mod turns;

pub use turns::walk;
