//! What worked rows stand on, for the crates of tests: systems, patterns,
//! what a book has found, and gates.
#![tactic(auto)]

mod found;
mod gates;
mod patterns;
mod systems;

pub use found::{Row, entry_at, has_rows};
pub use gates::{CountingGate, MeetingGate, RelayGate};
pub use patterns::{A, B, C, D, Items, SOME_A, pattern_over};
pub use systems::{
    calls, calls_again, calls_itself, grows, one_step, pops, ruleless, same_goals, steps, two_calls,
};
