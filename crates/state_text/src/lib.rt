//! How the states of a Boolean program are written, line by line with every variable.
#![tactic(auto)]

mod bits;
mod owners;
mod states;

pub use states::trace_text;
