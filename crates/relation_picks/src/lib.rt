//! States that relations lead from and to: a pair of a relation, a state in the middle of two
//! relations, and a state with given bits to which a relation leads.
#![tactic(auto)]

mod conditions;
mod ends;
mod halves;
mod middles;

pub use ends::{StatePair, pick_end, pick_pair};
pub use middles::pick_middle;
