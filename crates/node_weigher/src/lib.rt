//! Weights of relations for the plain search, as references into one table of nodes that stays as long as the search: nothing is
//! copied, equal relations are one reference, and what an operation makes is kept for when it comes again.
#![tactic(auto)]

mod rules;
mod weigher;

pub use weigher::NodeWeigher;
