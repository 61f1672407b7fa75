//! Tails: for each source of a search forwards, the sum over all ways down from it. Where a second pattern ends in any number of any
//! symbols, a walk need not go further than to them.
#![tactic(auto)]

mod links;
mod making;
mod reading;

pub use making::{make_tails, tail_place};
