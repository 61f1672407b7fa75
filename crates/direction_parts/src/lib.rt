//! What both directions of a saturation are made of: places over a symbol, passes over the rules, and the weights of
//! inputs and returns, with the lemmas that the laws of either direction cite.
#![tactic(auto)]

mod copies;
mod draw;
mod merges;
mod weights;
mod words;

pub use draw::{Copies, Draw};
pub use merges::{lower_index, lower_rule};
pub use weights::{after_return, input_weight};
pub use words::{one_symbol, two_symbols};
