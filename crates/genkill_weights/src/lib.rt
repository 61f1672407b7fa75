//! Facts that runs generate and kill, as weights, in five widths: the functions `x -> (x & keep) | gens` on sets of facts.
#![tactic(auto)]

mod genkill;
mod laws;
mod masks;
mod weight;
mod width;

pub use genkill::GenKill;
pub use laws::{
    equal_weights_are_equal_functions, restored_facts_are_the_callers, weights_are_functions,
    weights_are_their_effects, weights_have_their_facts, widths_are_least,
};
pub use weight::{GenKillW, MaskMap};
pub use width::words_for;
