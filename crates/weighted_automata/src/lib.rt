//! Weighted automata: places, and the transitions that a saturation has found, each with its weight and the node of its runs.
#![tactic(auto)]

mod index;
mod keys;
mod laws;
mod place;
mod room;
mod transitions;

pub use laws::{
    lowering_changes_one_place, places_are_told_apart, places_stand_once,
    transitions_stand_at_their_places,
};
pub use place::{Label, Place};
pub use transitions::{Entry, Transitions};
