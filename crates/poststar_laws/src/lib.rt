//! Forwards saturation: its middle states, its rows, its runs, and its laws.
#![tactic(auto)]

mod drawn;
mod laws;

pub use drawn::Drawn;
pub use laws::{
    forward_jobs_stand_once, forward_places_are_counted, forward_states_are_few, forward_sums,
};
