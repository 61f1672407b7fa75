//! The lowering of a Boolean program to a pushdown system, as a definition, and the law that its
//! feasible runs are the runs of the program's machine. No code.
#![tactic(auto)]

mod laws;
mod plans;
mod weights;

pub use laws::{moments_are_runs, points_are_reached, runs_have_traces};
pub use plans::{plans_are_made, plans_are_within, points_have_symbols};
pub use weights::{
    actions_mean_effects, programs_are_decided, programs_have_lowerings, relations_mean_pairs,
};
