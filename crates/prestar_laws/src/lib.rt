//! Backwards saturation: its rows, its runs, and its laws.
#![tactic(auto)]

mod laws;

pub use laws::{
    backward_jobs_stand_once, backward_sums, rules_may_come_later, rules_more_keep_runs,
};
