//! Runs whose weights mean relations, as runs of settings: one setting of the variables for each
//! moment, and one for each open call. No program, and no code.
#![tactic(auto)]

mod laws;

pub use laws::settings_lead_along_runs;
