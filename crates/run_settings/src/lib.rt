//! Settings along a run whose rules are weighted by relations: a setting of the variables for each
//! moment of the run, each of which its rule leads to the next. No search: they are picked backwards
//! along the run from the values that it has so far.
#![tactic(auto)]

mod back;
mod ends;
mod laws;
mod machine;
mod moment;
mod returns;
mod settings;
mod walk;

pub use laws::settings_are_moments;
pub use settings::{RunSettings, settings_along};
