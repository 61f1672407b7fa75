//! Saturating a book to its end, by one worker or by many that share it under a lock.
#![tactic(auto)]

mod alone;
mod asked;
mod driven;
mod driving;
mod errand;
mod gathering;
mod laws;
mod round;
mod saturating;
mod shared;
mod steps;
mod turns;

pub use alone::saturate_alone;
pub use driven::{DriveEnd, Driven};
pub use driving::drive;
pub use laws::{one_worker_closes, one_worker_has_one_journal, workers_bound_takes};
pub use saturating::saturate;
pub use shared::{Origin, Shared};
