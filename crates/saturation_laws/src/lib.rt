//! The laws of a saturation, over lists of events: whatever the order in which workers take transitions, settle what these
//! give or give them back, the same holds of what was found. The book that keeps it is `saturation_core`.
#![tactic(auto)]

mod change;
mod direction;
mod event;
mod holding;
mod job;
mod laws;
mod opening;
mod view;

pub use change::Change;
pub use direction::Direction;
pub use event::Event;
pub use holding::{Holding, SharedJobs};
pub use job::{Input, Job, JobKind, JobList};
pub use laws::{
    closed_is_applied, cut_turns_leave_searches, each_job_stands_once, every_order_keeps,
    others_leave_a_hand, parts_replay_in_steps, takes_are_bounded,
};
pub use opening::{Opening, PlaceList, StateList};
pub use view::JobView;
