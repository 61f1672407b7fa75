//! A lock with passes. A value with a journal lies under it, and each pass knows a beginning of that journal and its own entries.
#![tactic(auto)]

mod bell;
mod door;
mod lends;
mod lock;
mod plays;
mod view;

pub use lock::{CloseFault, Held, LockFault, Pass, SeatLock};
pub use view::{Journaled, Stage, View};
