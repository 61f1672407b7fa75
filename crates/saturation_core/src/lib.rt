//! The core of a saturation: a book of what was found, and the events that change it. Workers take transitions, work
//! out what these give, and settle it; whatever the order of their events, the same holds of the book.
#![tactic(auto)]

mod book;
mod change;
mod found;
mod goals;
mod hand;
mod hands;
mod journal;
mod laws;
mod number_queue;
mod parts;
mod plan;
mod queue;
mod queued;
mod same;
mod work;

pub use book::Book;
pub use change::{changed_at, node_at, weight_now};
pub use goals::GoalList;
pub use hand::{Done, Hand, Lowered, SeatSet, SettleFault, Taken, WeightList, WorkFault};
pub use journal::Journal;
pub use laws::{bits_are_seats, hands_out_tell, hands_stay_out};
pub use queued::{NumberedPlace, QueuedTransitions};
