//! What Boolean programs do: the states of a program, whether one is a move of another, and moves
//! by picks.
#![tactic(auto)]

mod lines;
mod moving;
mod picking;
mod state;
mod states;
mod stepping;
mod valuation;

pub use moving::is_move;
pub use state::{Frame, FrameList, State};
pub use states::{is_state, start};
pub use stepping::step;
