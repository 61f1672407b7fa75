//! The top call: from the bytes that are read to the bytes that are written.
#![tactic(auto)]

mod alike;
mod crew;
mod generate;
mod input;
mod laws;
mod program;
mod reply;
mod report;
mod request;
mod status;
mod texts;
mod together;

pub use input::Input;
pub use laws::no_input_is_accepted_and_refused;
pub use program::run;
pub use status::Status;
