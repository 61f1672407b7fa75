//! Forwards saturation (post*): what it draws from a transition, and the book that it opens for a pattern
//! (Schwoon 2002; Reps, Schwoon, Jha, Melski 2005).
#![tactic(auto)]

mod candidate;
mod drawing;
mod glue;
mod jobs;
mod middles;
mod opening;
mod pass;
mod post;
mod worths;

pub use opening::post_opening;
pub use post::Post;
