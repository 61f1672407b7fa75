//! Where the lines of a body jump: behind the `else` or the `end` of their block, or back to the line that opened it.
#![tactic(auto)]

mod blocks;
mod jumps;

pub use jumps::other_lines;
