//! From runs of a lowered program to states of its machine.
#![tactic(auto)]

mod first;
mod reader;
mod shown;
mod tracing;
mod widths;

pub use first::{FirstTrace, first_trace};
pub use tracing::{Trace, concrete};
