//! Sums over the paths of a finished saturation that read a pattern: the weight of all runs between the pattern and the
//! saturation's opening, with a listing of runs that make it.
#![tactic(auto)]

mod answer;
mod change;
mod growing;
mod laws;
mod lookup;
mod sum_input;
mod summing;
mod values;

pub use answer::Answer;
pub use laws::{finished_searches_are_saturated, sums_have_answers};
pub use summing::{sum, sum_parts, sum_value};
pub use values::sum_values;
