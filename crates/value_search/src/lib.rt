//! The plain search backwards, for values alone. What leads from control to control is closed once for all queries (`open`, `turn`),
//! and over it what leads to one target (`aim`, `turn_to_target`). There is no automaton, no events and no nodes: only weights by
//! place, which are lowered until nothing waits. By the saturation of Bouajjani, Esparza and Maler 1997, with weights as in Schwoon
//! 2002 and Reps, Schwoon, Jha, Melski 2005.
#![tactic(auto)]

mod edges;
mod give;
mod laws;
mod meet;
mod opening;
mod search;
mod take;

pub use laws::{closed_enters_are_sums, closed_pops_are_sums};
pub use opening::{aim, open};
pub use search::{turn, turn_to_target};
