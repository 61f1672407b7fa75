//! Operations on decision diagrams (Bryant 1986; Burch, Clarke, McMillan, Dill, Hwang 1990).
#![tactic(auto)]

mod applied;
mod applying;
mod composing;
mod copying;
mod kept_composing;
mod kept_results;
mod loading;
mod node;
mod node_table;
mod picking;
mod places;
mod quantifying;
mod renaming;
mod restricting;
mod scratch;
mod short_cuts;
mod table_copying;
mod table_loading;
mod uniting;

pub use applied::{apply_table2, apply_table3, apply2, apply3};
pub use composing::compose_relations;
pub use node_table::NodeTable;
pub use picking::{Bits, pick};
pub use quantifying::exists;
pub use renaming::rename;
pub use restricting::restrict;
