//! Relations between the old and the new values of Boolean variables as weights: sets of pairs of states, kept as
//! canonical diagrams.
#![tactic(auto)]

mod actions;
mod expressions;
mod frames;
mod laws;
mod nodes;
mod rel_map;
mod relation;
mod relations;
mod results;
mod returns;

pub use actions::Value;
pub use laws::{actions_are_sets_of_pairs, weights_are_sets_of_pairs};
pub use nodes::{RelationNodes, ReturnNodes};
pub use rel_map::{RelMap, Slot};
pub use relation::Relation;
pub use relations::Relations;
