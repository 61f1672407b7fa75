//! Patterns of configurations: which configurations a pattern has, and the edges of the automaton that reads their stacks.
#![tactic(auto)]

mod edge;
mod edge_list;
mod item;
mod laws;
mod matching;
mod pattern;
mod symbol_set;

pub use edge::{Edge, EdgeList};
pub use item::{Item, is_set};
pub use laws::{edges_skip_starred_items, edges_stand_once, members_are_read};
pub use pattern::{Pattern, PatternFault, unrefused};
pub use symbol_set::SymbolSet;
