//! Weights by place, for a search that finds values alone: what was found, which of it waits, and one weight in hand. A search names
//! places and numbers of entries, and all arithmetic of weights is done here.
#![tactic(auto)]

mod cell;
mod entry_list;
mod index;
mod laws;
mod layer;
mod layers;
mod lowering;
mod plain;
mod renewal;
mod tables;
mod weigher;

pub use laws::{turns_are_bounded, turns_fall};
pub use layer::Layer;
pub use plain::PlainWeigher;
pub use tables::Tables;
pub use weigher::Weigher;
