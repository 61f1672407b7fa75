//! What a document means: its system over the semiring of its weights, and the patterns of its queries.
#![tactic(auto)]

mod constants;
mod facts;
mod kind;
mod laws;
mod pattern;
mod relations;
mod row;
mod system;

pub use kind::{DocumentWeights, Names};
pub use laws::{configurations_are_their_own_members, documents_are_systems, unreachable_is_zero};
pub use pattern::pattern_from;
pub use system::system_from;
