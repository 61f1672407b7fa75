//! The ladder: a document that the program makes for itself, whose only run is exponentially long.
#![tactic(auto)]

mod document;
mod laws;
mod names;
mod rules;
mod text;

pub use document::{LADDER_CAP, ladder_document};
pub use laws::ladders_are_documents;
pub use text::ladder;
