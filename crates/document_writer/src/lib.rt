//! Writes the document of a pushdown system as text.
#![tactic(auto)]

mod document;
mod expressions;
mod names;
mod numbers;
mod patterns;
mod rows;
mod rules;
mod weights;

pub use document::write_system;
