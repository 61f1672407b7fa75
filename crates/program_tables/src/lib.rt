//! What the lines of a program declare, in tables: the first of two walks over its text.
#![tactic(auto)]

mod judging;
mod place;
mod rows;
mod tables;
mod walk;

pub use judging::judge;
pub use place::{Block, Place};
pub use tables::{LabelRow, ProcRow, Tables};
pub use walk::{StatedLine, StatedLines, read_tables};
