//! Reads the text of a pushdown system: its document, or its first refusal.
#![tactic(auto)]

mod body_lines;
mod headers;
mod items;
mod lines;
mod name_lines;
mod patterns;
mod queries;
mod reading;
mod symbols;
mod system;
mod weights_lines;

pub use headers::{first_line, is_first_version, language};
pub use lines::{Line, Lines, is_text};
pub use name_lines::{add_names, add_word, are_names, is_reserved};
pub use patterns::QueryFaults;
pub use queries::{QueryRead, read_query};
pub use system::read_system;
