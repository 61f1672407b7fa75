//! Walks over pairs: where the edges of two patterns lead, and what tables of weights give along them.
#![tactic(auto)]

mod falls;
mod laws;
mod meeting;
mod pairs;
mod readings;
mod ways;

pub use falls::{fall_item, fall_row, fall_ways};
pub use laws::lowerings_fall;
pub use meeting::takes_all;
pub use pairs::{Order, Pair, Stage, answer_place, pair_at, pair_place};
pub use readings::{read_items, read_on, read_state, skip_item};
pub use ways::{Ways, ways_from};
