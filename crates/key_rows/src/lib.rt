//! Lists that are looked up by key: where the member with a key stands, and, for things that share keys, where the first with a
//! key stands and where the next one stands behind it.
#![tactic(auto)]

mod bytes;
mod key;
mod keyed;
mod link;
mod numbers;
mod rows;

pub use key::{Key, mixed};
pub use keyed::{Keyed, KeyedList};
pub use numbers::NumberRows;
pub use rows::KeyRows;
