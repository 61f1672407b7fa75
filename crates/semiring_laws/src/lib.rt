//! Bounded idempotent semirings with return maps, their laws, and the combination of finitely many weights.
#![tactic(auto)]

mod combination;
mod laws;
mod reach;
mod semiring;

pub use combination::combine_all;
pub use laws::{
    below_is_an_order, chains_are_short, combination_is_greatest_below, combination_is_of_members,
    combine_is_greatest_below, operations_distribute, operations_keep_below,
};
pub use reach::{NoMap, Reach};
pub use semiring::Semiring;
