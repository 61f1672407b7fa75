//! Reads the line of a rule: its names, its weight and its return.
#![tactic(auto)]

mod digits;
mod lexemes;
mod name_reads;
mod names;
mod returns;
mod rules;
mod scope;
mod weights;

pub use digits::number;
pub use lexemes::{is_name, split_name};
pub use name_reads::{NamesOnce, NamesRead, read_names};
pub use names::NameTable;
pub use rules::{RuleRead, read_rule};
pub use scope::Scope;
pub use weights::{
    Cut, Pieces, TreeRead, ValueRead, WeightFaults, WeightRead, read_tree, read_value, read_weight,
};
