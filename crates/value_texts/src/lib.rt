//! What the text of an answer tells of the runs of a system, as laws over definitions. No code.
#![tactic(auto)]

mod laws;

pub use laws::{
    constants_are_of_runs, copy_values_are_told, fact_values_are_told, facts_are_of_runs,
    relation_values_are_told, relations_are_of_runs,
};
