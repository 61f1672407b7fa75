//! Reduced ordered decision diagrams (Bryant 1986) as values: a canonical list of nodes, no shared manager. Beside them a table of
//! numbers that stand at three numbers each, which tables of nodes and of results are made of.
#![tactic(auto)]

mod branch;
mod diagram;
mod form;
mod laws;
mod methods;
mod triple_chains;
mod triple_table;

pub use branch::{Branch, BranchList, node};
pub use diagram::Diagram;
pub use form::canonical;
pub use laws::{
    constants_are_canonical, independent_variables, one_meaning, one_reference, value_by_branch,
};
pub use triple_table::TripleTable;
