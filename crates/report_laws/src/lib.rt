//! What holds of every report, as laws over definitions: what its texts tell of the runs that are asked about, and that reports by
//! either direction and any number of workers agree. No code.
#![tactic(auto)]

mod documents;
mod programs;

pub use documents::{
    brief_reports_agree, costs_are_the_cheapest, reports_tell_constants, reports_tell_costs,
    reports_tell_facts, reports_tell_feasibility, reports_tell_one_value,
    reports_tell_reachability, reports_tell_relations, unreachable_where_infeasible,
};
pub use programs::{brief_program_reports_agree, program_reports_tell_one_verdict};
