//! How answers are written: the line of a query, the listing of its runs, and the runs themselves, if they are few and short
//! enough.
#![tactic(auto)]

mod beginning;
mod expansion;
mod line;
mod listing;
mod opening;
mod options;
mod report;
mod totals;
mod traces;
mod walking;

pub use expansion::{Expanded, Run, RunList, expand};
pub use listing::{listing_text, query_line};
pub use options::Options;
pub use report::{listed, query_text, traced};
pub use traces::traces_text;
pub use walking::{NextRun, RunStep, RunWalk};
