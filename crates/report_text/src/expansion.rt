ghost use Rattle.std.specs.Prelude.{◌≡◌, ◌≤◌, ◌↔◌, ℕ, List, IsTrue, IfOk};
ghost use Rattle.witness_graph.specs.Runs.{listing_runs};
ghost use Rattle.report_text.specs.Expansions as expansions;
ghost use Rattle.report_text.specs.private.Counting.{IsCounted};

use crate::opening::runs_of_node;
use crate::totals::{Total, node_totals};
use std::alloc::Global;
use witness_graph::Listing;
use wpds_base::{OutOfMemory, Sequence};

/// The rules of a run by their numbers, in order.
pub type Run = Sequence<u32>;

/// Runs, in order.
pub type RunList = Sequence<Run>;

/// Runs, unless they are too many or too long together.
#[derive(Drop)]
pub enum Expanded {
    Runs(RunList),
    TooLong,
}

// Whether the size is known and no more than this.
fn fits(total: Total, limit: u64) -> bool
    ensures { (runs : List (List ℕ)) → IsCounted total runs →
        IsTrue result ↔ (expansions.size_of runs ≤ limit) }
{
    let Some(counted) = total else { return false };
    match counted.runs.checked_add(counted.rules) {
        Some(size) => size <= limit,
        None => false,
    }
}

/// The runs of a listing, in order, unless their size is over the limit: the number of their rules, and one more for each
/// run. The size is found without them, in time linear in the listing, so that memory is linear in the listing and in
/// the runs that are answered. Refused only when out of memory.
pub fn expand(alloc: Global, listing: &Listing, limit: u64) -> Result<Expanded, OutOfMemory>
    ensures { let l = listing.now in
        IfOk result (λ e. e ≡ expansions.expansion limit (listing_runs l)) }
{
    let totals = node_totals(alloc, listing)?;
    let root = listing.nodes.len() - 1;
    if !fits(totals[root], limit) {
        return Ok(Expanded::TooLong);
    }
    let runs = runs_of_node(alloc, listing, &totals, root as u64)?;
    Ok(Expanded::Runs(RunList::from_vec(runs)))
}
