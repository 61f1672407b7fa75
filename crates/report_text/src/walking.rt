//! The runs of a listing one after another, none of which is made that is too long.

ghost use Rattle.std.specs.Prelude.{◌≡◌, IfOk, length};
ghost use Rattle.witness_graph.specs.Runs as runs;
ghost use Rattle.report_text.specs.Expansions.{IsNextWithin};
ghost use Rattle.report_text.specs.private.Counting.{AreCounted};
ghost use Rattle.report_text.specs.private.Opening as opening;

use crate::beginning::{Beginning, Part};
use crate::expansion::Run;
use crate::opening::open_node;
use crate::totals::{Total, node_totals};
use std::alloc::Global;
use std::marker::Model;
use witness_graph::Listing;
use wpds_base::OutOfMemory;

/// The next of some runs.
#[derive(Drop)]
pub enum NextRun {
    Run(Run),
    /// There is one, and it has too many rules.
    TooLong,
    End,
}

/// The runs of a listing that are left. Contracts see their list.
#[derive(Drop)]
pub struct RunWalk<'l> {
    listing: &'l Listing,
    totals: Vec<Total>,
    stack: Vec<Beginning>,
}

impl<'l> Model for RunWalk<'l> {
    ghost use Rattle.std.specs.Prelude.{◌≡◌, ℕ, List, length};
    ghost use Rattle.witness_graph.specs.Runs.{runs_of};
    ghost use Rattle.report_text.specs.private.Counting.{AreCounted};
    ghost use Rattle.report_text.specs.private.Opening.{stack_runs, IsStack};

    ghost Value = { List (List ℕ) };

    ghost view = { λ w. stack_runs (runs_of w.listing.now.side w.listing.now.nodes) w.stack.items };

    ghost invariant = { λ w. (length w.totals.items ≡ length w.listing.now.nodes)
        × AreCounted w.totals.items (runs_of w.listing.now.side w.listing.now.nodes)
        × IsStack (length w.totals.items) w.stack.items };
}

/// A run that was taken, and those that are left.
#[derive(Drop)]
pub struct RunStep<'l> {
    pub next: NextRun,
    pub rest: RunWalk<'l>,
}

// The next run of those that stand open, unless it has more rules than this. What follows it then
// stands open, and is not made.
fn next_within(
    alloc: Global,
    listing: &Listing,
    totals: &[Total],
    stack: &mut Vec<Beginning>,
    room: u64,
) -> Result<NextRun, OutOfMemory>
    requires len { length totals.now ≡ length listing.now.nodes }
    requires counted { AreCounted totals.now (runs.runs_of listing.now.side listing.now.nodes) }
    requires within { opening.IsStack (length totals.now) stack.old.items }
    ensures next { let known = runs.runs_of listing.now.side listing.now.nodes in
        IfOk result (λ next. IsNextWithin room next
        (opening.stack_runs known stack.old.items) (opening.stack_runs known stack.new.items)) }
    ensures within { IfOk result (λ _. opening.IsStack (length totals.now) stack.new.items) }
{
    'walk: while let Some(mut begun) = stack.pop() {
        match begun.parts.pop() {
            None if begun.rules.len() as u64 > room => return Ok(NextRun::TooLong),
            None => return Ok(NextRun::Run(Run::from_vec(begun.rules))),
            Some(Part::Rule(rule)) => {
                if begun.rules.len() as u64 >= room {
                    return Ok(NextRun::TooLong);
                }
                begun.rules.push(rule)?;
                stack.push(begun)?;
            }
            Some(Part::Node(number)) => {
                open_node(alloc, listing, totals, begun, number, stack)?;
            }
        }
    }
    Ok(NextRun::End)
}

impl<'l> RunWalk<'l> {
    /// All runs of a listing, in order. None is made yet. It takes time linear in the listing.
    pub fn new(alloc: Global, listing: &'l Listing) -> Result<RunWalk<'l>, OutOfMemory>
        ensures { IfOk result (λ w. w ≡ runs.listing_runs listing.now) }
    {
        let totals = node_totals(alloc, listing)?;
        let root = listing.nodes.len() - 1;
        let mut stack = Vec::new(alloc);
        stack.push(Beginning::of_node(alloc, root as u64)?)?;
        Ok(RunWalk {
            listing,
            totals,
            stack,
        })
    }

    /// Takes the next run, unless it has more rules than this. What stands open of it until then has
    /// no more rules, so memory is linear in the listing and in `room`. What is left is not said
    /// where the run is too long. Refused only when out of memory.
    pub fn next_within(self, alloc: Global, room: u64) -> Result<RunStep<'l>, OutOfMemory>
        ensures { IfOk result (λ s. IsNextWithin room s.next self.entry s.rest) }
    {
        let RunWalk {
            listing,
            totals,
            mut stack,
        } = self;
        let next = next_within(alloc, listing, &totals, &mut stack, room)?;
        let rest = RunWalk {
            listing,
            totals,
            stack,
        };
        Ok(RunStep { next, rest })
    }
}
