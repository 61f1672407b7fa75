ghost use Rattle.std.specs.Prelude.{◌≡◌, ◌<◌, ◌*◌, ◌++◌, IfOk, OnOk, length, option_to_list};
ghost use Rattle.witness_graph.specs.Runs as runs;
ghost use Rattle.report_text.specs.private.Counting.{AreCounted};
ghost use Rattle.report_text.specs.private.Opening as opening;

use crate::beginning::{Beginning, Part};
use crate::expansion::Run;
use crate::totals::Total;
use std::alloc::Global;
use witness_graph::{Listing, Node, runs_are_those_of_parts};
use wpds_base::OutOfMemory;

fn push_some(stack: &mut Vec<Beginning>, begun: Option<Beginning>) -> Result<(), OutOfMemory>
    ensures { OnOk result (stack.new.items ≡ stack.old.items ++ option_to_list begun) }
{
    if let Some(begun) = begun {
        stack.push(begun)?;
    }
    Ok(())
}

/// Opens a node that comes first in a beginning: the runs of the node before, and then those of its parts.
pub(crate) fn open_node(
    alloc: Global,
    listing: &Listing,
    totals: &[Total],
    mut begun: Beginning,
    number: u64,
    stack: &mut Vec<Beginning>,
) -> Result<(), OutOfMemory>
    requires number { number < length listing.now.nodes }
    requires len { length totals.now ≡ length listing.now.nodes }
    requires counted { AreCounted totals.now (runs.runs_of listing.now.side listing.now.nodes) }
    requires within { opening.AreWithin (length totals.now) begun.parts.items }
    ensures { let known = runs.runs_of listing.now.side listing.now.nodes in
        let runs = opening.runs_behind known begun.rules.items (known number) begun.parts.items in
        let steps = opening.node_steps number * opening.steps begun.parts.items in
        let opened = opening.IsOpened (length totals.now) known runs steps in
        OnOk result (opened stack.old.items stack.new.items) }
{
    runs_are_those_of_parts();
    let Node::Lower {
        before,
        rule,
        first,
        second,
    } = listing.nodes.as_slice()[number as usize]
    else {
        stack.push(begun)?;
        return Ok(());
    };
    let earlier = begun.earlier(alloc, totals, before)?;
    begun.put_parts(listing.side, totals, rule, first, second)?;
    stack.push(begun)?;
    push_some(stack, earlier)
}

// The next run of those that stand open, if there is one. What follows it then stands open, and is not made.
fn next_run(
    alloc: Global,
    listing: &Listing,
    totals: &[Total],
    stack: &mut Vec<Beginning>,
) -> Result<Option<Run>, OutOfMemory>
    requires len { length totals.now ≡ length listing.now.nodes }
    requires counted { AreCounted totals.now (runs.runs_of listing.now.side listing.now.nodes) }
    requires within { opening.IsStack (length totals.now) stack.old.items }
    ensures { let known = runs.runs_of listing.now.side listing.now.nodes in
        let next = opening.IsNext (length totals.now) known in
        IfOk result (λ run. next run stack.old.items stack.new.items) }
{
    'walk: while let Some(mut begun) = stack.pop() {
        match begun.parts.pop() {
            None => return Ok(Some(Run::from_vec(begun.rules))),
            Some(Part::Rule(rule)) => {
                begun.rules.push(rule)?;
                stack.push(begun)?;
            }
            Some(Part::Node(number)) => {
                open_node(alloc, listing, totals, begun, number, stack)?;
            }
        }
    }
    Ok(None)
}

/// The runs of a node of a listing, in order, by the totals of its nodes. What stands open of them begins runs that no other
/// begins, and names no part that adds nothing, so that it takes no more memory than they do.
pub(crate) fn runs_of_node(
    alloc: Global,
    listing: &Listing,
    totals: &[Total],
    root: u64,
) -> Result<Vec<Run>, OutOfMemory>
    requires root { root < length listing.now.nodes }
    requires len { length totals.now ≡ length listing.now.nodes }
    requires counted { AreCounted totals.now (runs.runs_of listing.now.side listing.now.nodes) }
    ensures { IfOk result (λ v.
        v.items ≡ runs.runs_of listing.now.side listing.now.nodes root) }
{
    let mut runs = Vec::new(alloc);
    let mut stack = Vec::new(alloc);
    stack.push(Beginning::of_node(alloc, root)?)?;
    'runs: while let Some(run) = next_run(alloc, listing, totals, &mut stack)? {
        runs.push(run)?;
    }
    Ok(runs)
}
