ghost use Rattle.std.specs.Prelude.{◌≡◌, ◌≤◌, ◌<◌, ◌*◌, ◌+◌, ◌++◌, ℕ, IfOk, OnOk, length};
ghost use Rattle.diagram_store.specs.Diagrams.{IsOver};
ghost use Rattle.relation_weights.specs.Actions.{frame_pairs};
ghost use Rattle.relation_weights.specs.private.Diagrams.{HasPairs};
ghost use Rattle.relation_weights.specs.private.Frames.{pair_nodes, IsFrame};

use diagram_store::{Branch, BranchList, Diagram};
use std::alloc::Global;
use wpds_base::OutOfMemory;

/// The relation in which each number below `n` keeps its bit, but for those that are listed, which may have either.
///
/// Its nodes are written down from the last number to the first, three for each that keeps its bit.
pub(crate) fn frame(alloc: Global, n: u32, freed: &[u32]) -> Result<Diagram, OutOfMemory>
    requires { n ≤ 24 }
    ensures pairs { IfOk result (λ d. HasPairs d (frame_pairs n freed.now)) }
    ensures variables { IfOk result (λ d. IsOver (2 * n) d) }
{
    let mut nodes = Vec::with_capacity(alloc, 3 * n as usize)?;
    let mut root = 1;
    for k in 0..n {
        root = add_number(&mut nodes, n - 1 - k, freed, root)?;
    }
    Ok(Diagram {
        root,
        nodes: BranchList::from_vec(nodes),
    })
}

// Adds a number before the rest, and answers the new root.
fn add_number(
    nodes: &mut Vec<Branch>,
    number: u32,
    freed: &[u32],
    rest: u64,
) -> Result<u64, OutOfMemory>
    requires number { number < 24 }
    ensures { (n : ℕ) → number < n → IsFrame n freed.now (number + 1) rest nodes.old.items
        → IfOk result (λ root. IsFrame n freed.now number root nodes.new.items) }
{
    if freed.contains(&number) {
        return Ok(rest);
    }
    let root = add_pair(nodes, number, rest)?;
    Ok(root)
}

// Adds the nodes by which a number keeps its bit, before the rest, and answers the place of the last.
fn add_pair(nodes: &mut Vec<Branch>, number: u32, rest: u64) -> Result<u64, OutOfMemory>
    requires number { number < 24 }
    ensures nodes { let first = length nodes.old.items + 2 in
        OnOk result (nodes.new.items ≡ nodes.old.items ++ pair_nodes first number rest) }
    ensures place { IfOk result (λ r. r ≡ length nodes.old.items + 4) }
{
    let at = nodes.len() as u64 + 2;
    let old = 2 * number;
    let new = 2 * number + 1;
    nodes.push(Branch {
        var: new,
        low: rest,
        high: 0,
    })?;
    nodes.push(Branch {
        var: new,
        low: 0,
        high: rest,
    })?;
    nodes.push(Branch {
        var: old,
        low: at,
        high: at + 1,
    })?;
    Ok(at + 2)
}
