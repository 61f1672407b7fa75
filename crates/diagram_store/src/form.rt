ghost use Rattle.std.specs.Prelude.{◌≡◌, ◌↔◌, ◌<◌, ◌+◌, ◌^◌, ℕ, IsTrue, Some, length, slice_get, option_and_then};
ghost use Rattle.diagram_store.specs.declared.branch.Branch.{Branch as BranchValue};
ghost use Rattle.diagram_store.specs.Canonical.{IsCanonical};
ghost use Rattle.diagram_store.specs.Nodes.{IsAbove, IsReduced};
ghost use Rattle.diagram_store.specs.private.Fitting.{IsFitting};
ghost use Rattle.diagram_store.specs.private.Turns as turns;

use crate::Branch;
use crate::branch::{is_same, node};

/// Whether the nodes and the root are canonical: variables rise on each way down, no node has equal branches,
/// no two nodes are equal, and the nodes stand in the post-order of a walk from the root that takes `low`
/// first, with none unreached.
///
/// It takes no memory, and the square of the number of nodes in time.
pub fn canonical(nodes: &[Branch], root: u64) -> bool
    ensures { IsTrue result ↔ IsCanonical root nodes.now }
{
    is_reduced(nodes) && turn_after(nodes, 2, root) == Some(nodes.len() as u64 + 2)
}

fn is_reduced(nodes: &[Branch]) -> bool
    ensures { IsTrue result ↔ IsReduced nodes.now }
{
    for k in 0..nodes.len() {
        if !is_fitting(nodes, k) {
            return false;
        }
    }
    true
}

// Whether a node fits those before it.
fn is_fitting(nodes: &[Branch], k: usize) -> bool
    requires { k < length nodes.now }
    ensures { IsTrue result
        ↔ ((n : BranchValue) → slice_get nodes.now k ≡ Some n → IsFitting nodes.now k n) }
{
    let node = nodes[k];
    let number = k as u64 + 2;
    node.low < number
        && node.high < number
        && node.low != node.high
        && is_above(nodes, node.var, node.low)
        && is_above(nodes, node.var, node.high)
        && is_new(&nodes[..k], node)
}

// Whether a reference is a constant or a node of a later variable.
fn is_above(nodes: &[Branch], var: u32, reference: u64) -> bool
    ensures { IsTrue result ↔ IsAbove nodes.now var reference }
{
    match node(nodes, reference) {
        Some(later) => var < later.var,
        None => true,
    }
}

// Whether the list lacks a node.
fn is_new(nodes: &[Branch], node: Branch) -> bool
    ensures { IsTrue result ↔ ((k : ℕ) → slice_get nodes.now k ≡ Some node → ⊥) }
{
    for old in nodes {
        if is_same(old, &node) {
            return false;
        }
    }
    true
}

// The turn after the walk from a reference, while the references below `turn` have been left.
fn turn_after(nodes: &[Branch], turn: u64, reference: u64) -> Option<u64>
    requires { IsReduced nodes.now }
    ensures { result ≡ turns.turn_after nodes.now reference turn reference }
{
    if reference < turn {
        return Some(turn);
    }
    match node(nodes, reference) {
        Some(found) => match turn_after(nodes, turn, found.low) {
            Some(middle) => in_turn(reference, turn_after(nodes, middle, found.high)),
            None => None,
        },
        None => None,
    }
}

// The turn after a reference, if it is its turn.
fn in_turn(reference: u64, turn: Option<u64>) -> Option<u64>
    requires { reference + 1 < 2 ^ 64 }
    ensures { result ≡ option_and_then (turns.in_turn reference) turn }
{
    match turn {
        Some(number) if number == reference => Some(number + 1),
        _ => None,
    }
}
