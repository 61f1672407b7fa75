ghost use Rattle.std.specs.Prelude.{◌≡◌, ◌+◌, ◌<◌, ◌≤◌, ℕ, [], Some, IfOk, IfSome, OnErr, length, option_map};
ghost use Rattle.diagram_store.specs.Meaning.{TellsReferences};
ghost use Rattle.diagram_store.specs.Nodes.{node_at, IsAbove, IsReduced, HasVariablesBelow};
ghost use Rattle.diagram_ops.specs.NodeTables.{Keeps};
ghost use Rattle.diagram_ops.specs.private.KeptResults.{IsResult};
ghost use Rattle.diagram_ops.specs.private.Scratch.{Stands, IsChoice};
ghost use Rattle.diagram_ops.specs.private.TableNodes.{branch_of, most_nodes, IsMade};

use crate::kept_results::{KeptResults, Operation, Slot};
use crate::node::Node;
use diagram_store::one_reference;
use key_rows::KeyedList;
use std::alloc::Global;
use std::marker::Model;
use wpds_base::OutOfMemory;

// How many nodes have references of 32 bits.
const MOST_NODES: usize = 4_294_967_293;

/// Reduced nodes that stay, each of which is found by its parts, and results of operations on them (Brace, Rudell, Bryant
/// 1990).
///
/// A reference to them is a test on bits: 0 is false, 1 is true, and `i + 2` is node `i`. Nodes are added and never taken
/// away, so a reference means the same for as long as the table is there, and two references are equal exactly where their
/// values are.
#[derive(Drop)]
pub struct NodeTable {
    nodes: KeyedList<Node, Node>,
    results: KeptResults,
}

impl Model for NodeTable {
    ghost use Rattle.std.specs.Prelude.{List};
    ghost use Rattle.diagram_store.specs.declared.branch.Branch.{Branch as BranchValue};
    ghost use Rattle.diagram_ops.specs.private.TableNodes.{branches_of};
    ghost use Rattle.diagram_ops.specs.private.Tables.{IsTable};

    ghost Value = { List BranchValue };

    ghost view = { λ t. branches_of t.nodes.members };

    ghost invariant = { λ t. IsTable t.nodes.members t.results };
}

// Puts a node last unless it is there, and says where it stands.
fn make_node(nodes: &mut KeyedList<Node, Node>, node: Node) -> Result<u32, OutOfMemory>
    ensures made { IfOk result (λ k. IsMade nodes.old.members nodes.new.members node k) }
    ensures within { IfOk result (λ k. k < length nodes.new.members) }
    ensures stays { OnErr result (nodes.new.members ≡ nodes.old.members) }
{
    nodes.make(node)?;
    let Some(number) = nodes.find_made(node) else {
        unreachable!()
    };
    Ok(number)
}

impl NodeTable {
    /// No nodes. It takes no memory.
    pub fn new(alloc: Global) -> NodeTable
        ensures { result ≡ [] }
    {
        NodeTable {
            nodes: KeyedList::new(alloc),
            results: KeptResults::new(alloc),
        }
    }

    /// How many references there are: one for each constant, and one for each node.
    pub fn references(&self) -> usize
        ensures { result ≡ length self.now + 2 }
    {
        self.nodes.len() + 2
    }

    /// The nodes are ordered and reduced, so that two references with equal values on all bits are equal.
    pub fn valid(&self)
        ensures reduced { IsReduced self.now }
        ensures tells { TellsReferences self.now }
    {
        one_reference();
        let _count = self.nodes.len();
    }

    /// The node that a reference names.
    pub(crate) fn node(&self, reference: u32) -> Node
        requires node { 2 ≤ reference }
        requires within { reference < length self.now + 2 }
        ensures { node_at self.now reference ≡ Some (branch_of result) }
    {
        *self.nodes.get(reference as usize - 2)
    }

    /// The node that a reference names, if it is no constant.
    pub(crate) fn found(&self, reference: u32) -> Option<Node>
        requires { reference < length self.now + 2 }
        ensures { option_map branch_of result ≡ node_at self.now reference }
    {
        if reference < 2 {
            return None;
        }
        Some(self.node(reference))
    }

    /// The choice by a variable that comes before those of both branches.
    pub(crate) fn branch(&mut self, var: u32, low: u32, high: u32) -> Result<u32, OutOfMemory>
        requires low { low < length self.old + 2 }
        requires high { high < length self.old + 2 }
        requires low_above { IsAbove self.old var low }
        requires high_above { IsAbove self.old var high }
        ensures reduced { IsReduced self.new }
        ensures keeps { Keeps self.old self.new }
        ensures limits { (limit : ℕ) → var < limit → HasVariablesBelow limit self.old
            → HasVariablesBelow limit self.new }
        ensures stands { IfOk result (λ r.
            Stands self.new r (IsChoice self.new var low high) (λ v. v < var)) }
    {
        let count = self.nodes.len();
        if low == high {
            return Ok(low);
        }
        if count >= MOST_NODES {
            return Err(OutOfMemory);
        }
        let number = make_node(&mut self.nodes, Node { var, low, high })?;
        self.results.make_room(self.nodes.len());
        Ok(number + 2)
    }

    /// The result of an operation on two references, if it is kept.
    pub(crate) fn kept(&self, operation: Operation, x: u32, y: u32) -> Option<u32>
        ensures { IfSome result (λ r. IsResult operation self.now x y r) }
    {
        self.results.get(operation, x, y)
    }

    /// Keeps a result.
    pub(crate) fn keep(&mut self, slot: Slot)
        requires { IsResult slot.operation self.old slot.x slot.y slot.result }
        ensures { self.new ≡ self.old }
    {
        self.results.put(slot);
    }
}
