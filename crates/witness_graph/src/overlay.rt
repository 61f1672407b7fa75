ghost use Rattle.std.specs.Prelude.{◌≡◌, ◌<◌, ◌-◌, ◌++◌, [], ◌∷◌, length, IfOk, OnOk, OnErr};
ghost use Rattle.witness_graph.specs.Nodes.{AreNodes, IsNodeAt};
ghost use Rattle.witness_graph.specs.Order.{listing_of};
ghost use Rattle.witness_graph.specs.Runs.{runs_of, listing_runs};

use crate::order::list_nodes;
use crate::parts::NodeParts;
use crate::{Graph, Listing, Node, NodeList, Side};
use std::alloc::Global;
use std::marker::Model;
use wpds_base::OutOfMemory;

/// A graph's nodes and others that are added after them. The graph itself stays as it is, and is not copied.
#[derive(Drop)]
pub struct Overlay<'g> {
    base: &'g Graph,
    added: Vec<Node>,
}

impl<'g> Model for Overlay<'g> {
    ghost use Rattle.std.specs.Prelude.{◌++◌};
    ghost use Rattle.witness_graph.specs.Nodes.{AreNodes, Overlaid};

    ghost Value = { Overlaid };

    ghost view = { λ o. record { graph = o.base.now; nodes = o.base.now.nodes ++ o.added.items } };

    ghost invariant = { λ o. AreNodes (o.base.now.nodes ++ o.added.items) };
}

impl<'g> Overlay<'g> {
    /// The graph's nodes alone. It takes no memory.
    pub fn new(alloc: Global, base: &'g Graph) -> Overlay<'g>
        ensures graph { result.graph ≡ base.now }
        ensures nodes { result.nodes ≡ base.now.nodes }
    {
        // brings the fact that the graph's nodes are nodes
        let _count = base.len();
        Overlay {
            base,
            added: Vec::new(alloc),
        }
    }

    /// The graph.
    pub fn graph(&self) -> &'g Graph
        ensures { result.now ≡ self.now.graph }
    {
        self.base
    }

    /// The nodes that were added.
    pub fn added(&self) -> &[Node]
        ensures added { self.now.nodes ≡ self.now.graph.nodes ++ result.now }
        ensures nodes { AreNodes self.now.nodes }
    {
        &self.added
    }

    /// Which way its runs go.
    pub fn side(&self) -> Side
        ensures { result ≡ self.now.graph.side }
    {
        self.base.side()
    }

    /// Adds a node, and returns its number. It is refused only when out of memory.
    pub fn push_node(&mut self, _alloc: Global, node: Node) -> Result<u64, OutOfMemory>
        requires { IsNodeAt (length self.old.nodes) node }
        ensures number { IfOk result (λ k. k ≡ length self.old.nodes) }
        ensures ok { OnOk result (self.new.nodes ≡ self.old.nodes ++ node ∷ []) }
        ensures err { OnErr result (self.new.nodes ≡ self.old.nodes) }
        ensures graph { self.new.graph ≡ self.old.graph }
    {
        let before = self.added.len() as u64;
        let number = self.base.len().checked_add(before).ok_or(OutOfMemory)?;
        self.added.push(node)?;
        Ok(number)
    }

    /// The listing of a node, as [`Graph::listing`] gives it.
    pub fn listing(&self, alloc: Global, root: u64) -> Result<Listing, OutOfMemory>
        requires { root < length self.now.nodes }
        ensures side { IfOk result (λ l. l.side ≡ self.now.graph.side) }
        ensures nodes { IfOk result (λ l. l.nodes ≡ listing_of self.now.nodes root) }
        ensures runs { IfOk result (λ l.
            listing_runs l ≡ runs_of self.now.graph.side self.now.nodes root) }
    {
        let parts = NodeParts::new(self.base, &self.added);
        let nodes = list_nodes(alloc, &parts, root)?;
        Ok(Listing {
            side: self.base.side(),
            nodes: NodeList::from_vec(nodes),
        })
    }
}
