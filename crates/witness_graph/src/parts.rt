ghost use Rattle.std.specs.Prelude.{◌≡◌, ◌<◌, ◌++◌, length};
ghost use Rattle.witness_graph.specs.Nodes.{node_at};

use crate::{Graph, Node};
use std::marker::Model;

/// The nodes of a graph and others, which are numbered on from them.
#[derive(Drop)]
pub(crate) struct NodeParts<'a> {
    base: &'a Graph,
    added: &'a [Node],
}

impl<'a> Model for NodeParts<'a> {
    ghost use Rattle.std.specs.Prelude.{List, ◌++◌};
    ghost use Rattle.witness_graph.specs.declared.node.Node.{Node as NodeValue};

    ghost Value = { List NodeValue };

    ghost view = { λ p. p.base.now.nodes ++ p.added.now };
}

impl<'a> NodeParts<'a> {
    /// The nodes of the graph, and then the others.
    pub(crate) fn new(base: &'a Graph, added: &'a [Node]) -> NodeParts<'a>
        ensures { result ≡ base.now.nodes ++ added.now }
    {
        NodeParts { base, added }
    }

    /// The node with a number.
    pub(crate) fn at(&self, k: u64) -> Node
        requires { k < length self.now }
        ensures { result ≡ node_at self.now k }
    {
        let first = self.base.len();
        if k < first {
            self.base.node(k)
        } else {
            self.added[(k - first) as usize]
        }
    }
}
