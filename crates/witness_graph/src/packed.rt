ghost use Rattle.std.specs.Prelude.{◌≡◌, ◌<◌, IfSome, IsTrue};
ghost use Rattle.witness_graph.specs.Nodes.{EachNamed, has_part};
ghost use Rattle.witness_graph.specs.private.Packing.{no_node, number_of};

use crate::Node;
use std::marker::Model;

/// Stands where no node is named. The numbers of nodes are below it.
pub(crate) const NO_NODE: u32 = u32::MAX;

/// A node in twenty bytes. It is `Start` where it names nothing.
#[derive(Clone, Copy)]
pub(crate) struct Packed {
    before: u32,
    rule: Option<u32>,
    first: u32,
    second: u32,
}

impl Model for Packed {
    ghost use Rattle.witness_graph.specs.declared.node.Node.{Node as NodeValue};

    ghost Value = { NodeValue };

    ghost use Rattle.witness_graph.specs.private.Packing.{unpacked, packed, packed_again};

    ghost view = { unpacked };

    ghost inverse = { packed };

    ghost inverse_ok = { λ p _. packed_again p };
}

// The word for a part.
fn word_of(part: Option<u64>) -> u32
    requires { IfSome part (λ k. k < no_node) }
    ensures { number_of result ≡ part }
{
    match part {
        Some(number) => number as u32,
        None => NO_NODE,
    }
}

// The part that a word stands for.
fn number_of(word: u32) -> Option<u64>
    ensures { result ≡ number_of word }
{
    if word == NO_NODE {
        None
    } else {
        Some(u64::from(word))
    }
}

impl Packed {
    /// The node, packed.
    pub(crate) fn new(node: Node) -> Packed
        requires names { EachNamed (λ k. k < no_node) node }
        requires part { IsTrue (has_part node) }
        ensures { result ≡ node }
    {
        match node {
            Node::Start => Packed {
                before: NO_NODE,
                rule: None,
                first: NO_NODE,
                second: NO_NODE,
            },
            Node::Lower {
                before,
                rule,
                first,
                second,
            } => Packed {
                before: word_of(before),
                rule,
                first: word_of(first),
                second: word_of(second),
            },
        }
    }

    /// The node.
    pub(crate) fn node(&self) -> Node
        ensures { result ≡ self.now }
    {
        let parts = (
            number_of(self.before),
            self.rule,
            number_of(self.first),
            number_of(self.second),
        );
        match parts {
            (None, None, None, None) => Node::Start,
            (before, rule, first, second) => Node::Lower {
                before,
                rule,
                first,
                second,
            },
        }
    }
}
