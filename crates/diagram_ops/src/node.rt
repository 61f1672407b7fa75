ghost use Rattle.std.specs.Prelude.{◌≡◌};
ghost use Rattle.diagram_ops.specs.private.TableNodes.{node_spread, nodes_alike};

use key_rows::{Key, Keyed, mixed};

/// A node of a table: its variable, and where the walk goes on for the bits false and true. It is found by itself.
#[derive(Clone, Copy, Debug, PartialEq, Eq, PartialOrd, Ord)]
pub(crate) struct Node {
    pub(crate) var: u32,
    pub(crate) low: u32,
    pub(crate) high: u32,
}

impl Key for Node {
    ghost spread = { node_spread };

    fn spread(self, round: u64) -> u64 {
        mixed(mixed(mixed(round, self.var), self.low), self.high)
    }

    fn is_key(self, other: Node) -> bool {
        self.low == other.low && self.high == other.high && self.var == other.var
    }

    ghost alike = { nodes_alike };
}

impl Keyed<Node> for Node {
    ghost key_of = { λ n. n };

    fn key(&self) -> Node {
        *self
    }
}
