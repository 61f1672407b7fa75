ghost use Rattle.std.specs.Prelude.{◌≡◌, [], length};

use wpds_base::Sequence;

/// An edge of the automaton that reads a pattern: from a state, over the symbol on top, to a state.
#[derive(Clone, Copy, Debug, PartialEq, Eq)]
pub struct Edge {
    pub from: u32,
    pub symbol: u32,
    pub to: u32,
}

/// The edges of a pattern, in order.
pub type EdgeList = Sequence<Edge>;
