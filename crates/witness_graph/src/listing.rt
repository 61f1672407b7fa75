ghost use Rattle.std.specs.Prelude.{◌≡◌};
ghost use Rattle.witness_graph.specs.Nodes.{IsListing};

use crate::{Node, Side};
use wpds_base::Sequence;

/// Nodes in order, each of which may name those before it.
pub type NodeList = Sequence<Node>;

/// The runs of its last node, with the nodes that these need and no others.
/// It has at least one node, each names earlier ones alone, and each `Lower` has a part.
#[derive(Drop)]
pub struct Listing {
    pub side: Side,
    pub nodes: NodeList,
    ghost is_listing: { IsListing nodes },
}
