ghost use Rattle.std.specs.Prelude.{◌≡◌, ◌-◌, ◌<◌, ◌++◌, length, IfOk};
ghost use Rattle.witness_graph.specs.Nodes.{AreNodes};
ghost use Rattle.witness_graph.specs.Runs.{runs_of, listing_runs};
ghost use Rattle.witness_graph.specs.Shorter as shorter;

use crate::{Graph, Listing, Node, Overlay};
use std::alloc::Global;
use wpds_base::OutOfMemory;

// The part, unless it is the node with this number.
fn but(first: u64, part: Option<u64>) -> Option<u64>
    ensures { result ≡ shorter.but first part }
{
    match part {
        Some(number) => { if number == first { None } else { Some(number) } }
        None => None,
    }
}

// The node without that part, unless it has no other.
fn pruned(first_added: u64, node: Node) -> Node
    ensures { result ≡ shorter.pruned first_added node }
{
    let Node::Lower {
        before,
        rule,
        first,
        second,
    } = node
    else {
        return node;
    };
    let (left, right) = (but(first_added, first), but(first_added, second));
    if rule.is_some() || left.is_some() || right.is_some() {
        Node::Lower {
            before,
            rule,
            first: left,
            second: right,
        }
    } else {
        node
    }
}

// The part that a node is, if it is one part alone.
fn only_part(node: Node) -> Option<u64>
    ensures { result ≡ shorter.only_part node }
{
    match node {
        Node::Lower {
            before: None,
            rule: None,
            first,
            second: None,
        } => first,
        Node::Lower {
            before: None,
            rule: None,
            first: None,
            second,
        } => second,
        _ => None,
    }
}

// The number that stands for a node: its own if it is one of the graph's.
fn stand(graph: u64, stands: &[u64], number: u64) -> u64
    ensures { result ≡ shorter.stand graph stands.now number }
{
    if number < graph {
        return number;
    }
    match stands.get((number - graph) as usize) {
        Some(other) => *other,
        None => number,
    }
}

fn stand_for(graph: u64, stands: &[u64], part: Option<u64>) -> Option<u64>
    ensures { result ≡ shorter.stand_for graph stands.now part }
{
    match part {
        Some(number) => Some(stand(graph, stands, number)),
        None => None,
    }
}

// The node by what stands for those that it names.
fn by_stands(graph: u64, stands: &[u64], node: Node) -> Node
    ensures { result ≡ shorter.by_stands graph stands.now node }
{
    match node {
        Node::Start => Node::Start,
        Node::Lower {
            before,
            rule,
            first,
            second,
        } => Node::Lower {
            before: stand_for(graph, stands, before),
            rule,
            first: stand_for(graph, stands, first),
            second: stand_for(graph, stands, second),
        },
    }
}

/// The listing of a node of a sum, made shorter: of a graph's nodes and those that the sum added, of which the first is
/// the empty run. Only the added nodes are touched. The runs are the same list. Refused only when out of memory.
pub fn shorter(
    alloc: Global,
    graph: &Graph,
    added: &[Node],
    root: u64,
) -> Result<Listing, OutOfMemory>
    requires nodes { AreNodes (graph.now.nodes ++ added.now) }
    requires begins { shorter.BeginsEmpty added.now }
    requires root { root < length (graph.now.nodes ++ added.now) }
    ensures side { IfOk result (λ l. l.side ≡ graph.now.side) }
    ensures nodes { IfOk result (λ l. l.nodes ≡ shorter.shortened graph.now.nodes added.now root) }
    ensures runs { IfOk result (λ l.
        listing_runs l ≡ runs_of graph.now.side (graph.now.nodes ++ added.now) root) }
{
    let first = graph.len();
    let mut whole = Overlay::new(alloc, graph);
    let mut stands = Vec::new(alloc);
    for node in added {
        let node = pruned(first, by_stands(first, &stands, *node));
        let number = whole.push_node(alloc, node)?;
        stands.push(only_part(node).unwrap_or(number))?;
    }
    whole.listing(alloc, stand(first, &stands, root))
}
