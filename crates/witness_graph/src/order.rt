ghost use Rattle.std.specs.Prelude.{◌≡◌, ◌<◌, ◌+◌, ◌-◌, ℕ, List, map, length, None, Some, is_some, IfOk, All, option_to_list, option_and_then};
ghost use Rattle.witness_graph.specs.declared.node.Node.{Node as NodeValue};
ghost use Rattle.witness_graph.specs.Nodes.{AreNodes, IsListing, named, node_at};
ghost use Rattle.witness_graph.specs.Order.{renamed, listing_of};
ghost use Rattle.witness_graph.specs.Runs.{runs_of};
ghost use Rattle.witness_graph.specs.declared.node.Side.{Side as SideValue};
ghost use Rattle.witness_graph.specs.Order as order;
ghost use Rattle.witness_graph.specs.private.Paging.{place_on};
ghost use Rattle.witness_graph.specs.private.Walking.{KnowsPlaces, first_new};

use crate::Node;
use crate::parts::NodeParts;
use crate::places::Places;
use std::alloc::Global;
use wpds_base::OutOfMemory;

// The numbers of nodes in the order of a walk, and the place there of each number that has one.
#[derive(Drop)]
struct Visited {
    order: Vec<u64>,
    places: Places,
}

// Where a number stands, if it does.
fn place(places: &Places, part: Option<u64>) -> Option<u64>
    ensures { result ≡ option_and_then (place_on places.now) part }
{
    match part {
        Some(k) => places.get(k),
        None => None,
    }
}

// The part, unless it has a place.
fn unplaced(places: &Places, part: Option<u64>) -> Option<u64>
    ensures { result ≡ first_new (λ j. is_some (place_on places.now j)) (option_to_list part) }
{
    match place(places, part) {
        Some(_) => None,
        None => part,
    }
}

// The first number that a node names and that has no place.
fn next_unplaced(places: &Places, node: Node) -> Option<u64>
    ensures { result ≡ first_new (λ j. is_some (place_on places.now j)) (named node) }
{
    match node {
        Node::Start => None,
        Node::Lower {
            before,
            first,
            second,
            ..
        } => match unplaced(places, before) {
            Some(k) => Some(k),
            None => match unplaced(places, first) {
                Some(k) => Some(k),
                None => unplaced(places, second),
            },
        },
    }
}

fn read_node(nodes: &NodeParts, k: u64) -> Node
    requires { k < length nodes.now }
    ensures { result ≡ node_at nodes.now k }
{
    nodes.at(k)
}

// The nodes reached from the root, in post-order. A node waits on the stack until all that it names has a place.
fn post_order(alloc: Global, nodes: &NodeParts, root: u64) -> Result<Visited, OutOfMemory>
    requires root { root < length nodes.now }
    requires nodes { AreNodes nodes.now }
    ensures order { IfOk result (λ v. v.order.items ≡ order.post_order nodes.now root) }
    ensures places { IfOk result (λ v. KnowsPlaces (place_on v.places) v.order.items) }
{
    let mut order = Vec::new(alloc);
    let mut places = Places::new(alloc);
    let mut stack = Vec::new(alloc);
    stack.push(root)?;
    'walk: while let Some(number) = stack.pop() {
        match next_unplaced(&places, read_node(nodes, number)) {
            Some(part) => {
                stack.push(number)?;
                stack.push(part)?;
            }
            None => {
                places.insert(alloc, number, order.len() as u64)?;
                order.push(number)?;
            }
        }
    }
    Ok(Visited { order, places })
}

/// The listing of a root, and what it is.
pub(crate) fn list_nodes(
    alloc: Global,
    nodes: &NodeParts,
    root: u64,
) -> Result<Vec<Node>, OutOfMemory>
    requires root { root < length nodes.now }
    requires nodes { AreNodes nodes.now }
    ensures list { IfOk result (λ v. v.items ≡ listing_of nodes.now root) }
    ensures listing { IfOk result (λ v. IsListing v.items) }
    ensures runs { IfOk result (λ v. (side : SideValue) →
        runs_of side v.items (length v.items - 1) ≡ runs_of side nodes.now root) }
{
    let visited = post_order(alloc, nodes, root)?;
    let list = renumber(alloc, nodes, &visited.order, &visited.places)?;
    Ok(list)
}

// The nodes in this order, each named by its place.
fn renumber(
    alloc: Global,
    nodes: &NodeParts,
    order: &[u64],
    places: &Places,
) -> Result<Vec<Node>, OutOfMemory>
    requires { All (λ k. k < length nodes.now) order.now }
    ensures { IfOk result (λ v. v.items
        ≡ map (λ k. renamed (place_on places.now) (node_at nodes.now k)) order.now) }
{
    let mut list = Vec::new(alloc);
    for number in order {
        list.push(renamed(nodes.at(*number), places))?;
    }
    Ok(list)
}

// The node with each number that it names replaced by its place.
fn renamed(node: Node, places: &Places) -> Node
    ensures { result ≡ order.renamed (place_on places.now) node }
{
    match node {
        Node::Start => Node::Start,
        Node::Lower {
            before,
            rule,
            first,
            second,
        } => Node::Lower {
            before: place(places, before),
            rule,
            first: place(places, first),
            second: place(places, second),
        },
    }
}
