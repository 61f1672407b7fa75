use semiring_laws::Reach;
use std::alloc::Global;
use std::process::Abort;
use witness_graph::{
    Graph, Listing, Node, Overlay, Side, listing_stays_tight, post_order_has_the_reached,
    runs_are_those_of_parts,
};
use wpds_base::OutOfMemory;

const START: Node = Node::Start;

// A node of its numbers.
const fn lower(
    before: Option<u64>,
    rule: Option<u32>,
    first: Option<u64>,
    second: Option<u64>,
) -> Node {
    Node::Lower {
        before,
        rule,
        first,
        second,
    }
}

// A graph of these nodes, up to the first that may not stand next.
fn graph_of(alloc: Global, nodes: &[Node]) -> Result<Graph, OutOfMemory> {
    let mut graph = Graph::new(alloc, Side::Post);
    for node in nodes {
        if !node.is_at(graph.len()) {
            break;
        }
        graph.push_node(alloc, *node)?;
    }
    Ok(graph)
}

// The listing of the last of these nodes, each of which may stand in its place.
fn listed(alloc: Global, nodes: &[Node]) -> Result<Listing, OutOfMemory> {
    let graph = graph_of(alloc, nodes)?;
    let len = graph.len();
    if len == 0 || len < nodes.len() as u64 {
        return Err(OutOfMemory);
    }
    graph.listing(alloc, len - 1)
}

// Lists the last of these nodes.
fn check_listing(
    rt: &impl Abort,
    alloc: Global,
    nodes: &[Node],
    want: &[Node],
) -> Result<(), OutOfMemory> {
    let listing = listed(alloc, nodes)?;
    assert_eq!(rt; listing.side, Side::Post);
    assert_eq!(rt; listing.nodes.as_slice(), want);
    assert_eq!(rt; listing.nodes.into_vec().as_slice(), want);
    Ok(())
}

#[test]
fn listings(rt: HostRuntime) {
    let rows: [(&[Node], &[Node]); 3] = [
        // one node
        (&[START], &[START]),
        // nodes that are not reached
        (
            &[
                START,
                START,
                lower(None, Some(7), Some(0), None),
                START,
                lower(None, Some(0), Some(1), None),
            ],
            &[START, lower(None, Some(0), Some(0), None)],
        ),
        // before, first and second, in this order
        (
            &[
                lower(None, Some(1), None, None),
                lower(None, Some(2), None, None),
                lower(None, Some(3), None, None),
                lower(Some(2), None, Some(0), Some(1)),
            ],
            &[
                lower(None, Some(3), None, None),
                lower(None, Some(1), None, None),
                lower(None, Some(2), None, None),
                lower(Some(0), None, Some(1), Some(2)),
            ],
        ),
    ];
    for (nodes, want) in rows {
        check_listing(&rt, rt.alloc(), nodes, want).expect(&rt, "an answer");
    }
}

#[test]
fn listings_of_shared_nodes(rt: HostRuntime) {
    let rows: [(&[Node], &[Node]); 3] = [
        // a chain of nodes before
        (
            &[
                START,
                lower(None, Some(5), Some(0), None),
                lower(Some(1), Some(6), Some(0), Some(0)),
                lower(Some(2), Some(7), None, None),
            ],
            &[
                START,
                lower(None, Some(5), Some(0), None),
                lower(Some(1), Some(6), Some(0), Some(0)),
                lower(Some(2), Some(7), None, None),
            ],
        ),
        // a diamond, its right side first
        (
            &[
                START,
                lower(None, Some(1), Some(0), None),
                lower(None, Some(2), Some(0), None),
                lower(None, None, Some(2), Some(1)),
            ],
            &[
                START,
                lower(None, Some(2), Some(0), None),
                lower(None, Some(1), Some(0), None),
                lower(None, None, Some(1), Some(2)),
            ],
        ),
        // a node that is reached through two others, and from the root
        (
            &[
                START,
                lower(None, Some(1), Some(0), None),
                lower(Some(1), Some(2), Some(1), None),
                lower(Some(0), None, Some(2), Some(1)),
            ],
            &[
                START,
                lower(None, Some(1), Some(0), None),
                lower(Some(1), Some(2), Some(1), None),
                lower(Some(0), None, Some(2), Some(1)),
            ],
        ),
    ];
    for (nodes, want) in rows {
        check_listing(&rt, rt.alloc(), nodes, want).expect(&rt, "an answer");
    }
}

#[test]
fn laws() {
    listing_stays_tight::<Reach>();
    post_order_has_the_reached();
    runs_are_those_of_parts();
}

#[test]
fn nodes_that_may_stand(rt: HostRuntime) {
    // a node, and the least number that it may have
    let cases = [
        (START, Some(0u64)),
        (lower(None, None, None, None), None),
        (lower(Some(0), None, None, None), None),
        (lower(None, Some(3), None, None), Some(0)),
        (lower(Some(4), Some(3), None, None), Some(5)),
        (lower(None, None, Some(2), Some(6)), Some(7)),
        (lower(Some(8), None, None, Some(6)), Some(9)),
    ];
    for (node, least) in cases {
        for number in 0u64..12 {
            let may = match least {
                Some(k) => k <= number,
                None => false,
            };
            assert_eq!(rt; node.is_at(number), may, "at {number}");
        }
    }
}

// A graph with room for three nodes, and these.
fn check_pushed(rt: &impl Abort, alloc: Global, nodes: [Node; 3]) -> Result<Graph, OutOfMemory> {
    let mut graph = Graph::new(alloc, Side::Pre);
    graph.reserve(alloc, 3)?;
    for node in nodes {
        let number = graph.len();
        assert!(rt; node.is_at(number));
        assert_eq!(rt; graph.push_node(alloc, node), Ok(number));
    }
    Ok(graph)
}

fn check_graph(rt: &impl Abort, graph: &Graph, nodes: [Node; 3]) {
    assert_eq!(rt; graph.side(), Side::Pre);
    assert_eq!(rt; graph.len(), 3);
    for (k, node) in nodes.into_iter().enumerate() {
        assert!(rt; (k as u64) < graph.len());
        assert_eq!(rt; graph.node(k as u64), node);
    }
}

#[test]
fn room_first(rt: HostRuntime) {
    let alloc = rt.alloc();
    let nodes = [
        START,
        lower(None, Some(0), Some(0), None),
        lower(Some(1), Some(1), Some(0), None),
    ];
    let graph = check_pushed(&rt, alloc, nodes).expect(&rt, "an answer");
    check_graph(&rt, &graph.copy(alloc).expect(&rt, "an answer"), nodes);
}

// A node, and as many that name the one before them.
fn chain(alloc: Global, links: u64) -> Result<Vec<Node>, OutOfMemory> {
    let mut nodes = vec![in alloc; START]?;
    for k in 0..links {
        let node = if k % 2 == 0 {
            lower(Some(k), Some(1), None, None)
        } else {
            lower(None, Some(2), Some(0), Some(k))
        };
        nodes.push(node)?;
    }
    Ok(nodes)
}

#[test]
fn a_long_chain(rt: HostRuntime) {
    let nodes = chain(rt.alloc(), 200_000).expect(&rt, "an answer");
    check_listing(&rt, rt.alloc(), &nodes, &nodes).expect(&rt, "an answer");
}

// Over a graph of two nodes two are added, and the last is listed.
fn listed_over(rt: &impl Abort, alloc: Global, base: &Graph) -> Result<Listing, OutOfMemory> {
    let mut over = Overlay::new(alloc, base);
    assert_eq!(rt; over.side(), Side::Post);
    let first = over.push_node(alloc, START)?;
    assert_eq!(rt; first, 2);
    let node = lower(Some(first), Some(4), None, Some(1));
    assert!(rt; node.is_at(3));
    let root = over.push_node(alloc, node)?;
    over.listing(alloc, root)
}

// What is added over the graph is listed, and what it names in the graph.
fn check_over(rt: &impl Abort, alloc: Global, base: &Graph) -> Result<(), OutOfMemory> {
    let listing = listed_over(rt, alloc, base)?;
    let nodes = [
        START,
        START,
        lower(None, Some(7), Some(1), None),
        lower(Some(0), Some(4), None, Some(2)),
    ];
    assert_eq!(rt; listing.side, Side::Post);
    assert_eq!(rt; listing.nodes.as_slice(), nodes.as_slice());
    Ok(())
}

#[test]
fn nodes_over_a_graph(rt: HostRuntime) {
    let alloc = rt.alloc();
    let base = graph_of(alloc, &[START, lower(None, Some(7), Some(0), None)]).expect(
        &rt,
        "an answer",
    );
    check_over(&rt, alloc, &base).expect(&rt, "an answer");
    assert_eq!(rt; base.len(), 2);
}
