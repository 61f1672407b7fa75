ghost use Rattle.std.specs.Prelude.{◌≡◌, ◌+◌, ◌++◌, List, IfOk, OnOk, length};
ghost use Rattle.witness_graph.specs.declared.node.Node.{Node as NodeValue};

use semiring_laws::Reach;
use std::alloc::Global;
use std::process::Abort;
use witness_graph::{
    Graph, Listing, Node, Overlay, Side, nodes_of_the_graph_stay, shorter,
    shorter_has_no_more_nodes, shorter_has_the_same_runs, shorter_stays_tight,
};
use wpds_base::OutOfMemory;

const fn lower(
    before: Option<u64>,
    rule: Option<u32>,
    first: Option<u64>,
    second: Option<u64>,
) -> Node {
    Node::Lower {
        before,
        rule,
        first,
        second,
    }
}

fn graph_of(alloc: Global, side: Side, nodes: &[Node]) -> Result<Graph, OutOfMemory> {
    let mut graph = Graph::new(alloc, side);
    for node in nodes {
        if node.is_at(graph.len()) {
            graph.push_node(alloc, *node)?;
        }
    }
    Ok(graph)
}

// Adds a node if it may stand behind the last one, and returns the number of the last one then.
fn add(alloc: Global, sum: &mut Overlay, last: u64, node: Node) -> Result<u64, OutOfMemory>
    requires { length sum.old.nodes ≡ last + 1 }
    ensures graph { sum.new.graph ≡ sum.old.graph }
    ensures last { IfOk result (λ k. length sum.new.nodes ≡ k + 1) }
    ensures more { OnOk result ((more : List NodeValue) × (sum.new.nodes ≡ sum.old.nodes ++ more)) }
{
    let Some(number) = last.checked_add(1) else {
        return Err(OutOfMemory);
    };
    if !node.is_at(number) {
        return Ok(last);
    }
    sum.push_node(alloc, node)
}

// The listing, made shorter, of the last node of a sum: a graph's nodes, the empty run, and others.
fn short(alloc: Global, side: Side, old: &[Node], others: &[Node]) -> Result<Listing, OutOfMemory> {
    let graph = graph_of(alloc, side, old)?;
    let mut sum = Overlay::new(alloc, &graph);
    let mut last = sum.push_node(alloc, Node::Start)?;
    for node in others {
        last = add(alloc, &mut sum, last, *node)?;
    }
    shorter(alloc, sum.graph(), sum.added(), last)
}

// Lists the last node of such a sum, and makes the listing shorter.
fn check_short(
    rt: &impl Abort,
    alloc: Global,
    side: Side,
    (old, others): (&[Node], &[Node]),
    want: &[Node],
) -> Result<(), OutOfMemory> {
    let made = short(alloc, side, old, others)?;
    assert_eq!(rt; made.nodes.as_slice(), want);
    Ok(())
}

#[test]
fn listings(rt: HostRuntime) {
    // backwards, a call that returns
    let back = [
        lower(None, Some(1), None, None),
        Node::Start,
        lower(None, Some(0), Some(0), Some(1)),
    ];
    let forth = [
        Node::Start,
        lower(None, None, Some(0), None),
        lower(None, Some(0), Some(1), None),
    ];
    // a side, a graph's nodes and others, and what the listing has
    let rows: [(Side, (&[Node], &[Node]), &[Node]); 4] = [
        // backwards: a pair's own empty run comes first, and the graph's stays
        (
            Side::Pre,
            (
                &back,
                &[
                    lower(None, None, Some(3), Some(2)),
                    lower(None, None, Some(4), None),
                ],
            ),
            &back,
        ),
        // forwards: the transition's node stands first, and the graph's node of one part and its empty run stay
        (
            Side::Post,
            (
                &forth,
                &[
                    lower(None, None, Some(2), Some(3)),
                    lower(None, None, Some(4), None),
                ],
            ),
            &forth,
        ),
        // the empty run alone, which the answer names
        (
            Side::Pre,
            (&[], &[lower(None, None, Some(0), None)]),
            &[Node::Start],
        ),
        // a set that has more runs than the one before it is kept
        (
            Side::Pre,
            (
                &[lower(None, Some(7), None, None)],
                &[
                    lower(None, None, Some(1), Some(0)),
                    lower(Some(2), None, Some(1), None),
                ],
            ),
            &[
                lower(None, Some(7), None, None),
                Node::Start,
                lower(Some(0), None, Some(1), None),
            ],
        ),
    ];
    for (side, nodes, want) in rows {
        check_short(&rt, rt.alloc(), side, nodes, want).expect(&rt, "an answer");
    }
    nodes_of_the_graph_stay();
    shorter_has_no_more_nodes();
    shorter_has_the_same_runs();
    shorter_stays_tight::<Reach>();
}
