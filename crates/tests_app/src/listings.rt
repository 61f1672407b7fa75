use report_text::{listing_text, query_line};
use std::alloc::Global;
use std::test::Fail;
use witness_graph::{Graph, Node, Side};
use wpds_base::OutOfMemory;
use wpds_port::Text;

const fn lower(
    before: Option<u64>,
    rule: Option<u32>,
    first: Option<u64>,
    second: Option<u64>,
) -> Node {
    Node::Lower {
        before,
        rule,
        first,
        second,
    }
}

// The text of the listing of the last of these nodes.
fn text_of(alloc: Global, side: Side, nodes: &[Node]) -> Result<String, OutOfMemory> {
    let mut graph = Graph::new(alloc, side);
    let mut root = 0;
    for node in nodes {
        if node.is_at(graph.len()) {
            root = graph.push_node(alloc, *node)?;
        }
    }
    if root >= graph.len() {
        return Err(OutOfMemory);
    }
    listing_text(alloc, &graph.listing(alloc, root)?)
}

#[test]
fn listings(rt: HostRuntime) -> Result<(), Fail> {
    let alloc = rt.alloc();
    // a call that returns: a rule, then what the callee did, then nothing more
    let call = [
        lower(None, Some(1), None, None),
        Node::Start,
        lower(None, Some(0), Some(0), Some(1)),
    ];
    assert_eq!(rt;
        text_of(alloc, Side::Pre, &call)?.as_str(),
        "  set 0 = rule 2\n  set 1 = empty\n  set 2 = rule 1 then set 0 then set 1\n  answer set 2\n"
    );
    assert_eq!(rt;
        text_of(alloc, Side::Post, &call)?.as_str(),
        "  set 0 = rule 2\n  set 1 = empty\n  set 2 = set 0 then set 1 then rule 1\n  answer set 2\n"
    );
    assert_eq!(rt;
        text_of(alloc, Side::Pre, &[Node::Start])?.as_str(),
        "  set 0 = empty\n  answer set 0\n"
    );
    let more = [
        Node::Start,
        lower(Some(0), Some(9), None, None),
        lower(Some(1), None, None, Some(0)),
    ];
    assert_eq!(rt;
        text_of(alloc, Side::Pre, &more)?.as_str(),
        "  set 0 = empty\n  set 1 = set 0 or rule 10\n  set 2 = set 1 or set 0\n  answer set 2\n"
    );
    Ok(())
}

#[test]
fn lines_of_queries(rt: HostRuntime) -> Result<(), Fail> {
    let alloc = rt.alloc();
    for (number, value, line) in [
        (1, "3", "query 1: 3\n"),
        (12, "unreachable", "query 12: unreachable\n"),
    ] {
        let value = Text::of(alloc, value.as_bytes())?;
        let found = query_line(alloc, number, &value)?;
        assert_eq!(rt; found.as_bytes(), line.as_bytes());
    }
    Ok(())
}
