use report_text::{Expanded, expand, traces_text};
use std::alloc::Global;
use std::test::Fail;
use witness_graph::{Graph, Listing, Node, Side};
use wpds_base::OutOfMemory;

const LIMIT: u64 = 100_000;

const TOO_LONG: &str = "  traces: too long\n";

// What a node has: the node before, a rule, the first node and the second. One that has none is the empty run.
type Row = (Option<u64>, Option<u32>, Option<u64>, Option<u64>);

const EMPTY: Row = (None, None, None, None);

// Two nodes of two runs each, and one of both with a rule.
const TWO_AND_TWO: [Row; 5] = [
    (None, Some(1), None, None),
    (Some(0), Some(2), None, None),
    (None, Some(3), None, None),
    (Some(2), Some(4), None, None),
    (None, Some(9), Some(1), Some(3)),
];

// Adds a node where it may stand, and returns its number.
fn add(alloc: Global, graph: &mut Graph, row: Row) -> Result<u64, OutOfMemory> {
    let node = match row {
        (None, None, None, None) => Node::Start,
        (before, rule, first, second) => Node::Lower {
            before,
            rule,
            first,
            second,
        },
    };
    if node.is_at(graph.len()) {
        graph.push_node(alloc, node)
    } else {
        Err(OutOfMemory)
    }
}

// The listing of the last node.
fn listing_of(alloc: Global, graph: &Graph) -> Result<Listing, OutOfMemory> {
    match graph.len().checked_sub(1) {
        Some(root) => graph.listing(alloc, root),
        None => Err(OutOfMemory),
    }
}

// The listing of the last of these nodes.
fn listing(alloc: Global, side: Side, rows: &[Row]) -> Result<Listing, OutOfMemory> {
    let mut graph = Graph::new(alloc, side);
    for row in rows {
        add(alloc, &mut graph, *row)?;
    }
    listing_of(alloc, &graph)
}

// One run of as many rules as a binary numeral says: for each digit those of the digits before it twice, and one more for a 1.
fn one_run(alloc: Global, digits: &[u8]) -> Result<Listing, OutOfMemory> {
    let mut graph = Graph::new(alloc, Side::Pre);
    let mut half = None;
    for digit in digits {
        let odd = if *digit == b'1' { Some(4) } else { None };
        half = Some(add(alloc, &mut graph, (None, odd, half, half))?);
    }
    listing_of(alloc, &graph)
}

// 20,000 runs of four rules: each of the first three is one of ten, and the last one of twenty. If it is asked for, the
// empty run stands behind them.
fn fours(alloc: Global, and_empty: bool) -> Result<Listing, OutOfMemory> {
    let mut graph = Graph::new(alloc, Side::Post);
    let mut last = None;
    for rule in 0..20 {
        last = Some(add(alloc, &mut graph, (last, Some(rule), None, None))?);
    }
    let two = add(alloc, &mut graph, (None, None, Some(9), Some(9)))?;
    let three = add(alloc, &mut graph, (None, None, Some(9), Some(two)))?;
    let four = add(alloc, &mut graph, (None, None, Some(three), last))?;
    if and_empty {
        let empty = add(alloc, &mut graph, EMPTY)?;
        add(alloc, &mut graph, (Some(four), None, Some(empty), None))?;
    }
    listing_of(alloc, &graph)
}

// The first node, and so many others each of which goes twice through the one before it.
fn doubled(
    alloc: Global,
    first: Row,
    rule: Option<u32>,
    times: u64,
) -> Result<Listing, OutOfMemory> {
    let mut graph = Graph::new(alloc, Side::Pre);
    let mut last = add(alloc, &mut graph, first)?;
    for _ in 0..times {
        last = add(alloc, &mut graph, (None, rule, Some(last), Some(last)))?;
    }
    listing_of(alloc, &graph)
}

// So many times one of two rules.
fn choices(alloc: Global, times: u64) -> Result<Listing, OutOfMemory> {
    let mut graph = Graph::new(alloc, Side::Pre);
    let one = add(alloc, &mut graph, (None, Some(0), None, None))?;
    let either = add(alloc, &mut graph, (Some(one), Some(1), None, None))?;
    let mut last = either;
    for _ in 1..times {
        last = add(alloc, &mut graph, (None, None, Some(last), Some(either)))?;
    }
    listing_of(alloc, &graph)
}

// The run of a ladder with so many rungs: each goes to the next rung twice.
fn ladder(alloc: Global, rungs: u64) -> Result<Listing, OutOfMemory> {
    let mut graph = Graph::new(alloc, Side::Pre);
    let mut rung = add(alloc, &mut graph, (None, Some(0), None, None))?;
    for _ in 0..rungs {
        let end = add(alloc, &mut graph, (None, Some(3), None, None))?;
        let middle = add(alloc, &mut graph, (None, Some(2), Some(rung), Some(end)))?;
        rung = add(alloc, &mut graph, (None, Some(1), Some(rung), Some(middle)))?;
    }
    listing_of(alloc, &graph)
}

// How many runs there are, if they fit a limit.
fn count(alloc: Global, listing: &Listing, limit: u64) -> Result<Option<usize>, OutOfMemory> {
    match expand(alloc, listing, limit)? {
        Expanded::Runs(runs) => Ok(Some(runs.len())),
        Expanded::TooLong => Ok(None),
    }
}

// Whether a run is these rules.
fn is_run(run: &[u32], rules: &[u32]) -> bool {
    if run.len() != rules.len() {
        return false;
    }
    for k in 0..rules.len() {
        if run[k] != rules[k] {
            return false;
        }
    }
    true
}

// Whether these are one run, of these rules.
fn is_one_run(expanded: &Expanded, rules: &[u32]) -> bool {
    match expanded {
        Expanded::Runs(runs) => {
            let runs = runs.as_slice();
            runs.len() == 1 && is_run(runs[0].as_slice(), rules)
        }
        Expanded::TooLong => false,
    }
}

// A call that returns: one run of two rules, whose size is three.
#[test]
fn runs(rt: HostRuntime) -> Result<(), Fail> {
    let alloc = rt.alloc();
    let rows = [
        (None, Some(1), None, None),
        EMPTY,
        (None, Some(0), Some(0), Some(1)),
    ];
    let listing = listing(alloc, Side::Pre, &rows)?;
    let within = expand(alloc, &listing, 3)?;
    assert!(rt; is_one_run(&within, &[0, 1]));
    let over = expand(alloc, &listing, 2)?;
    assert!(rt; matches!(over, Expanded::TooLong));
    Ok(())
}

#[test]
fn lines(rt: HostRuntime) -> Result<(), Fail> {
    let rows: [(Side, &[Row], &str); 7] = [
        // the empty run has a line
        (Side::Pre, &[EMPTY], "  run: empty\n"),
        // a call that returns
        (
            Side::Pre,
            &[
                (None, Some(1), None, None),
                EMPTY,
                (None, Some(0), Some(0), Some(1)),
            ],
            "  run: rule 1, rule 2\n",
        ),
        // the runs before stand first, the empty one among them
        (
            Side::Pre,
            &[
                (None, Some(5), None, None),
                EMPTY,
                (Some(0), None, Some(1), None),
                (Some(2), Some(6), Some(2), None),
            ],
            "  run: rule 6\n  run: empty\n  run: rule 7, rule 6\n  run: rule 7\n",
        ),
        // backwards the rule stands first, and the runs of the first part change slowest
        (
            Side::Pre,
            &TWO_AND_TWO,
            "  run: rule 10, rule 2, rule 4\n  run: rule 10, rule 2, rule 5\n  run: rule 10, rule 3, rule 4\n  run: rule 10, rule 3, rule 5\n",
        ),
        // forwards it stands last
        (
            Side::Post,
            &TWO_AND_TWO,
            "  run: rule 2, rule 4, rule 10\n  run: rule 2, rule 5, rule 10\n  run: rule 3, rule 4, rule 10\n  run: rule 3, rule 5, rule 10\n",
        ),
        // a node that is named twice
        (
            Side::Post,
            &[
                (None, Some(0), None, None),
                (Some(0), None, Some(0), Some(0)),
                (None, None, Some(1), Some(1)),
            ],
            "  run: rule 1, rule 1\n  run: rule 1, rule 1, rule 1\n  run: rule 1, rule 1, rule 1\n  run: rule 1, rule 1, rule 1, rule 1\n",
        ),
        // a node that stands for the empty run alone is before, first and second
        (
            Side::Pre,
            &[
                EMPTY,
                (None, None, Some(0), Some(0)),
                (Some(1), Some(0), Some(1), Some(0)),
            ],
            "  run: empty\n  run: rule 1\n",
        ),
    ];
    for (side, nodes, text) in rows {
        let listing = listing(rt.alloc(), side, nodes)?;
        assert_eq!(rt; traces_text(rt.alloc(), &listing, LIMIT)?.as_str(), text);
    }
    Ok(())
}

#[test]
fn sizes(rt: HostRuntime) -> Result<(), Fail> {
    let alloc = rt.alloc();
    let empty = listing(alloc, Side::Pre, &[EMPTY])?;
    let pairs = listing(alloc, Side::Pre, &TWO_AND_TWO)?;
    let one = one_run(alloc, b"11000011010011111")?;
    let longer = one_run(alloc, b"11000011010100000")?;
    let many = fours(alloc, false)?;
    let more = fours(alloc, true)?;
    let rows: [(&Listing, u64, Option<usize>); 11] = [
        (&empty, 0, None),
        (&empty, 1, Some(1)),
        // four runs of three rules
        (&pairs, 15, None),
        (&pairs, 16, Some(4)),
        // a run of 99,999 rules, and one of 100,000
        (&one, LIMIT - 1, None),
        (&one, LIMIT, Some(1)),
        (&longer, LIMIT, None),
        // 20,000 runs of four rules, and with the empty one
        (&many, LIMIT - 1, None),
        (&many, LIMIT, Some(20_000)),
        (&more, LIMIT, None),
        (&more, LIMIT + 1, Some(20_001)),
    ];
    for (listing, limit, found) in rows {
        assert_eq!(rt; count(alloc, listing, limit)?, found);
    }
    Ok(())
}

#[test]
fn shared(rt: HostRuntime) -> Result<(), Fail> {
    let alloc = rt.alloc();
    let rule = (None, Some(0), None, None);
    let rows: [(Listing, u64, Option<usize>); 6] = [
        // 2 to the 12th, 13th and 20th runs
        (choices(alloc, 12)?, LIMIT, Some(4096)),
        (choices(alloc, 13)?, LIMIT, None),
        (choices(alloc, 20)?, LIMIT, None),
        // a run of 2 to the 17th rules
        (doubled(alloc, rule, None, 17)?, LIMIT, None),
        // sizes of 2 to the 64th and far over it, where no limit is large enough
        (doubled(alloc, rule, Some(0), 63)?, u64::MAX, None),
        (doubled(alloc, rule, Some(0), 500)?, u64::MAX, None),
    ];
    for (listing, limit, found) in &rows {
        assert_eq!(rt; count(alloc, listing, *limit)?, *found);
    }
    Ok(())
}

#[test]
fn lines_of_shared_nodes(rt: HostRuntime) -> Result<(), Fail> {
    let alloc = rt.alloc();
    let rows: [(Listing, &str); 3] = [
        // one run that goes down each rung twice
        (ladder(alloc, 20)?, TOO_LONG),
        (
            ladder(alloc, 1)?,
            "  run: rule 2, rule 1, rule 3, rule 1, rule 4\n",
        ),
        // the empty run, 2 to the 500th times one after the other
        (doubled(alloc, EMPTY, None, 500)?, "  run: empty\n"),
    ];
    for (listing, text) in &rows {
        assert_eq!(rt; traces_text(alloc, listing, LIMIT)?.as_str(), *text);
    }
    Ok(())
}
