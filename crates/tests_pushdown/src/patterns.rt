use config_patterns::{
    Edge, EdgeList, Pattern, PatternFault, SymbolSet, edges_skip_starred_items, edges_stand_once,
    is_set, members_are_read, unrefused,
};
use pushdown_rules::Config;
use std::alloc::Global;
use std::test::Fail;

// The sets and stars of a pattern's items.
type Items<'a> = &'a [(&'a [u32], bool)];

const MEMBERS: [Items<'static>; 12] = [
    &[],
    &[(&[0], false)],
    &[(&[0, 2], false)],
    &[(&[1], true)],
    &[(&[0], true), (&[1], true), (&[0], true)],
    &[(&[0], false), (&[1, 2], true), (&[0], false)],
    &[(&[], false)],
    &[(&[], true)],
    &[(&[2], false), (&[], true), (&[0, 1, 2], false)],
    &[(&[0, 1, 2], true), (&[1], false)],
    &[(&[0, 1], true), (&[], false), (&[2], true)],
    &[(&[1, 0], true), (&[2], false), (&[0], true), (&[1], true)],
];

fn pattern_of(alloc: Global, items: Items<'_>) -> Result<Pattern, PatternFault> {
    let mut pattern = Pattern::new(alloc, 7, 3);
    for (set, star) in items {
        if is_set(set) {
            pattern.add_item(alloc, set, *star)?;
        }
    }
    Ok(pattern)
}

// Whether the items from `i` on match the symbols from `k` on, by the definition.
fn plainly(items: Items<'_>, i: usize, stack: &[u32], k: usize) -> bool {
    if i >= items.len() {
        return k >= stack.len();
    }
    let (set, star) = items[i];
    if star && plainly(items, i + 1, stack, k) {
        return true;
    }
    k < stack.len()
        && set.contains(&stack[k])
        && plainly(items, if star { i } else { i + 1 }, stack, k + 1)
}

// How many stacks there are of a depth, over three symbols.
const STACKS: [u32; 5] = [1, 3, 9, 27, 81];

#[test]
fn members_are_those_of_the_definition(rt: HostRuntime) {
    let alloc = rt.alloc();
    for items in MEMBERS {
        let pattern = pattern_of(alloc, items).expect(&rt, "an answer");
        for depth in 0..5usize {
            for code in 0..STACKS[depth] {
                let stack = [code % 3, code / 3 % 3, code / 9 % 3, code / 27];
                let stack = &stack[..depth];
                let config = Config::new(alloc, 7, stack).expect(&rt, "an answer");
                assert_eq!(rt;
                    pattern.matches(&config),
                    plainly(items, 0, stack, 0),
                    "stack {code} of depth {depth}"
                );
                let other = Config::new(alloc, 6, stack).expect(&rt, "an answer");
                assert!(rt; !pattern.matches(&other));
            }
        }
    }
}

const fn edge(from: u32, symbol: u32, to: u32) -> Edge {
    Edge { from, symbol, to }
}

#[test]
fn edges_in_their_order(rt: HostRuntime) {
    let alloc = rt.alloc();
    let pattern = pattern_of(
        alloc,
        &[(&[2, 0], true), (&[1], false), (&[], true), (&[0], true)],
    )
    .expect(&rt, "an answer");
    assert_eq!(rt;
        (pattern.control(), pattern.symbols(), pattern.items()),
        (7, 3, 4)
    );
    let edges = pattern.edges(alloc).expect(&rt, "an answer");
    let expected = [
        edge(0, 2, 1),
        edge(0, 0, 1),
        edge(0, 1, 2),
        edge(1, 2, 1),
        edge(1, 0, 1),
        edge(1, 1, 2),
        edge(2, 0, 4),
        edge(3, 0, 4),
        edge(4, 0, 4),
    ];
    assert_eq!(rt; edges.as_slice(), expected.as_slice());
    for (state, is_final) in [
        (0u32, false),
        (1, false),
        (2, true),
        (3, true),
        (4, true),
        (5, false),
    ] {
        assert_eq!(rt; pattern.is_final(state), is_final, "state {state}");
    }
    let same = EdgeList::from_vec(edges.into_vec());
    assert_eq!(rt; same.as_slice().len(), 9);
}

#[test]
fn sets_of_symbols(rt: HostRuntime) {
    let alloc = rt.alloc();
    let all = SymbolSet::all(3);
    let listed = SymbolSet::listed(vec![in alloc; 0, 1, 2].expect(&rt, "an answer"));
    for set in [&all, &listed] {
        assert_eq!(rt; set.len(), 3);
        assert_eq!(rt; (set.at(0), set.at(1), set.at(2)), (0, 1, 2));
        assert_eq!(rt; (set.has(0), set.has(2), set.has(3)), (true, true, false));
        assert!(rt; set.same(&all) && all.same(set) && set.same(&listed));
    }
    let turned = SymbolSet::listed(vec![in alloc; 0, 2, 1].expect(&rt, "an answer"));
    assert!(rt; !turned.same(&all) && !turned.same(&listed) && turned.has(2));
    assert!(rt; !SymbolSet::all(2).same(&all) && !SymbolSet::all(4).same(&listed));
    assert!(rt; SymbolSet::all(0).same(&SymbolSet::listed(Vec::new(alloc))));
}

// An item of all symbols has the members and the edges of one that lists them.
#[test]
fn items_of_all_symbols(rt: HostRuntime) {
    let alloc = rt.alloc();
    for (before, after) in [(false, false), (false, true), (true, false), (true, true)] {
        let mut all = Pattern::new(alloc, 7, 3);
        assert_eq!(rt; unrefused(all.add_all(before)), Ok(()));
        assert_eq!(rt; all.add_item(alloc, &[1], after), Ok(()));
        let items: Items<'_> = &[(&[0, 1, 2], before), (&[1], after)];
        let listed = pattern_of(alloc, items).expect(&rt, "an answer");
        let edges = all.edges(alloc).expect(&rt, "an answer");
        let expected = listed.edges(alloc).expect(&rt, "an answer");
        assert_eq!(rt; edges.as_slice(), expected.as_slice());
        for code in 0..27 {
            let stack = [code % 3, code / 3 % 3, code / 9];
            let config = Config::new(alloc, 7, &stack).expect(&rt, "an answer");
            assert_eq!(rt;
                all.matches(&config),
                listed.matches(&config),
                "stack {code}"
            );
        }
    }
}

#[test]
fn refusals(rt: HostRuntime) {
    let alloc = rt.alloc();
    let mut pattern = Pattern::new(alloc, 0, 3);
    for set in [[3u32, 0], [0, 3], [2, 4]] {
        if is_set(&set) {
            assert_eq!(rt;
                pattern.add_item(alloc, &set, true),
                Err(PatternFault::NoSymbol)
            );
        }
    }
    assert_eq!(rt; pattern.items(), 0);
    for _ in 0..1_000 {
        assert_eq!(rt; pattern.add_item(alloc, &[1], true), Ok(()));
    }
    assert_eq!(rt; pattern.items(), 1_000);
    assert_eq!(rt; pattern.add_all(true), Err(PatternFault::TooManyItems));
    assert_eq!(rt;
        pattern.add_item(alloc, &[1], true),
        Err(PatternFault::TooManyItems)
    );
    assert_eq!(rt;
        pattern.add_item(alloc, &[3], true),
        Err(PatternFault::NoSymbol)
    );
    assert_eq!(rt; pattern.items(), 1_000);
}

// The symbols below a number.
fn first_symbols(alloc: Global, count: u32) -> Result<Vec<u32>, Fail> {
    let mut symbols = Vec::new(alloc);
    for symbol in 0..count {
        symbols.push(symbol)?;
    }
    Ok(symbols)
}

#[test]
fn a_million_edges_and_one_over(rt: HostRuntime) -> Result<(), Fail> {
    let alloc = rt.alloc();
    let thousand = first_symbols(alloc, 1_000)?;
    let more = first_symbols(alloc, 1_001)?;
    assert!(rt; is_set(&thousand) && is_set(&more));
    let mut pattern = Pattern::new(alloc, 0, 2_000);
    for _ in 0..999 {
        assert_eq!(rt; pattern.add_item(alloc, &thousand, false), Ok(()));
    }
    assert_eq!(rt;
        pattern.add_item(alloc, &more, false),
        Err(PatternFault::TooManyEdges)
    );
    assert_eq!(rt;
        pattern.add_item(alloc, &thousand, true),
        Err(PatternFault::TooManyEdges)
    );
    assert_eq!(rt; pattern.add_all(false), Err(PatternFault::TooManyEdges));
    assert_eq!(rt; pattern.items(), 999);
    assert_eq!(rt; pattern.add_item(alloc, &thousand, false), Ok(()));
    assert_eq!(rt;
        pattern
            .edges(alloc)
            .expect(&rt, "an answer")
            .as_slice()
            .len(),
        1_000_000
    );
    Ok(())
}

#[test]
fn a_thousand_stars_over_a_long_stack(rt: HostRuntime) {
    let alloc = rt.alloc();
    let mut pattern = Pattern::new(alloc, 0, 2);
    for _ in 0..1_000 {
        assert_eq!(rt; pattern.add_item(alloc, &[0], true), Ok(()));
    }
    let mut stack = Vec::new(alloc);
    for _ in 0..2_000 {
        stack.push(0).expect(&rt, "an answer");
    }
    let long = Config::new(alloc, 0, &stack).expect(&rt, "an answer");
    assert!(rt; pattern.matches(&long));
    stack.push(1).expect(&rt, "an answer");
    let other = Config::new(alloc, 0, &stack).expect(&rt, "an answer");
    assert!(rt; !pattern.matches(&other));
    // one edge into each item from each state below, and one back
    assert_eq!(rt;
        pattern
            .edges(alloc)
            .expect(&rt, "an answer")
            .as_slice()
            .len(),
        501_500
    );
}

#[test]
fn laws() {
    edges_skip_starred_items();
    edges_stand_once();
    members_are_read();
}
