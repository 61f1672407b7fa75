ghost use Rattle.std.specs.Prelude.{All, IfOk};
ghost use Rattle.pattern_openings.specs.PatternOpenings.{IsOver};

use crate::answers::{Query, Row};
use config_patterns::Pattern;
use cost_weights::Cost;
use pushdown_rules::{RuleFault, System};
use query_answers::Values;
use std::alloc::Global;
use std::sync::Wait;
use std::test::Fail;
use std::thread::Threads;
use tests_systems::{A, B, C, D, Items, pattern_over};
use weight_tables::PlainWeigher;
use witness_graph::Side;
use wpds_base::OpenGate;

// The fifth symbol.
const E: (&[u32], bool) = (&[4], false);

// How many queries are asked at most.
const MOST: usize = 100;

// The same pattern so many times.
fn alike(
    alloc: Global,
    system: &System<Cost>,
    control: u32,
    items: Items<'_>,
    count: usize,
) -> Result<Vec<Pattern>, Fail>
    ensures { IfOk result (λ v.
        All (IsOver system.now.controls system.now.symbols) v.items) }
{
    let mut patterns = Vec::new(alloc);
    for _made in 0..count {
        patterns.push(pattern_over(alloc, system, control, items)?)?;
    }
    Ok(patterns)
}

// The cost of a query, by a direction: as one of so many that ask the same, by one worker or by two.
fn cost_among(
    rt: &(impl Threads + Wait + Sync + AllocGlobal),
    system: &System<Cost>,
    side: Side,
    two: bool,
    query: Query,
    queries: usize,
) -> Result<Option<u64>, Fail> {
    let (start, start_items, end, end_items) = query;
    let from = pattern_over(rt.alloc(), system, start, start_items)?;
    let tos = alike(rt.alloc(), system, end, end_items, queries)?;
    if tos.len() > MOST {
        return Err(Fail::new("too many queries"));
    }
    let weigher = PlainWeigher::new(rt.alloc(), system);
    let mut values = match two {
        false => Values::new(system, side, 1, weigher),
        true => Values::new(system, side, 2, weigher),
    };
    let costs = values.values_from(rt, rt.alloc(), &from, &tos, &OpenGate)?;
    match costs.last() {
        Some(cost) => Ok(*cost),
        None => Err(Fail::new("no value")),
    }
}

// The first row whose query has another cost: by one worker, who searches, alone or as one of many, and by two, who close a book, by
// both directions.
pub(crate) fn wrong_row(
    rt: &(impl Threads + Wait + Sync + AllocGlobal),
    system: &System<Cost>,
    rows: &[Row],
) -> Result<Option<usize>, Fail> {
    let ways = [
        (Side::Post, false, 1),
        (Side::Post, false, MOST),
        (Side::Pre, false, 1),
        (Side::Pre, false, MOST),
        (Side::Post, true, 1),
        (Side::Pre, true, 2),
    ];
    for (k, (query, cost)) in rows.iter().enumerate() {
        for (side, two, queries) in ways {
            if cost_among(rt, system, side, two, *query, queries)? != *cost {
                return Ok(Some(k));
            }
        }
    }
    Ok(None)
}

// Controls p and q, symbols a to e: p a -> p b c at 1, p c -> p b d at 10, p d -> p b a at 30, and the callee of all,
// p b -> q e at 2 and q e -> p at 4.
fn calls_alike(alloc: Global, cost: Cost) -> Result<System<Cost>, RuleFault> {
    let mut system = System::new(alloc, cost, 2, 5);
    system.add_rule(alloc, 0, 0, 0, &[1, 2], cost.number(1), None)?;
    system.add_rule(alloc, 0, 2, 0, &[1, 3], cost.number(10), None)?;
    system.add_rule(alloc, 0, 3, 0, &[1, 0], cost.number(30), None)?;
    system.add_rule(alloc, 0, 1, 1, &[4], cost.number(2), None)?;
    system.add_rule(alloc, 1, 4, 0, &[], cost.number(4), None)?;
    Ok(system)
}

// Controls p, q and r, symbols a to d: p a -> p b d at 10, and the callee that calls itself, p b -> p b c at 3 and
// p b -> q at 1. Behind each call it goes to the other of q and r: q c -> r at 5, and r c -> q at 7.
pub(crate) fn calls_deeper(alloc: Global, cost: Cost) -> Result<System<Cost>, RuleFault> {
    let mut system = System::new(alloc, cost, 3, 4);
    system.add_rule(alloc, 0, 0, 0, &[1, 3], cost.number(10), None)?;
    system.add_rule(alloc, 0, 1, 0, &[1, 2], cost.number(3), None)?;
    system.add_rule(alloc, 0, 1, 1, &[], cost.number(1), None)?;
    system.add_rule(alloc, 1, 2, 2, &[], cost.number(5), None)?;
    system.add_rule(alloc, 2, 2, 1, &[], cost.number(7), None)?;
    Ok(system)
}

// Controls p and q, symbols a to e: p a -> p b c at 1, p b -> p at 2, and p c -> p b d at 5. No run from p comes to q, and
// there is a callee that also calls b: q a -> q d c at 10, and q d -> p b e at 20.
fn calls_in_vain(alloc: Global, cost: Cost) -> Result<System<Cost>, RuleFault> {
    let mut system = System::new(alloc, cost, 2, 5);
    system.add_rule(alloc, 1, 0, 1, &[3, 2], cost.number(10), None)?;
    system.add_rule(alloc, 1, 3, 0, &[1, 4], cost.number(20), None)?;
    system.add_rule(alloc, 0, 0, 0, &[1, 2], cost.number(1), None)?;
    system.add_rule(alloc, 0, 1, 0, &[], cost.number(2), None)?;
    system.add_rule(alloc, 0, 2, 0, &[1, 3], cost.number(5), None)?;
    Ok(system)
}

#[test]
fn costs_where_many_call(rt: HostRuntime) -> Result<(), Fail> {
    let system = calls_alike(rt.alloc(), Cost::new(1000)?)?;
    let rows: [Row; 7] = [
        // a call at 1, and a callee at 2 and 4
        ((0, &[A], 0, &[C]), Some(7)),
        // and then a call at 10, and the same again
        ((0, &[A], 0, &[D]), Some(23)),
        // the second call and the third
        ((0, &[C], 0, &[A]), Some(52)),
        ((0, &[A], 0, &[A]), Some(0)),
        // nothing pops what the calls leave
        ((0, &[A], 0, &[]), None),
        // begun in the callee: it returns to the pattern's own symbol, and then a call
        ((0, &[B, C], 0, &[C]), Some(6)),
        ((0, &[B, C], 0, &[D]), Some(22)),
    ];
    assert_eq!(rt; wrong_row(&rt, &system, &rows)?, None);
    Ok(())
}

#[test]
fn costs_inside_a_callee(rt: HostRuntime) -> Result<(), Fail> {
    let system = calls_alike(rt.alloc(), Cost::new(1000)?)?;
    let rows: [Row; 7] = [
        // called, and not gone on from there
        ((0, &[A], 0, &[B, C]), Some(1)),
        // and a step
        ((0, &[A], 1, &[E, C]), Some(3)),
        // the first call, which returned at 7, and the second
        ((0, &[A], 0, &[B, D]), Some(17)),
        ((0, &[A], 1, &[E, D]), Some(19)),
        // the cheaper of the two
        ((0, &[A], 1, &[E, (&[2, 3], false)]), Some(3)),
        // no run has both below the callee, and none has nothing there
        ((0, &[A], 1, &[E, C, D]), None),
        ((0, &[A], 1, &[E]), None),
    ];
    assert_eq!(rt; wrong_row(&rt, &system, &rows)?, None);
    Ok(())
}

#[test]
fn costs_where_a_callee_calls_itself(rt: HostRuntime) -> Result<(), Fail> {
    let system = calls_deeper(rt.alloc(), Cost::new(1000)?)?;
    let rows: [Row; 7] = [
        // it returns at once to q, and to r once it has called itself: 10, and 3, 1 and 5
        ((0, &[A], 1, &[D]), Some(11)),
        ((0, &[A], 2, &[D]), Some(19)),
        ((0, &[A], 0, &[D]), None),
        // it has called itself once, and twice
        ((0, &[A], 0, &[B, C, D]), Some(13)),
        ((0, &[A], 0, &[B, C, C, D]), Some(16)),
        // twice, and back to q; and three times, and back to q and r
        ((0, &[A], 1, &[C, C, D]), Some(17)),
        ((0, &[A], 2, &[C, C, D]), Some(25)),
    ];
    assert_eq!(rt; wrong_row(&rt, &system, &rows)?, None);
    Ok(())
}

#[test]
fn costs_where_a_callee_is_never_entered(rt: HostRuntime) -> Result<(), Fail> {
    let system = calls_in_vain(rt.alloc(), Cost::new(1000)?)?;
    let rows: [Row; 9] = [
        ((0, &[A], 0, &[B, C]), Some(1)),
        ((0, &[A], 0, &[C]), Some(3)),
        ((0, &[A], 0, &[D]), Some(10)),
        // not at q, and so b does not return to e
        ((0, &[A], 1, &[D, C]), None),
        ((0, &[A], 0, &[B, E, C]), None),
        ((0, &[A], 0, &[E, C]), None),
        // begun at q: calls at 10 and at 20, and a return at 2
        ((1, &[A], 1, &[D, C]), Some(10)),
        ((1, &[A], 0, &[B, E, C]), Some(30)),
        ((1, &[A], 0, &[E, C]), Some(32)),
    ];
    assert_eq!(rt; wrong_row(&rt, &system, &rows)?, None);
    Ok(())
}
