use cost_weights::Cost;
use path_sum::Answer;
use pushdown_rules::System;
use query_answers::answer;
use semiring_laws::{Reach, Semiring};
use std::sync::Wait;
use std::test::Fail;
use std::thread::Threads;
use tests_systems::{
    A, B, C, Items, SOME_A, calls, grows, one_step, pattern_over, ruleless, steps,
};
use witness_graph::{Listing, Node, Side};
use wpds_base::OpenGate;

// A query: a control and items to start from, a control and items to end in.
pub(crate) type Query = (u32, Items<'static>, u32, Items<'static>);

// A query with the cost of its answer.
pub(crate) type Row = (Query, Option<u64>);

// The answer to a query between controls of the system, by a direction.
fn answer_to<S: Semiring<W: Send + Sync, Ret: Send + Sync> + Send + Sync>(
    rt: &(impl Threads + Wait + Sync + AllocGlobal),
    system: &System<S>,
    side: Side,
    query: Query,
) -> Result<Answer<S>, Fail> {
    let (start, start_items, end, end_items) = query;
    let from = pattern_over(rt.alloc(), system, start, start_items)?;
    let to = pattern_over(rt.alloc(), system, end, end_items)?;
    let found = match side {
        Side::Pre => answer(rt, rt.alloc(), system, Side::Pre, 1, &from, &to, &OpenGate)?,
        Side::Post => answer(rt, rt.alloc(), system, Side::Post, 1, &from, &to, &OpenGate)?,
    };
    Ok(found)
}

// The value of the answer to a query, asked of any semiring.
fn value_of<S: Semiring<W: Send + Sync, Ret: Send + Sync> + Send + Sync>(
    rt: &(impl Threads + Wait + Sync + AllocGlobal),
    system: &System<S>,
    side: Side,
    query: Query,
) -> Result<S::W, Fail> {
    let Answer { value, listing: _ } = answer_to(rt, system, side, query)?;
    Ok(value)
}

// The first row whose query has another cost, backwards or forwards.
fn wrong_row(
    rt: &(impl Threads + Wait + Sync + AllocGlobal),
    system: &System<Cost>,
    rows: &[Row],
) -> Result<Option<usize>, Fail> {
    for (k, (query, cost)) in rows.iter().enumerate() {
        for side in [Side::Pre, Side::Post] {
            if value_of(rt, system, side, *query)? != *cost {
                return Ok(Some(k));
            }
        }
    }
    Ok(None)
}

#[test]
fn costs_of_calls(rt: HostRuntime) -> Result<(), Fail> {
    let alloc = rt.alloc();
    let system = calls(alloc, Cost::new(100).expect(&rt, "an answer")).expect(&rt, "an answer");
    let rows: [Row; 6] = [
        // a call at 2 that returns at 1
        ((0, &[A], 1, &[A]), Some(3)),
        // the empty run
        ((0, &[A], 0, &[A]), Some(0)),
        ((0, &[], 0, &[]), Some(0)),
        // no rule leads from q
        ((1, &[A], 0, &[A]), None),
        // the cheaper of two members: b returns at 1, and a calls first
        ((0, &[(&[0, 1], false)], 1, &[SOME_A]), Some(1)),
        // a called, and then a under it
        ((0, &[A, A], 1, &[A, SOME_A]), Some(3)),
    ];
    assert_eq!(rt; wrong_row(&rt, &system, &rows)?, None);
    Ok(())
}

#[test]
fn costs_of_growth(rt: HostRuntime) -> Result<(), Fail> {
    let alloc = rt.alloc();
    let system = grows(alloc, Cost::new(100).expect(&rt, "an answer")).expect(&rt, "an answer");
    let rows: [Row; 4] = [
        // two symbols more, at 1 each
        ((0, &[A], 0, &[A, A, A]), Some(2)),
        ((0, &[A], 0, &[]), Some(0)),
        ((0, &[A, SOME_A], 0, &[SOME_A]), Some(0)),
        ((0, &[A], 0, &[A, A, A, SOME_A]), Some(2)),
    ];
    assert_eq!(rt; wrong_row(&rt, &system, &rows)?, None);
    Ok(())
}

#[test]
fn costs_at_the_cap(rt: HostRuntime) -> Result<(), Fail> {
    let alloc = rt.alloc();
    // 3 and 3, cut at the cap
    for (cap, cost) in [(5, 5u64), (6, 6), (100, 6)] {
        let system = steps(alloc, Cost::new(cap).expect(&rt, "an answer")).expect(&rt, "an answer");
        let rows: [Row; 1] = [((0, &[A], 0, &[C]), Some(cost))];
        assert_eq!(rt; wrong_row(&rt, &system, &rows)?, None, "up to {cap}");
    }
    Ok(())
}

// Nothing is to be saturated: there is no rule.
#[test]
fn costs_without_rules(rt: HostRuntime) -> Result<(), Fail> {
    let system = ruleless(rt.alloc(), Cost::new(100).expect(&rt, "an answer"));
    let rows: [Row; 6] = [
        ((0, &[], 0, &[]), Some(0)),
        ((0, &[A], 0, &[]), None),
        ((0, &[], 0, &[A]), None),
        ((0, &[A], 0, &[A]), Some(0)),
        ((0, &[A], 0, &[B]), None),
        ((0, &[SOME_A], 0, &[]), Some(0)),
    ];
    assert_eq!(rt; wrong_row(&rt, &system, &rows)?, None);
    Ok(())
}

// Next to nothing: by a step rule alone, or towards an empty stack, whose opening has no transition.
#[test]
fn costs_by_one_step(rt: HostRuntime) -> Result<(), Fail> {
    let cost = Cost::new(100).expect(&rt, "an answer");
    let system = one_step(rt.alloc(), cost).expect(&rt, "an answer");
    let rows: [Row; 6] = [
        ((0, &[], 0, &[]), Some(0)),
        ((0, &[A], 0, &[]), None),
        ((0, &[A], 0, &[A]), Some(0)),
        ((0, &[A], 0, &[B]), Some(3)),
        ((0, &[B], 0, &[A]), None),
        ((0, &[A, A], 0, &[B, SOME_A]), Some(3)),
    ];
    assert_eq!(rt; wrong_row(&rt, &system, &rows)?, None);
    Ok(())
}

// The digits of the rules that a listing's nodes name, in order, each one more than its number.
fn rule_digits(listing: &Listing) -> u64 {
    let mut digits = 0u64;
    for node in listing.nodes.as_slice() {
        if let Node::Lower { rule: Some(k), .. } = *node {
            digits = digits.saturating_mul(10).saturating_add(k as u64 + 1);
        }
    }
    digits
}

#[test]
fn the_run_is_listed(rt: HostRuntime) -> Result<(), Fail> {
    let alloc = rt.alloc();
    let system = calls(alloc, Cost::new(100)?)?;
    // backwards the return is listed before the call that needs it, and forwards the call before its return
    for (side, digits) in [(Side::Pre, 21), (Side::Post, 12)] {
        let found = answer_to(&rt, &system, side, (0, &[A], 1, &[A]))?;
        let Some(listing) = found.listing else {
            return Err(Fail::new("nothing is listed"));
        };
        assert_eq!(rt; listing.side, side);
        assert_eq!(rt; rule_digits(&listing), digits);
    }
    Ok(())
}

#[test]
fn reached_or_not(rt: HostRuntime) -> Result<(), Fail> {
    let alloc = rt.alloc();
    let mut system = System::new(alloc, Reach, 2, 2);
    system
        .add_rule(alloc, 0, 1, 1, &[], true, None)
        .expect(&rt, "an answer");
    for side in [Side::Pre, Side::Post] {
        assert!(rt; !value_of(&rt, &system, side, (0, &[A], 1, &[A]))?);
        assert!(rt; value_of(&rt, &system, side, (0, &[B], 1, &[]))?);
    }
    Ok(())
}
