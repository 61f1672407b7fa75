use crate::return_maps::{Guarded, guarded_calls};
use crate::seats::{Seats, closed};
use cost_weights::Cost;
use poststar::{Post, post_opening};
use pushdown_rules::System;
use saturation_core::Book;
use saturation_laws::Direction;
use semiring_laws::Semiring;
use std::alloc::Global;
use std::test::Fail;
use tests_systems::{
    A, B, D, Items, calls_again, calls_itself, entry_at, pattern_over, pops, two_calls,
};
use weighted_automata::{Label, Place};

// A transition's place and its weight.
type Row = (Place, u64);

const fn over(from: u32, symbol: u32, to: u32) -> Place {
    Place {
        from,
        label: Label::Symbol(symbol),
        to,
    }
}

const fn skip(from: u32, to: u32) -> Place {
    Place {
        from,
        label: Label::Empty,
        to,
    }
}

// The first place at which a book has another weight, or none; where it has more places, the last of the rows.
fn wrong_place(book: &Book<'_, Cost, Post>, rows: &[Row]) -> Option<Place> {
    for (place, cost) in rows {
        let Some(entry) = entry_at(book, *place) else {
            return Some(*place);
        };
        if entry.weight != Some(*cost) {
            return Some(*place);
        }
    }
    match rows.last() {
        Some((place, _)) if book.transitions().len() != rows.len() as u64 => Some(*place),
        _ => None,
    }
}

// Saturates from the items at the first control by these seats, and finds the first place that is wrong.
fn first_wrong_by(
    alloc: Global,
    system: &System<Cost>,
    items: Items<'_>,
    rows: &[Row],
    seats: Seats,
) -> Result<Option<Place>, Fail> {
    let pattern = pattern_over(alloc, system, 0, items)?;
    let book = post_opening(alloc, system, &pattern)?;
    match closed(alloc, book, seats)? {
        Some(book) => Ok(wrong_place(&book, rows)),
        None => Err(Fail::new("the saturation does not end")),
    }
}

// Saturates from the items at the first control, by one seat and by two that take in turn, and finds the first place that
// is wrong.
fn first_wrong(
    alloc: Global,
    system: &System<Cost>,
    items: Items<'_>,
    rows: &[Row],
) -> Result<Option<Place>, Fail> {
    let by_one = first_wrong_by(alloc, system, items, rows, Seats::One)?;
    let by_two = first_wrong_by(alloc, system, items, rows, Seats::Two)?;
    Ok(by_one.or(by_two))
}

// From `p: a`, by state 1, each call costs 1 and leaves a b. The middle state is 2, and no call returns.
#[test]
fn a_call_stays_open(rt: HostRuntime) -> Result<(), Fail> {
    let alloc = rt.alloc();
    let system = calls_itself(alloc, Cost::new(100).expect(&rt, "an answer")).expect(
        &rt,
        "an answer",
    );
    let rows = [
        (over(0, 0, 1), 0),
        (over(0, 0, 2), 1),
        (over(2, 1, 1), 0),
        (over(2, 1, 2), 1),
    ];
    assert_eq!(rt; first_wrong(alloc, &system, &[A], &rows)?, None);
    Ok(())
}

// From `p: a b`, by the states 1 and 2, a is popped at 3 and then b at 4.
#[test]
fn pops_go_on_in_the_pattern(rt: HostRuntime) -> Result<(), Fail> {
    let alloc = rt.alloc();
    let system = pops(alloc, Cost::new(100).expect(&rt, "an answer")).expect(&rt, "an answer");
    let rows = [
        (over(0, 0, 1), 0),
        (over(1, 1, 2), 0),
        (skip(0, 1), 3),
        (over(0, 1, 2), 3),
        (skip(0, 2), 7),
    ];
    assert_eq!(rt; first_wrong(alloc, &system, &[A, B], &rows)?, None);
    Ok(())
}

// From `p: a`: a calls b, with the middle 2, at 1, and b returns at 2, so c is read at 3. It calls a at 4, with the middle
// 3, whose own call of b finds the return that is known. By one seat what waits for the first return is taken after it is
// known; by two seats before.
#[test]
fn a_return_is_found_by_each_caller(rt: HostRuntime) -> Result<(), Fail> {
    let alloc = rt.alloc();
    let system = calls_again(alloc, Cost::new(100).expect(&rt, "an answer")).expect(
        &rt,
        "an answer",
    );
    let rows = [
        (over(0, 0, 1), 0),
        (over(0, 1, 2), 1),
        (over(2, 2, 1), 0),
        (skip(0, 2), 3),
        (over(0, 2, 1), 3),
        (over(0, 0, 3), 4),
        (over(3, 2, 1), 3),
        (over(2, 2, 3), 4),
        (over(0, 2, 3), 7),
        (over(3, 2, 3), 7),
    ];
    assert_eq!(rt; first_wrong(alloc, &system, &[A], &rows)?, None);
    Ok(())
}

// From `p: a`, by state 2: a calls b at q, at 1 above c with the middle 3, and at 5 above d with the middle 4. Each call
// returns at 2 to what it left.
#[test]
fn one_head_has_two_calls(rt: HostRuntime) -> Result<(), Fail> {
    let alloc = rt.alloc();
    let system = two_calls(alloc, Cost::new(100).expect(&rt, "an answer")).expect(&rt, "an answer");
    let rows = [
        (over(0, 0, 2), 0),
        (over(1, 1, 3), 1),
        (over(1, 1, 4), 5),
        (over(3, 2, 2), 0),
        (over(4, 3, 2), 0),
        (skip(0, 3), 3),
        (skip(0, 4), 7),
        (over(0, 2, 2), 3),
        (over(0, 3, 2), 7),
    ];
    assert_eq!(rt; first_wrong(alloc, &system, &[A], &rows)?, None);
    Ok(())
}

// Whether a saturation has so many transitions, of which these are there and that one is not.
fn has_and_lacks<S: Semiring>(
    book: &Book<'_, S, Post>,
    count: u64,
    places: &[Place],
    lacks: Place,
) -> bool {
    for place in places {
        if entry_at(book, *place).is_none() {
            return false;
        }
    }
    book.transitions().len() == count && entry_at(book, lacks).is_none()
}

// Whether the saturation of guarded calls from the items at the first control ends, and has so many transitions, of which
// these are there and that one is not.
fn ends_with(
    alloc: Global,
    system: &System<Guarded>,
    items: Items<'_>,
    count: u64,
    places: &[Place],
    lacks: Place,
) -> Result<bool, Fail> {
    let pattern = pattern_over(alloc, system, 0, items)?;
    let book = post_opening(alloc, system, &pattern)?;
    match closed(alloc, book, Seats::One)? {
        Some(book) => Ok(has_and_lacks(&book, count, places, lacks)),
        None => Ok(false),
    }
}

// The calls have the middles 2 to 5. That of a, to 2, may not return: nothing goes on behind it. That of d, to 3, may, and
// then c is read and popped. The inner call to 4 may return, and the one to 5 may not.
#[test]
fn a_forbidden_return_is_not_found(rt: HostRuntime) -> Result<(), Fail> {
    let alloc = rt.alloc();
    let system: System<Guarded> = guarded_calls(alloc).expect(&rt, "an answer");
    let inner = [over(0, 1, 2), over(2, 2, 1), skip(0, 4), over(0, 2, 2)];
    assert!(rt; ends_with(alloc, &system, &[A], 15, &inner, skip(0, 2))?);
    let outer = [over(0, 1, 3), skip(0, 3), over(0, 2, 1), skip(0, 1)];
    assert!(rt; ends_with(alloc, &system, &[D], 18, &outer, skip(0, 5))?);
    Ok(())
}

// Whether a book has these edges and final states in its opening, of two items, and no more transitions, each with the
// empty run.
fn has_begun(book: &Book<'_, Cost, Post>, edges: &[Place], finals: &[u32]) -> bool {
    for edge in edges {
        if !entry_at(book, *edge).is_some_and(|entry| entry.weight == Some(0)) {
            return false;
        }
    }
    book.direction() == Post { items: 2 }
        && !Direction::<Cost>::same_way(&book.direction(), &Post { items: 1 })
        && book.opening().edges.as_slice() == edges
        && book.opening().finals.as_slice() == finals
        && book.transitions().len() == edges.len() as u64
        && book.graph().len() == 1
}

// Whether it begins so with the items at the first control.
fn begins_with(
    alloc: Global,
    system: &System<Cost>,
    items: Items<'_>,
    edges: &[Place],
    finals: &[u32],
) -> Result<bool, Fail> {
    let pattern = pattern_over(alloc, system, 0, items)?;
    let book = post_opening(alloc, system, &pattern)?;
    Ok(has_begun(&book, edges, finals))
}

// The opening of `p: a b` has its edges, each with the empty run, and two items.
#[test]
fn opens_forwards(rt: HostRuntime) -> Result<(), Fail> {
    let alloc = rt.alloc();
    let system = pops(alloc, Cost::new(100).expect(&rt, "an answer")).expect(&rt, "an answer");
    let edges = [over(0, 0, 1), over(1, 1, 2)];
    assert!(rt; begins_with(alloc, &system, &[A, B], &edges, &[2])?);
    Ok(())
}
