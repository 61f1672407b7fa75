use crate::seats::{Seats, closed};
use cost_weights::Cost;
use prestar::pre_opening;
use pushdown_rules::System;
use saturation_core::Book;
use saturation_laws::Direction;
use semiring_laws::{Reach, Semiring};
use std::alloc::Global;
use std::test::Fail;
use tests_systems::{
    A, C, Items, Row, calls, entry_at, grows, has_rows, pattern_over, same_goals, steps,
};
use weighted_automata::{Label, Place};

// A target by its control and its items, and the transitions of its saturation.
type Target<'a> = (u32, Items<'a>, &'a [Row]);

// Whether the book has these transitions, each reached, and no others.
fn has_places<D: Direction<Reach>>(book: &Book<'_, Reach, D>, places: &[Place]) -> bool {
    if book.transitions().len() != places.len() as u64 {
        return false;
    }
    for place in places {
        if !entry_at(book, *place).is_some_and(|entry| entry.weight) {
            return false;
        }
    }
    true
}

// Saturates for a target by these seats, and compares the transitions.
fn saturates_by(
    alloc: Global,
    system: &System<Cost>,
    target: Target<'_>,
    seats: Seats,
) -> Result<bool, Fail> {
    let (control, items, rows) = target;
    let pattern = pattern_over(alloc, system, control, items)?;
    let book = pre_opening(alloc, system, &pattern)?;
    match closed(alloc, book, seats)? {
        Some(book) => Ok(has_rows(&book, rows)),
        None => Ok(false),
    }
}

// Saturates for a target, by one seat and by two, and compares the transitions.
fn saturates(alloc: Global, system: &System<Cost>, target: Target<'_>) -> Result<bool, Fail> {
    let by_one = saturates_by(alloc, system, target, Seats::One)?;
    let by_two = saturates_by(alloc, system, target, Seats::Two)?;
    Ok(by_one && by_two)
}

// Saturates for a target at q by these seats, and compares the transitions.
fn reaches_by(
    alloc: Global,
    system: &System<Reach>,
    items: Items<'_>,
    places: &[Place],
    seats: Seats,
) -> Result<bool, Fail> {
    let pattern = pattern_over(alloc, system, 1, items)?;
    let book = pre_opening(alloc, system, &pattern)?;
    match closed(alloc, book, seats)? {
        Some(book) => Ok(has_places(&book, places)),
        None => Ok(false),
    }
}

// Saturates for a target at q, by one seat and by two, and compares the transitions.
fn reaches(
    alloc: Global,
    system: &System<Reach>,
    items: Items<'_>,
    places: &[Place],
) -> Result<bool, Fail> {
    let by_one = reaches_by(alloc, system, items, places, Seats::One)?;
    let by_two = reaches_by(alloc, system, items, places, Seats::Two)?;
    Ok(by_one && by_two)
}

// For `q: a` the pop is met by the edge of the target, to state 2: 2 + 1, and then 0.
#[test]
fn a_call_returns(rt: HostRuntime) -> Result<(), Fail> {
    let alloc = rt.alloc();
    let system = calls(alloc, Cost::new(100).expect(&rt, "an answer")).expect(&rt, "an answer");
    let rows: &[Row] = &[(1, 0, 2, 0), (0, 1, 1, 1), (0, 0, 2, 3)];
    assert!(rt; saturates(alloc, &system, (1, &[A], rows))?);
    Ok(())
}

// What is found of growth for `p: a a a`.
const THREE_GROWN: &[Row] = &[
    (0, 0, 1, 0),
    (1, 0, 2, 0),
    (2, 0, 3, 0),
    (0, 0, 0, 0),
    (0, 0, 2, 1),
    (0, 0, 3, 2),
];

// For `p: a a a`, by the states 1, 2 and 3, a second symbol costs one push, and a third two. For `p:` popping costs
// nothing, and pushing first gains nothing.
#[test]
fn growth_costs(rt: HostRuntime) -> Result<(), Fail> {
    let alloc = rt.alloc();
    let system = grows(alloc, Cost::new(100).expect(&rt, "an answer")).expect(&rt, "an answer");
    assert!(rt; saturates(alloc, &system, (0, &[A, A, A], THREE_GROWN))?);
    assert!(rt; saturates(alloc, &system, (0, &[], &[(0, 0, 0, 0)]))?);
    Ok(())
}

// For `p: c` it is 3 from b, and 6 from a: 5 where the cap is 5.
#[test]
fn costs_are_cut(rt: HostRuntime) -> Result<(), Fail> {
    let alloc = rt.alloc();
    for (cap, cost) in [(5, 5u64), (100, 6)] {
        let system = steps(alloc, Cost::new(cap).expect(&rt, "an answer")).expect(&rt, "an answer");
        let rows: &[Row] = &[(0, 2, 1, 0), (0, 1, 1, 3), (0, 0, 1, cost)];
        assert!(rt; saturates(alloc, &system, (0, &[C], rows))?);
    }
    Ok(())
}

// For `p: c` one transition has five jobs: 5, 3 and 4 from a, of which the second lowers again what the
// first made and the third changes nothing, and 2 and 6 from b, between them.
#[test]
fn one_hand_lowers_a_place_again(rt: HostRuntime) -> Result<(), Fail> {
    let alloc = rt.alloc();
    let system = same_goals(alloc, Cost::new(100).expect(&rt, "an answer")).expect(
        &rt,
        "an answer",
    );
    let rows: &[Row] = &[(0, 2, 1, 0), (0, 0, 1, 3), (0, 1, 1, 2)];
    assert!(rt; saturates(alloc, &system, (0, &[C], rows))?);
    Ok(())
}

// p b -> q. For `q: a`, by state 2, nothing is found but the edge and the pop, so p a has no run there. For `q:` the pop
// alone is found.
#[test]
fn a_pop_is_reached(rt: HostRuntime) -> Result<(), Fail> {
    let alloc = rt.alloc();
    let mut system = System::new(alloc, Reach, 2, 2);
    system
        .add_rule(alloc, 0, 1, 1, &[], true, None)
        .expect(&rt, "an answer");
    let pop = Place {
        from: 0,
        label: Label::Symbol(1),
        to: 1,
    };
    let edge = Place {
        from: 1,
        label: Label::Symbol(0),
        to: 2,
    };
    assert!(rt; reaches(alloc, &system, &[A], &[edge, pop])?);
    assert!(rt; reaches(alloc, &system, &[], &[pop])?);
    Ok(())
}
