//! Two seats of a scheduler of the test's own, in a fixed order and without threads. What was taken is settled by the law, and the
//! book is not asked whether it holds it.
ghost use Rattle.std.specs.Prelude.{◌≡◌, IfOk, IfSome, OnOk};
ghost use Rattle.tests_workers.specs.Seats.{IsOutOf, KeepsOthers};

use cost_weights::Cost;
use prestar::pre_opening;
use pushdown_rules::System;
use saturation_core::{Book, Done, Taken, hands_out_tell, hands_stay_out};
use saturation_laws::Direction;
use semiring_laws::Semiring;
use std::alloc::Global;
use std::test::Fail;
use tests_systems::{A, C, Items, Row, calls_again, grows, has_rows, pattern_over};
use weighted_automata::Label;
use worker_pool::saturate_alone;
use wpds_base::{OpenGate, OutOfMemory};

// Lets a seat take that has no hand, and works its hand out.
fn work<'s, S: Semiring, D: Direction<S>>(
    alloc: Global,
    book: &mut Book<'s, S, D>,
    seat: u32,
) -> Result<Option<Done<'s, S, D>>, OutOfMemory>
    ensures out { IfOk result
        (λ o. IfSome o (λ d. (d.seat ≡ seat) × IsOutOf S.operations D.way book.new d)) }
    ensures others { OnOk result (KeepsOthers S.operations D.way seat book.old book.new) }
{
    hands_stay_out::<S, D>();
    if seat >= 64 || book.has_hand(seat) {
        return Ok(None);
    }
    let (system, direction) = (book.system(), book.direction());
    let Taken::Hand(hand) = book.take(alloc, seat)? else {
        return Ok(None);
    };
    match hand.work(alloc, system, &direction) {
        Ok(done) => Ok(Some(done)),
        Err(_) => Err(OutOfMemory),
    }
}

// Settles a hand that was worked out.
fn settle<'s, S: Semiring, D: Direction<S>>(
    alloc: Global,
    book: &mut Book<'s, S, D>,
    done: Done<'s, S, D>,
) -> Result<(), OutOfMemory>
    requires { IsOutOf S.operations D.way book.old done }
    ensures { OnOk result (KeepsOthers S.operations D.way done.entry.seat book.old book.new) }
{
    hands_out_tell::<S, D>();
    hands_stay_out::<S, D>();
    book.system();
    match book.settle(alloc, done) {
        Ok(_) => Ok(()),
        Err(_) => Err(OutOfMemory),
    }
}

// Lets a seat take, if something waits, and settles that.
fn turn<'s, S: Semiring, D: Direction<S>>(
    alloc: Global,
    book: &mut Book<'s, S, D>,
    seat: u32,
) -> Result<(), OutOfMemory>
    ensures { OnOk result (KeepsOthers S.operations D.way seat book.old book.new) }
{
    match work(alloc, book, seat)? {
        Some(done) => settle(alloc, book, done),
        None => Ok(()),
    }
}

// Seat 0 takes, and then seat 1, if something waits; seat 1 settles first. Says whether there was something to take.
fn round<S: Semiring, D: Direction<S>>(
    alloc: Global,
    book: &mut Book<'_, S, D>,
) -> Result<bool, OutOfMemory> {
    let Some(first) = work(alloc, book, 0)? else {
        return Ok(false);
    };
    turn(alloc, book, 1)?;
    settle(alloc, book, first)?;
    Ok(true)
}

// Goes on until nothing is queued, and says whether the book is closed then.
fn close_by_two<S: Semiring, D: Direction<S>>(
    alloc: Global,
    book: &mut Book<'_, S, D>,
) -> Result<bool, OutOfMemory> {
    for _ in 0..100u32 {
        if !round(alloc, book)? {
            return Ok(book.is_closed());
        }
    }
    Ok(false)
}

// The transitions of a book.
fn rows_of<D: Direction<Cost>>(
    alloc: Global,
    book: &Book<'_, Cost, D>,
) -> Result<Vec<Row>, OutOfMemory> {
    let transitions = book.transitions();
    let mut rows = Vec::new(alloc);
    for k in 0..transitions.len() {
        let entry = transitions.entry(k);
        if let (Label::Symbol(symbol), Some(cost)) = (entry.place.label, entry.weight) {
            rows.push((entry.place.from, symbol, entry.place.to, cost))?;
        }
    }
    Ok(rows)
}

// What one worker finds backwards from the items, at the first control.
fn rows_by_one(alloc: Global, system: &System<Cost>, items: Items<'_>) -> Result<Vec<Row>, Fail> {
    let pattern = pattern_over(alloc, system, 0, items)?;
    let opened = pre_opening(alloc, system, &pattern)?;
    let book = saturate_alone(alloc, opened, &OpenGate)?;
    Ok(rows_of(alloc, &book)?)
}

// Whether two seats close the book, both take, and find these rows and no others.
fn two_find(
    alloc: Global,
    system: &System<Cost>,
    items: Items<'_>,
    rows: &[Row],
) -> Result<bool, Fail> {
    let pattern = pattern_over(alloc, system, 0, items)?;
    let mut book = pre_opening(alloc, system, &pattern)?;
    let closed = close_by_two(alloc, &mut book)?;
    Ok(closed && book.takes_of(1) > 0 && has_rows(&book, rows))
}

// Whether two seats find what one worker finds.
fn two_find_the_same(alloc: Global, system: &System<Cost>, items: Items<'_>) -> Result<bool, Fail> {
    let rows = rows_by_one(alloc, system, items)?;
    two_find(alloc, system, items, &rows)
}

// With two hands out, the one that was taken last is settled first, and both by the law; it changes what the other has seen at its
// goals. What is found in the end is what one worker finds, who has one hand at a time.
#[test]
fn growth_is_settled_the_other_way_round(rt: HostRuntime) -> Result<(), Fail> {
    let alloc = rt.alloc();
    let system = grows(alloc, Cost::new(100)?)?;
    assert!(rt; two_find_the_same(alloc, &system, &[A, A, A])?);
    Ok(())
}

// The same of calls.
#[test]
fn calls_are_settled_the_other_way_round(rt: HostRuntime) -> Result<(), Fail> {
    let alloc = rt.alloc();
    let system = calls_again(alloc, Cost::new(100)?)?;
    assert!(rt; two_find_the_same(alloc, &system, &[C])?);
    Ok(())
}
