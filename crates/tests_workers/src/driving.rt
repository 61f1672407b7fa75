ghost use Rattle.std.specs.Prelude.{◌≡◌, ◌<◌, [], true, IfSome};
ghost use Rattle.std.specs.Option.{ForSome, IsSomeAnd};
ghost use Rattle.seat_lock.specs.Words.{mine, IsOf};
ghost use Rattle.worker_pool.specs.Events.{is_ended};
ghost use Rattle.tests_workers.specs.Parts.{IsSamePass};

use cost_weights::Cost;
use prestar::{Pre, pre_opening};
use pushdown_rules::System;
use saturation_core::Book;
use seat_lock::{Journaled, Pass, SeatLock};
use std::alloc::Global;
use std::sync::Wait;
use std::test::Fail;
use std::thread::{Threads, join_mut};
use tests_systems::{MeetingGate, SOME_A, grows, pattern_over};
use worker_pool::{DriveEnd, Shared, drive};

// A pass of a lock, and whether its worker has found the book closed. One value, so that a closure names the book's lifetime once.
#[derive(Drop)]
struct Part<'l, T: Journaled> {
    lock: &'l SeatLock<T>,
    pass: Option<Pass<T>>,
    closed: bool,
    ghost of: { ForSome pass (λ p. IsOf p lock.now) },
}

// Drives with the pass of a part.
fn run<'s, H: Wait>(
    rt: &H,
    alloc: Global,
    gate: &MeetingGate,
    part: &mut Part<'_, Shared<'s, Cost, Pre>>,
)
    requires ended { IfSome part.old.pass (λ p. is_ended (mine p) ≡ true) }
    ensures ran { IfSome part.old.pass (λ p. IsSomeAnd part.new.pass (IsSamePass p)) }
{
    let Some(pass) = part.pass.take() else {
        return;
    };
    let driven = drive(rt, alloc, part.lock, pass, gate);
    part.closed = driven.end == DriveEnd::Closed;
    part.pass = Some(driven.pass);
}

// Drives with the passes of two parts, each in a thread of its own.
fn run_both<'s, H: Threads + Wait + Sync>(
    rt: &H,
    alloc: Global,
    gate: &MeetingGate,
    zero: &mut Part<'_, Shared<'s, Cost, Pre>>,
    one: &mut Part<'_, Shared<'s, Cost, Pre>>,
)
    requires zero { IfSome zero.old.pass (λ p. is_ended (mine p) ≡ true) }
    requires one { IfSome one.old.pass (λ p. is_ended (mine p) ≡ true) }
    ensures zero { IfSome zero.old.pass (λ p. IsSomeAnd zero.new.pass (IsSamePass p)) }
    ensures one { IfSome one.old.pass (λ p. IsSomeAnd one.new.pass (IsSamePass p)) }
{
    join_mut(
        rt,
        &mut || run(rt, alloc, gate, zero),
        &mut || run(rt, alloc, gate, one),
    );
}

// Splits a pass that has done nothing yet, drives with both on two threads, and joins them, if both workers have found the book
// closed.
fn drive_by_two<'s, H: Threads + Wait + Sync>(
    rt: &H,
    alloc: Global,
    lock: &SeatLock<Shared<'s, Cost, Pre>>,
    pass: Pass<Shared<'s, Cost, Pre>>,
    gate: &MeetingGate,
) -> Option<Pass<Shared<'s, Cost, Pre>>>
    requires lock { IsOf pass lock.now }
    requires first { (pass.number ≡ 0) × (0 < pass.left) }
    requires fresh { mine pass ≡ [] }
    ensures { IfSome result (λ p. IsOf p lock.now × (p.number ≡ 0)) }
{
    let (zero, one) = lock.split(pass);
    let mut zero = Part {
        lock,
        pass: Some(zero),
        closed: false,
    };
    let mut one = Part {
        lock,
        pass: Some(one),
        closed: false,
    };
    run_both(rt, alloc, gate, &mut zero, &mut one);
    if !zero.closed || !one.closed {
        return None;
    }
    match (zero.pass.take(), one.pass.take()) {
        (Some(zero), Some(one)) => Some(lock.join(zero, one)),
        _ => None,
    }
}

// A book, put into a lock for two seats, after two threads have driven it there, if both workers have found it closed.
fn driven_by_two<'s, H: Threads + Wait + Sync>(
    rt: &H,
    alloc: Global,
    book: Book<'s, Cost, Pre>,
    gate: &MeetingGate,
) -> Option<Book<'s, Cost, Pre>>
    requires { book.journal ≡ [] }
{
    let Ok((lock, pass)) = SeatLock::new(alloc, Shared { book }, 2) else {
        return None;
    };
    let Some(pass) = drive_by_two(rt, alloc, &lock, pass, gate) else {
        return None;
    };
    match lock.close(pass) {
        Ok(shared) => Some(shared.book),
        Err(_) => None,
    }
}

// How often each of two workers on threads of the test's own takes of growth, by seats. None unless both find the book closed, and
// it is.
fn takes_by_two(
    rt: &(impl Threads + Wait + Sync),
    alloc: Global,
    system: &System<Cost>,
    gate: &MeetingGate,
) -> Result<Option<[u128; 2]>, Fail> {
    let pattern = pattern_over(alloc, system, 0, &[SOME_A])?;
    let opened = pre_opening(alloc, system, &pattern)?;
    let Some(book) = driven_by_two(rt, alloc, opened, gate) else {
        return Ok(None);
    };
    if !book.is_closed() {
        return Ok(None);
    }
    Ok(Some([book.takes_of(0), book.takes_of(1)]))
}

// Two workers on threads of the test's own have hands at once, each with a pass of the lock under which the book lies. Both find the
// book closed, and for each seat the gate is called as often as the seat takes.
#[test]
fn two_hands_out_of_a_lock(rt: HostRuntime) -> Result<(), Fail> {
    let alloc = rt.alloc();
    let system = grows(alloc, Cost::new(100)?)?;
    let gate = MeetingGate::new();
    let takes = takes_by_two(&rt, alloc, &system, &gate)?;
    assert!(rt; gate.have_met());
    let calls = [gate.calls_of(0) as u128, gate.calls_of(1) as u128];
    assert_eq!(rt; Some(calls), takes);
    Ok(())
}
