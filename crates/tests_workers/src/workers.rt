use crate::short::Short;
use cost_weights::Cost;
use prestar::{Pre, pre_opening};
use pushdown_rules::{RuleFault, System};
use saturation_core::Book;
use std::alloc::Global;
use std::sync::Wait;
use std::test::Fail;
use std::thread::Threads;
use tests_systems::{
    A, C, CountingGate, Items, MeetingGate, RelayGate, Row, SOME_A, grows, has_rows, pattern_over,
};
use worker_pool::saturate;
use wpds_base::{Gate, OpenGate};

// The book backwards from the items, at the first control, that so many workers close.
fn closed_by<'s, G: Gate>(
    rt: &(impl Threads + Wait + Sync),
    alloc: Global,
    system: &'s System<Cost>,
    items: Items<'_>,
    workers: u32,
    gate: &G,
) -> Result<Book<'s, Cost, Pre>, Fail> {
    if workers < 1 || workers > 64 {
        return Err(Fail::new("there are 1 to 64 workers"));
    }
    let pattern = pattern_over(alloc, system, 0, items)?;
    let opened = pre_opening(alloc, system, &pattern)?;
    let book = saturate(rt, alloc, opened, workers, gate)?;
    if !book.is_closed() {
        return Err(Fail::new("the book is not closed"));
    }
    Ok(book)
}

// What is found of growth for `p: a a a`.
const THREE_GROWN: &[Row] = &[
    (0, 0, 1, 0),
    (1, 0, 2, 0),
    (2, 0, 3, 0),
    (0, 0, 0, 0),
    (0, 0, 2, 1),
    (0, 0, 3, 2),
];

// How often two workers take, by seats.
fn takes_by_two(
    rt: &(impl Threads + Wait + Sync),
    alloc: Global,
    system: &System<Cost>,
    gate: &MeetingGate,
) -> Result<[u128; 2], Fail> {
    let book = closed_by(rt, alloc, system, &[SOME_A], 2, gate)?;
    Ok([book.takes_of(0), book.takes_of(1)])
}

// Two workers have hands at once, and for each seat the gate is called as often as the seat takes.
#[test]
fn two_hands_out(rt: HostRuntime) -> Result<(), Fail> {
    let alloc = rt.alloc();
    let system = grows(alloc, Cost::new(100)?)?;
    let gate = MeetingGate::new();
    let takes = takes_by_two(&rt, alloc, &system, &gate)?;
    assert!(rt; gate.have_met());
    assert_eq!(rt; [gate.calls_of(0) as u128, gate.calls_of(1) as u128], takes);
    Ok(())
}

// By how many workers, which of the first 800 calls are held, and how many that are. Where each is held two workers alternate, and
// never want the lock at once. In between the others they do, so that some sleep at its door when one goes off to be held.
const RELAYS: [(u32, u64, u64); 6] = [
    (2, 1, 800),
    (2, 2, 400),
    (2, 3, 267),
    (2, 5, 160),
    (8, 2, 400),
    (8, 5, 160),
];

// How many callers of a gate that holds them are relieved. None if one of them was held in vain.
fn relays(
    rt: &(impl Threads + Wait + Sync),
    alloc: Global,
    system: &System<Cost>,
    workers: u32,
    every: u64,
) -> Result<Option<u64>, Fail> {
    let gate = RelayGate::new(every, 800);
    closed_by(rt, alloc, system, &[SOME_A; 40], workers, &gate)?;
    if gate.has_held_in_vain() {
        return Ok(None);
    }
    Ok(Some(gate.relays()))
}

// A worker that the gate keeps with its hand until another one calls is not kept in vain: as long as something waits, another one
// comes. The pattern has 860 edges, and all of them wait at first, so that until the gate was called 800 times there is always one.
#[test]
fn no_worker_is_kept_in_vain(rt: HostRuntime) -> Result<(), Fail> {
    let alloc = rt.alloc();
    let system = grows(alloc, Cost::new(100)?)?;
    for (workers, every, count) in RELAYS {
        let relieved = relays(&rt, alloc, &system, workers, every)?;
        assert_eq!(rt; relieved, Some(count), "by {workers} at {every}");
    }
    Ok(())
}

// How often one worker takes, and how often of that by seat 0.
fn takes_by_one(
    rt: &(impl Threads + Wait + Sync),
    alloc: Global,
    system: &System<Cost>,
    gate: &CountingGate,
) -> Result<(u128, u128), Fail> {
    let book = closed_by(rt, alloc, system, &[A], 1, gate)?;
    Ok((book.takes(), book.takes_of(0)))
}

// One worker calls the gate too, by seat 0.
#[test]
fn one_worker_calls_the_gate(rt: HostRuntime) -> Result<(), Fail> {
    let alloc = rt.alloc();
    let system = grows(alloc, Cost::new(100)?)?;
    let gate = CountingGate::new();
    let (takes, by_zero) = takes_by_one(&rt, alloc, &system, &gate)?;
    assert!(rt; takes > 0);
    assert_eq!(rt; by_zero, takes);
    assert_eq!(rt; gate.calls() as u128, takes);
    Ok(())
}

// Whether so many workers find of growth what is to be found.
fn find_growth(
    rt: &(impl Threads + Wait + Sync),
    alloc: Global,
    system: &System<Cost>,
    workers: u32,
) -> Result<bool, Fail> {
    let book = closed_by(rt, alloc, system, &[A, A, A], workers, &OpenGate)?;
    Ok(has_rows(&book, THREE_GROWN))
}

// However many workers there are, the same transitions have the same weights.
#[test]
fn each_count_of_workers_finds_the_same(rt: HostRuntime) -> Result<(), Fail> {
    let alloc = rt.alloc();
    let system = grows(alloc, Cost::new(100)?)?;
    for workers in [1, 2, 8, 64u32] {
        assert!(rt; find_growth(&rt, alloc, &system, workers)?, "by {workers}");
    }
    Ok(())
}

// Control p, symbols a, b and c: p a -> p b, and p b -> p c. For `p: c` three transitions are taken, of which two give a job.
fn short_steps(alloc: Global) -> Result<System<Short>, RuleFault> {
    let mut system = System::new(alloc, Short::new(), 1, 3);
    system.add_rule(alloc, 0, 0, 0, &[1], true, None)?;
    system.add_rule(alloc, 0, 1, 0, &[2], true, None)?;
    Ok(system)
}

// The first of these calls of `extend` and of `combine` that is refused: in the first hand or the second, while it is worked out
// or while it is settled.
const REFUSED: [(u64, u64); 4] = [(1, 0), (2, 0), (0, 1), (0, 2)];

// The book for `p: c` that so many workers close, where from such calls on so many are refused. None where it is not closed.
fn closed_short<'s, G: Gate>(
    rt: &(impl Threads + Wait + Sync),
    alloc: Global,
    system: &'s System<Short>,
    refused: (u64, u64),
    refusals: u64,
    workers: u32,
    gate: &G,
) -> Result<Option<Book<'s, Short, Pre>>, Fail> {
    if workers < 1 || workers > 64 {
        return Err(Fail::new("there are 1 to 64 workers"));
    }
    let pattern = pattern_over(alloc, system, 0, &[C])?;
    let opened = pre_opening(alloc, system, &pattern)?;
    system.semiring().refuse(refused.0, refused.1, refusals);
    Ok(saturate(rt, alloc, opened, workers, gate).ok())
}

// How often the workers take, how often of that by the first two seats, how often they call the gate, and how many transitions
// there are, where one of two workers is refused memory. None where they do not close the book.
fn counts_of_two(
    rt: &(impl Threads + Wait + Sync),
    alloc: Global,
    system: &System<Short>,
    refused: (u64, u64),
) -> Result<Option<[u128; 4]>, Fail> {
    let gate = CountingGate::new();
    let Some(book) = closed_short(rt, alloc, system, refused, 1, 2, &gate)? else {
        return Ok(None);
    };
    if !book.is_closed() {
        return Ok(None);
    }
    Ok(Some([
        book.takes(),
        book.takes_of(0).saturating_add(book.takes_of(1)),
        gate.calls() as u128,
        book.transitions().len() as u128,
    ]))
}

// The worker that finds no memory gives its hand back and ends, and the other one closes the book.
#[test]
fn one_of_two_finds_no_memory(rt: HostRuntime) -> Result<(), Fail> {
    let alloc = rt.alloc();
    for refused in REFUSED {
        let system = short_steps(alloc)?;
        let counts = counts_of_two(&rt, alloc, &system, refused)?;
        assert_eq!(rt; counts, Some([4, 4, 4, 3]), "at {refused:?}");
    }
    Ok(())
}

// Whether so many workers close the book, where each is refused memory.
fn close_without_memory(
    rt: &(impl Threads + Wait + Sync),
    alloc: Global,
    system: &System<Short>,
    refused: (u64, u64),
    workers: u32,
) -> Result<bool, Fail> {
    let gate = CountingGate::new();
    let refusals = workers as u64;
    Ok(closed_short(rt, alloc, system, refused, refusals, workers, &gate)?.is_some())
}

// Where each worker has ended for want of memory, that is the answer: with two workers at the second refusal, and with one at
// the first.
#[test]
fn no_worker_finds_memory(rt: HostRuntime) -> Result<(), Fail> {
    let alloc = rt.alloc();
    for refused in REFUSED {
        for workers in 1..3u32 {
            let system = short_steps(alloc)?;
            let closed = close_without_memory(&rt, alloc, &system, refused, workers)?;
            assert!(rt; !closed, "by {workers} at {refused:?}");
        }
    }
    Ok(())
}
