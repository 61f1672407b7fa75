ghost use Rattle.std.specs.Prelude.{IsTrue, All};
ghost use Rattle.cost_weights.specs.Cost.{cost_operations};
ghost use Rattle.saturation_laws.specs.Jobs.{row_of, InputsFit};
ghost use Rattle.prestar_laws.specs.Rows.{pre_rows};

use cost_weights::Cost;
use prestar::{Pre, pre_opening};
use pushdown_rules::System;
use saturation_core::{Book, Taken};
use saturation_laws::{Direction, Input, Job, JobKind};
use semiring_laws::Semiring;
use std::alloc::Global;
use std::test::Fail;
use tests_systems::{A, Items, grows, pattern_over};
use weighted_automata::{Label, Place};
use wpds_base::OutOfMemory;

// Over the symbol a.
fn arrow(from: u32, to: u32) -> Place {
    Place {
        from,
        label: Label::Symbol(0),
        to,
    }
}

// Whether these are the first transitions, in order.
fn are_in_order(book: &Book<'_, Cost, Pre>, places: &[Place]) -> bool {
    for (k, place) in places.iter().enumerate() {
        if book.transitions().find(*place) != Some(k as u64) {
            return false;
        }
    }
    true
}

// What a book begins with: edges and final states, and then these transitions and so many nodes.
#[derive(Clone, Copy, Drop)]
struct Begun<'a> {
    edges: &'a [Place],
    finals: &'a [u32],
    places: &'a [Place],
    nodes: u64,
}

// Whether a book has begun so.
fn has_begun(book: &Book<'_, Cost, Pre>, begun: &Begun<'_>) -> bool {
    book.opening().edges.as_slice() == begun.edges
        && book.opening().finals.as_slice() == begun.finals
        && book.transitions().len() == begun.places.len() as u64
        && are_in_order(book, begun.places)
        && book.graph().len() == begun.nodes
}

// Whether it begins so with the items at the first control.
fn begins_so(
    alloc: Global,
    system: &System<Cost>,
    items: Items<'_>,
    begun: &Begun<'_>,
) -> Result<bool, Fail> {
    let pattern = pattern_over(alloc, system, 0, items)?;
    let book = pre_opening(alloc, system, &pattern)?;
    Ok(has_begun(&book, begun))
}

// The opening reads `p: a a a` by way of the states 1, 2 and 3. The pop rule adds a transition from p to p. The nodes are
// that of the empty run and the pop rule's.
#[test]
fn opens_a_pattern(rt: HostRuntime) -> Result<(), Fail> {
    let alloc = rt.alloc();
    let system = grows(alloc, Cost::new(100).expect(&rt, "an answer")).expect(&rt, "an answer");
    let begun = Begun {
        edges: &[arrow(0, 1), arrow(1, 2), arrow(2, 3)],
        finals: &[3],
        places: &[arrow(0, 1), arrow(1, 2), arrow(2, 3), arrow(0, 0)],
        nodes: 2,
    };
    assert!(rt; begins_so(alloc, &system, &[A, A, A], &begun)?);
    Ok(())
}

fn is_input<S: Semiring>(input: &Option<Input<S>>, place: Place) -> bool {
    match input {
        Some(t) => t.place.is(place),
        None => false,
    }
}

// A job's kind, its inputs' places, its goal, and what it is worth.
type Line = (JobKind, Place, Place, Place, u64);

// The job of the push rule that a line describes.
fn is_line(job: &Job<Cost>, line: Line) -> bool {
    let (kind, first, second, goal, _) = line;
    job.kind == kind
        && job.rule == Some(0)
        && is_input(&job.first, first)
        && is_input(&job.second, second)
        && job.goal.is(goal)
}

// Whether these are the jobs of the lines, in order, and are worth what they say.
fn are_lines(
    alloc: Global,
    system: &System<Cost>,
    jobs: &[Job<Cost>],
    lines: &[Line],
) -> Result<bool, OutOfMemory>
    requires rows { All (λ j. IsTrue (pre_rows system.now (row_of j))) jobs.now }
    requires inputs { All (InputsFit (cost_operations system.now.semiring)) jobs.now }
{
    if jobs.len() != lines.len() {
        return Ok(false);
    }
    for (job, line) in jobs.iter().zip(lines) {
        let worth = Pre.candidate(alloc, system, job)?;
        if !is_line(job, *line) || worth != Some(line.4) {
            return Ok(false);
        }
    }
    Ok(true)
}

// Lets a seat take, and says whether its hand has the jobs of the lines.
fn takes_lines(
    alloc: Global,
    book: &mut Book<'_, Cost, Pre>,
    seat: u32,
    lines: &[Line],
) -> Result<bool, OutOfMemory> {
    if seat >= 64 || book.has_hand(seat) {
        return Ok(false);
    }
    let system = book.system();
    match book.take(alloc, seat)? {
        Taken::Hand(hand) => are_lines(alloc, system, hand.jobs().as_slice(), lines),
        Taken::Idle(_) | Taken::Closed => Ok(false),
    }
}

// The first seat whose hand lacks the jobs of its lines, where the seats take one after the other.
fn wrong_seat(
    alloc: Global,
    book: &mut Book<'_, Cost, Pre>,
    hands: &[(u32, &[Line])],
) -> Result<Option<u32>, OutOfMemory> {
    for (seat, lines) in hands {
        if !takes_lines(alloc, book, *seat, lines)? {
            return Ok(Some(*seat));
        }
    }
    Ok(None)
}

// The first such seat where they begin with the items at the first control.
fn wrong_seat_from(
    alloc: Global,
    system: &System<Cost>,
    items: Items<'_>,
    hands: &[(u32, &[Line])],
) -> Result<Option<u32>, Fail> {
    let pattern = pattern_over(alloc, system, 0, items)?;
    let mut book = pre_opening(alloc, system, &pattern)?;
    let wrong = wrong_seat(alloc, &mut book, hands)?;
    Ok(wrong)
}

// Four seats take the four transitions of the opening, one after the other. A push that comes back to p needs a second
// transition from p, one that stays on an item needs the edge from there; the last is both inputs of one job.
#[test]
fn lists_each_consequence_once(rt: HostRuntime) -> Result<(), Fail> {
    let alloc = rt.alloc();
    let system = grows(alloc, Cost::new(100).expect(&rt, "an answer")).expect(&rt, "an answer");
    let (call, stay) = (JobKind::PrePushControl, JobKind::PrePushOther);
    let first: &[Line] = &[
        (call, arrow(0, 0), arrow(0, 1), arrow(0, 1), 1),
        (stay, arrow(0, 1), arrow(1, 2), arrow(0, 2), 1),
    ];
    let second: &[Line] = &[(stay, arrow(0, 1), arrow(1, 2), arrow(0, 2), 1)];
    let last: &[Line] = &[
        (call, arrow(0, 0), arrow(0, 1), arrow(0, 1), 1),
        (call, arrow(0, 0), arrow(0, 0), arrow(0, 0), 1),
    ];
    let hands = [(0, first), (1, second), (2, &[]), (3, last)];
    assert_eq!(rt; wrong_seat_from(alloc, &system, &[A, A, A], &hands)?, None);
    Ok(())
}
