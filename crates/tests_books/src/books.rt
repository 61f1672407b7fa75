use crate::gather::{Gather, HUB};
use pushdown_rules::{RuleFault, System};
use saturation_core::{Book, Done, NumberedPlace, QueuedTransitions, Taken};
use saturation_laws::{Direction, Opening, PlaceList, StateList};
use semiring_laws::{Reach, Semiring};
use std::alloc::Global;
use std::process::Abort;
use weighted_automata::{Label, Place};
use witness_graph::{Node, Side};
use wpds_base::OutOfMemory;

const FORWARDS: Gather = Gather { side: Side::Post };

const fn place(from: u32, to: u32) -> Place {
    Place {
        from,
        label: Label::Symbol(0),
        to,
    }
}

// Over edges, with no final states.
fn opened<'s>(
    alloc: Global,
    system: &'s System<Reach>,
    edges: &[Place],
) -> Result<Book<'s, Reach, Gather>, OutOfMemory> {
    let opening = Opening {
        edges: PlaceList::from_vec(edges.to_vec(alloc)?),
        finals: StateList::from_vec(Vec::new(alloc)),
    };
    Book::open(alloc, system, FORWARDS, opening)
}

#[derive(Clone, Copy, Debug, PartialEq, Eq)]
enum Answer {
    NotAsked,
    Hand(u32),
    Idle(u64),
    Closed,
}

// What a seat is answered, where it may ask.
fn ask<S: Semiring, D: Direction<S>>(
    book: &mut Book<'_, S, D>,
    alloc: Global,
    seat: u32,
) -> Result<Answer, OutOfMemory> {
    if seat >= 64 {
        return Ok(Answer::NotAsked);
    }
    if book.has_hand(seat) {
        return Ok(Answer::NotAsked);
    }
    match book.take(alloc, seat)? {
        Taken::Hand(hand) => Ok(Answer::Hand(hand.seat())),
        Taken::Idle(seats) => Ok(Answer::Idle(seats.bits)),
        Taken::Closed => Ok(Answer::Closed),
    }
}

// Gives a seat's hand back, if it has one.
fn give<S: Semiring, D: Direction<S>>(book: &mut Book<'_, S, D>, seat: u32) -> bool {
    if seat >= 64 {
        return false;
    }
    if !book.has_hand(seat) {
        return false;
    }
    book.give_back(seat);
    true
}

// The seat's next hand, worked out, where it may ask and something waits.
fn work<'s, S: Semiring, D: Direction<S>>(
    book: &mut Book<'s, S, D>,
    alloc: Global,
    seat: u32,
) -> Result<Option<Done<'s, S, D>>, OutOfMemory> {
    if seat >= 64 {
        return Ok(None);
    }
    if book.has_hand(seat) {
        return Ok(None);
    }
    let (system, direction) = (book.system(), book.direction());
    let Taken::Hand(hand) = book.take(alloc, seat)? else {
        return Ok(None);
    };
    match hand.work(alloc, system, &direction) {
        Ok(done) => Ok(Some(done)),
        Err(_) => Err(OutOfMemory),
    }
}

// Settles a hand that was worked out, if the book can, and says how many weights that changed.
fn settle<S: Semiring, D: Direction<S>>(
    book: &mut Book<'_, S, D>,
    alloc: Global,
    done: Option<Done<'_, S, D>>,
) -> Result<Option<u64>, OutOfMemory> {
    let Some(done) = done else {
        return Ok(None);
    };
    if !book.holds(&done) {
        return Ok(None);
    }
    match book.settle(alloc, done) {
        Ok(lowered) => Ok(Some(lowered.count)),
        Err(_) => Err(OutOfMemory),
    }
}

// How often transitions were taken, and how often by this seat.
fn counts<S: Semiring, D: Direction<S>>(book: &Book<'_, S, D>, seat: u32) -> (u128, u128) {
    if seat >= 64 {
        return (book.takes(), 0);
    }
    (book.takes(), book.takes_of(seat))
}

// What a book over these edges holds before a seat takes.
fn check_opened(rt: &impl Abort, book: &Book<'_, Reach, Gather>, edges: &[Place]) {
    assert!(rt; book.direction().same_way(&FORWARDS));
    assert_eq!(rt; book.opening().edges.as_slice(), edges);
    assert_eq!(rt; book.system().rules(), 0);
    assert_eq!(rt; book.transitions().find(place(1, 2)), Some(1));
    assert_eq!(rt; (book.transitions().len(), book.graph().len()), (2, 1));
    assert!(rt; !book.is_closed());
}

// A seat that gives back first, a seat that asks, the answer, the takes, and those of the seat.
type Asked = (Option<u32>, u32, Answer, u128, u128);

fn check_asked(
    rt: &impl Abort,
    book: &mut Book<'_, Reach, Gather>,
    alloc: Global,
    (back, seat, answer, takes, own): Asked,
) -> Result<(), OutOfMemory> {
    if let Some(giver) = back {
        assert!(rt; give(book, giver));
    }
    assert_eq!(rt; ask(book, alloc, seat)?, answer);
    assert_eq!(rt; counts(book, seat), (takes, own));
    assert!(rt; !book.is_closed());
    Ok(())
}

fn check_all_asked(
    rt: &impl Abort,
    book: &mut Book<'_, Reach, Gather>,
    alloc: Global,
    rows: &[Asked],
) -> Result<(), OutOfMemory> {
    for row in rows {
        check_asked(rt, book, alloc, *row)?;
    }
    Ok(())
}

#[test]
fn seats_take_in_turn(rt: HostRuntime) {
    let alloc = rt.alloc();
    let system = System::new(alloc, Reach, 1, 1);
    let edges = [place(0, 1), place(1, 2), place(0, 1)];
    let rows = [
        (None, 7, Answer::Hand(7), 1u128, 1u128),
        (None, 63, Answer::Hand(63), 2, 1),
        (None, 1, Answer::Idle((1u64 << 63) + 128), 2, 0),
        (None, 7, Answer::NotAsked, 2, 1),
        (Some(7), 1, Answer::Hand(1), 3, 1),
        (Some(63), 63, Answer::Hand(63), 4, 2),
        (None, 7, Answer::Idle((1 << 63) + 2), 4, 1),
    ];
    let mut book = opened(alloc, &system, &edges).expect(&rt, "an answer");
    check_opened(&rt, &book, &edges);
    check_all_asked(&rt, &mut book, alloc, &rows).expect(&rt, "an answer");
    assert!(rt; !give(&mut book, 7));
}

#[test]
fn nothing_to_take(rt: HostRuntime) {
    let alloc = rt.alloc();
    let system = System::new(alloc, Reach, 1, 1);
    let mut book = opened(alloc, &system, &[]).expect(&rt, "an answer");
    assert!(rt; book.is_closed());
    assert_eq!(rt;
        ask(&mut book, alloc, 0).expect(&rt, "an answer"),
        Answer::Closed
    );
    assert_eq!(rt; counts(&book, 0), (0, 0));
}

// Where the hub stands, and how many transitions and nodes there are.
fn found<S: Semiring, D: Direction<S>>(book: &Book<'_, S, D>) -> (Option<u64>, u64, u64) {
    let transitions = book.transitions();
    (transitions.find(HUB), transitions.len(), book.graph().len())
}

// Seats 7 and 63 take, seat 1 asks, 7 settles and 63 gives back; what 1 is answered, how many weights 7 changed, whether
// 63 could give back, and what becomes of its hand.
fn turns<S: Semiring, D: Direction<S>>(
    book: &mut Book<'_, S, D>,
    alloc: Global,
) -> Result<(Answer, Option<u64>, bool, Option<u64>), OutOfMemory> {
    let first = work(book, alloc, 7)?;
    let second = work(book, alloc, 63)?;
    let answer = ask(book, alloc, 1)?;
    let lowered = settle(book, alloc, first)?;
    let given = give(book, 63);
    Ok((answer, lowered, given, settle(book, alloc, second)?))
}

// A seat's next hand, worked out and settled at once.
fn turn<S: Semiring, D: Direction<S>>(
    book: &mut Book<'_, S, D>,
    alloc: Global,
    seat: u32,
) -> Result<Option<u64>, OutOfMemory> {
    let hand = work(book, alloc, seat)?;
    settle(book, alloc, hand)
}

// What becomes of a book over two edges.
#[derive(Clone, Copy)]
struct Story {
    turns: (Answer, Option<u64>, bool, Option<u64>),
    lowered: (Option<u64>, u64, u64),
    hub: Option<u64>,
    edge: Option<u64>,
    last: Answer,
    end: (Option<u64>, u64, u64),
    takes: (u128, u128),
}

// The turns of the seats, one after another.
fn tell(book: &mut Book<'_, Reach, Gather>, alloc: Global) -> Result<Story, OutOfMemory> {
    Ok(Story {
        turns: turns(book, alloc)?,
        lowered: found(book),
        hub: turn(book, alloc, 1)?,
        edge: turn(book, alloc, 1)?,
        last: ask(book, alloc, 63)?,
        end: found(book),
        takes: counts(book, 1),
    })
}

fn play(alloc: Global) -> Result<Story, OutOfMemory> {
    let system = System::new(alloc, Reach, 1, 1);
    let mut book = opened(alloc, &system, &[place(0, 1), place(1, 2)])?;
    tell(&mut book, alloc)
}

#[test]
fn one_settles_and_one_gives_back(rt: HostRuntime) {
    let story = play(rt.alloc()).expect(&rt, "an answer");
    let idle = Answer::Idle((1u64 << 63) + 128);
    assert_eq!(rt; story.turns, (idle, Some(1), true, None));
    assert_eq!(rt; story.lowered, (Some(2), 3, 2));
    // the hub, and then the edge that was given back, change nothing
    assert_eq!(rt; (story.hub, story.edge), (Some(0), Some(0)));
    assert_eq!(rt; story.last, Answer::Closed);
    assert_eq!(rt; story.end, (Some(2), 3, 2));
    assert_eq!(rt; story.takes, (4, 2));
}

// A system with a rule of each weight.
fn with_rules(alloc: Global, weights: &[bool]) -> Result<System<Reach>, RuleFault> {
    let mut system = System::new(alloc, Reach, 1, 1);
    for weight in weights {
        system.add_rule(alloc, 0, 0, 0, &[0], *weight, None)?;
    }
    Ok(system)
}

// Takes a hand of seat 5, works it out over the system on this side, and says whether the book can settle it, and whether
// it still can once the hand was given back.
fn held_over(
    book: &mut Book<'_, Reach, Gather>,
    alloc: Global,
    system: &System<Reach>,
    side: Side,
) -> Result<Option<(bool, bool)>, OutOfMemory> {
    if book.has_hand(5) {
        return Ok(None);
    }
    let Taken::Hand(hand) = book.take(alloc, 5)? else {
        return Ok(None);
    };
    let Ok(done) = hand.work(alloc, system, &Gather { side }) else {
        return Err(OutOfMemory);
    };
    let before = book.holds(&done);
    let given = give(book, 5);
    Ok(Some((before && given, book.holds(&done))))
}

// The same over a system with a rule of each weight.
fn held_with(
    book: &mut Book<'_, Reach, Gather>,
    alloc: Global,
    weights: &[bool],
    side: Side,
) -> Result<Option<(bool, bool)>, RuleFault> {
    let other = with_rules(alloc, weights)?;
    Ok(held_over(book, alloc, &other, side)?)
}

// The same of a book over this system.
fn held_in(
    alloc: Global,
    system: &System<Reach>,
    weights: &[bool],
    side: Side,
) -> Result<Option<(bool, bool)>, RuleFault> {
    let mut book = opened(alloc, system, &[place(0, 1)])?;
    held_with(&mut book, alloc, weights, side)
}

// The same of a system that has one rule.
fn held_by(alloc: Global, weights: &[bool], side: Side) -> Result<Option<(bool, bool)>, RuleFault> {
    let system = with_rules(alloc, &[true])?;
    held_in(alloc, &system, weights, side)
}

#[test]
fn held_where_hand_side_and_rules_agree(rt: HostRuntime) {
    let alloc = rt.alloc();
    // the rules of the other system, the side, and whether the hand is held: it names the rule of number 0
    let rows: [(&[bool], Side, bool); 5] = [
        (&[true], Side::Post, true),
        (&[true, false], Side::Post, true),
        (&[false], Side::Post, false),
        (&[], Side::Post, false),
        (&[true], Side::Pre, false),
    ];
    for (weights, side, held) in rows {
        assert_eq!(rt;
            held_by(alloc, weights, side).expect(&rt, "an answer"),
            Some((held, false))
        );
    }
}

// The hand of seat 9 of a book over one edge.
fn check_worked(rt: &impl Abort, done: &Done<'_, Reach, Gather>) {
    assert_eq!(rt; (done.seat(), done.side()), (9, Side::Post));
    assert_eq!(rt; done.candidates().as_slice(), [true].as_slice());
    assert_eq!(rt; done.jobs().as_slice().len(), 1);
    assert_eq!(rt; done.system().rules(), 0);
}

fn check_work(
    rt: &impl Abort,
    book: &mut Book<'_, Reach, Gather>,
    alloc: Global,
) -> Result<(), OutOfMemory> {
    let done = work(book, alloc, 9)?;
    assert!(rt; done.is_some());
    if let Some(done) = &done {
        check_worked(rt, done);
    }
    Ok(())
}

#[test]
fn worked_out(rt: HostRuntime) {
    let alloc = rt.alloc();
    let system = System::new(alloc, Reach, 1, 1);
    let mut book = opened(alloc, &system, &[place(0, 1)]).expect(&rt, "an answer");
    check_work(&rt, &mut book, alloc).expect(&rt, "an answer");
}

// Sets what stands at a place, which is found first.
fn lower(
    queue: &mut QueuedTransitions<Reach>,
    alloc: Global,
    x: Place,
    node: u64,
) -> Result<(), OutOfMemory> {
    let at = queue.list().find(x);
    queue.lower(alloc, x, at, true, node)
}

#[test]
fn waits_once_and_in_order(rt: HostRuntime) {
    let alloc = rt.alloc();
    let (one, two) = (place(0, 1), place(1, 0));
    let (first, second) = (
        NumberedPlace {
            number: 0,
            place: one,
        },
        NumberedPlace {
            number: 1,
            place: two,
        },
    );
    let mut queue = QueuedTransitions::new(alloc);
    for x in [one, two, one, two] {
        lower(&mut queue, alloc, x, 3).expect(&rt, "an answer");
    }
    assert_eq!(rt; queue.list().len(), 2);
    assert_eq!(rt; queue.pop(), Some(first));
    // what was taken can wait again, last, and keeps its number
    lower(&mut queue, alloc, one, 4).expect(&rt, "an answer");
    for left in [Some(second), Some(first), None] {
        assert_eq!(rt; queue.pop(), left);
    }
}
