use semiring_laws::Reach;
use std::alloc::Global;
use std::process::Abort;
use weighted_automata::{
    Label, Place, Transitions, lowering_changes_one_place, places_are_told_apart,
    places_stand_once, transitions_stand_at_their_places,
};
use wpds_base::OutOfMemory;

const fn place(from: u32, label: Label, to: u32) -> Place {
    Place { from, label, to }
}

const A: Label = Label::Symbol(0);

const B: Label = Label::Symbol(1);

// A place, its weight and node, and where it stands then.
type Lowered = (Place, bool, u64, u64);

fn check_lowered(
    rt: &impl Abort,
    transitions: &mut Transitions<Reach>,
    alloc: Global,
    (at, weight, node, stands): Lowered,
) {
    assert_eq!(rt; transitions.lower(alloc, at, weight, node), Ok(stands));
    assert_eq!(rt; transitions.find(at), Some(stands));
    assert!(rt; stands < transitions.len());
    let entry = transitions.entry(stands);
    assert_eq!(rt; (entry.place, entry.weight, entry.node), (at, weight, node));
}

// Where the transitions from a state with a label stand.
fn check_from(
    rt: &impl Abort,
    transitions: &Transitions<Reach>,
    state: u32,
    label: Label,
    stand: [Option<u64>; 3],
) {
    for (k, stands) in stand.into_iter().enumerate() {
        assert_eq!(rt; transitions.from_state(state, label, k), stands);
    }
}

// Where the transitions into a state stand.
fn check_into(
    rt: &impl Abort,
    transitions: &Transitions<Reach>,
    state: u32,
    stand: [Option<u64>; 5],
) {
    for (k, stands) in stand.into_iter().enumerate() {
        assert_eq!(rt; transitions.into_state(state, k), stands);
    }
}

#[test]
fn lowers_and_finds(rt: HostRuntime) {
    let alloc = rt.alloc();
    let mut transitions: Transitions<Reach> = Transitions::new(alloc);
    let steps = [
        (place(0, A, 1), false, 10u64, 0u64),
        (place(0, Label::Empty, 1), true, 11, 1),
        (place(0, A, 2), true, 12, 2),
        (place(0, A, 1), true, 13, 0),
        (place(0, B, 1), true, 14, 3),
        (place(2, A, 1), true, 15, 4),
    ];
    for step in steps {
        check_lowered(&rt, &mut transitions, alloc, step);
    }
    assert_eq!(rt; transitions.len(), 5);
    assert_eq!(rt; transitions.find(place(2, B, 1)), None);
    // a state, a label, and where the transitions from there stand
    for (state, label, stand) in [
        (0, A, [Some(0u64), Some(2), None]),
        (0, B, [Some(3), None, None]),
        (0, Label::Empty, [Some(1), None, None]),
        (2, A, [Some(4), None, None]),
        (1, A, [None; 3]),
    ] {
        check_from(&rt, &transitions, state, label, stand);
    }
    // a state, and where the transitions into it stand
    for (state, stand) in [
        (1, [Some(0u64), Some(1), Some(3), Some(4), None]),
        (2, [Some(2), None, None, None, None]),
        (0, [None; 5]),
    ] {
        check_into(&rt, &transitions, state, stand);
    }
}

// Transitions at these places, in order.
fn made(alloc: Global, places: &[(u32, Label, u32)]) -> Result<Transitions<Reach>, OutOfMemory> {
    let mut transitions = Transitions::new(alloc);
    for (from, label, to) in places {
        transitions.lower(alloc, place(*from, *label, *to), true, 0)?;
    }
    Ok(transitions)
}

// Where rows begin.
fn check_firsts(rt: &impl Abort, transitions: &Transitions<Reach>) {
    // a state, a label, and where the first transition from there stands
    for (state, label, first) in [
        (0, A, Some(0u64)),
        (0, B, Some(3)),
        (2, A, Some(4)),
        (1, A, None),
    ] {
        assert_eq!(rt; transitions.first_from(state, label), first);
    }
    // a state, and where the first transition out of it stands, and the first that reads nothing into it
    for (state, out, empty) in [
        (0, Some(0u64), None),
        (1, None, Some(1u64)),
        (2, Some(4), None),
    ] {
        assert_eq!(rt; transitions.first_out_of(state), out);
        assert_eq!(rt; transitions.first_empty_into(state), empty);
    }
}

// How rows go on.
fn check_nexts(rt: &impl Abort, transitions: &Transitions<Reach>) {
    // for each, and one behind the last: the next with its state and label, the next with its state, and
    // the next that reads nothing into where it goes, if it reads nothing
    let nexts = [
        (Some(2u64), Some(1u64), None),
        (None, Some(2), Some(5u64)),
        (None, Some(3), None),
        (None, None, None),
        (None, None, None),
        (None, None, None),
        (None, None, None),
    ];
    for (k, (alike, out, empty)) in nexts.into_iter().enumerate() {
        assert_eq!(rt; transitions.next_from(k as u64), alike);
        assert_eq!(rt; transitions.next_out_of(k as u64), out);
        assert_eq!(rt; transitions.next_empty_into(k as u64), empty);
    }
}

#[test]
fn walks_rows(rt: HostRuntime) {
    let places = [
        (0, A, 1),
        (0, Label::Empty, 1),
        (0, A, 2),
        (0, B, 1),
        (2, A, 1),
        (3, Label::Empty, 1),
    ];
    let transitions = made(rt.alloc(), &places).expect(&rt, "an answer");
    check_firsts(&rt, &transitions);
    check_nexts(&rt, &transitions);
}

fn check_roomy(
    rt: &impl Abort,
    transitions: &mut Transitions<Reach>,
    alloc: Global,
    at: Place,
    number: u64,
) {
    assert!(rt; transitions.has_room(at));
    assert_eq!(rt; transitions.lower(alloc, at, true, number), Ok(number));
    assert!(rt; transitions.has_room(at));
}

#[test]
fn room_first(rt: HostRuntime) {
    let alloc = rt.alloc();
    let mut transitions: Transitions<Reach> = Transitions::new(alloc);
    let places = [place(0, A, 1), place(0, Label::Empty, 1), place(3, B, 1)];
    assert!(rt; !transitions.has_room(places[0]));
    transitions.reserve(alloc, &places).expect(&rt, "an answer");
    assert_eq!(rt; transitions.len(), 0);
    for (k, at) in places.into_iter().enumerate() {
        check_roomy(&rt, &mut transitions, alloc, at, k as u64);
    }
    assert!(rt; !transitions.has_room(place(0, B, 1)));
    places_are_told_apart();
    places_stand_once::<Reach>();
    transitions_stand_at_their_places::<Reach>();
    lowering_changes_one_place::<Reach>();
}
