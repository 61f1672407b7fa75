ghost use Rattle.std.specs.Prelude.{◌≡◌, ◌<◌, All, IsTrue, IfOk};
ghost use Rattle.semiring_laws.specs.Semiring.{Fits, FitsMap};
ghost use Rattle.truth_tables.specs.Formulas.{formula, is_over};
ghost use Rattle.relation_weights.specs.Actions.{AreTargets};
ghost use Rattle.relation_weights.specs.Relations.{relation_operations};

use relation_laws::{composition_is_by_a_middle, one_diagram};
use relation_weights::{
    RelMap, Relation, Relations, Slot, Value, actions_are_sets_of_pairs, weights_are_sets_of_pairs,
};
use semiring_laws::Semiring;
use std::alloc::Global;
use std::process::Abort;
use std::test::Fail;
use truth_tables::Expr;
use wpds_base::OutOfMemory;

const NO_PAIRS: &str = " - - - - - - - -";

const IDENTITY: &str = " 0 1 2 3 4 5 6 7";

// Whether a relation over three bits leads from a state to another, each the number of its bits, with that of variable 0 as
// the last.
fn leads(w: &Relation, old: u8, new: u8) -> bool {
    let bits = [
        old & 1 == 1,
        new & 1 == 1,
        old & 2 == 2,
        new & 2 == 2,
        old & 4 == 4,
        new & 4 == 4,
    ];
    let diagram = w.diagram();
    diagram.has_variables_below(6) && diagram.value(&bits)
}

fn digit(state: u8) -> char {
    match state {
        0 => '0',
        1 => '1',
        2 => '2',
        3 => '3',
        4 => '4',
        5 => '5',
        6 => '6',
        _ => '7',
    }
}

// Adds the states to which a relation leads from a state, `-` for none.
fn add_new_states(text: &mut String, w: &Relation, old: u8) -> Result<(), OutOfMemory> {
    let mut is_any = false;
    for new in 0..8 {
        if leads(w, old, new) {
            is_any = true;
            text.push(digit(new))?;
        }
    }
    if !is_any {
        text.push('-')?;
    }
    Ok(())
}

// The states to which a relation leads from each of the eight states, in order.
fn pairs(alloc: Global, w: &Relation) -> Result<String, OutOfMemory> {
    let mut text = String::new(alloc);
    for old in 0..8 {
        text.push(' ')?;
        add_new_states(&mut text, w, old)?;
    }
    Ok(text)
}

fn check_pairs(rt: &impl Abort, alloc: Global, w: &Relation, wanted: &str) -> Result<(), Fail> {
    let found = pairs(alloc, w)?;
    assert_eq!(rt; found.as_str(), wanted);
    Ok(())
}

// What stands here and below as pairs was worked out without diagrams, by a script that takes actions as sets of pairs of
// states, and composes these.
fn check_assigned(
    rt: &impl Abort,
    alloc: Global,
    targets: &[(u32, Value)],
    wanted: &str,
) -> Result<(), Fail>
    requires { AreTargets 3 targets.now }
{
    let w = Relations::new(3).assign(alloc, targets)?;
    check_pairs(rt, alloc, &w, wanted)
}

fn check_assumed(rt: &impl Abort, alloc: Global, e: &Expr, wanted: &str) -> Result<(), Fail>
    requires { IsTrue (is_over 3 (formula e.now)) }
{
    let w = Relations::new(3).assume(alloc, e)?;
    check_pairs(rt, alloc, &w, wanted)
}

fn check_chosen(rt: &impl Abort, alloc: Global, vars: &[u32], wanted: &str) -> Result<(), Fail>
    requires { All (λ v. v < 3) vars.now }
{
    let w = Relations::new(3).choose(alloc, vars)?;
    check_pairs(rt, alloc, &w, wanted)
}

fn variable(number: u32) -> Expr
    requires { number < 3 }
    ensures { IsTrue (is_over 3 (formula result)) }
{
    Expr::Var(number)
}

fn not(alloc: Global, e: Expr) -> Result<Expr, OutOfMemory>
    requires { IsTrue (is_over 3 (formula e)) }
    ensures { IfOk result (λ r. IsTrue (is_over 3 (formula r))) }
{
    Ok(Expr::Not(Box::new(alloc, e)?))
}

// An operator of two variables.
fn two(alloc: Global, table: u8, left: u32, right: u32) -> Result<Expr, OutOfMemory>
    requires table { table < 16 }
    requires left { left < 3 }
    requires right { right < 3 }
    ensures { IfOk result (λ r. IsTrue (is_over 3 (formula r))) }
{
    Ok(Expr::Two {
        table,
        left: Box::new(alloc, Expr::Var(left))?,
        right: Box::new(alloc, Expr::Var(right))?,
    })
}

// An operator of the three variables in order.
fn three(alloc: Global, table: u8) -> Result<Expr, OutOfMemory>
    ensures { IfOk result (λ r. IsTrue (is_over 3 (formula r))) }
{
    Ok(Expr::Three {
        table,
        a: Box::new(alloc, Expr::Var(0))?,
        b: Box::new(alloc, Expr::Var(1))?,
        c: Box::new(alloc, Expr::Var(2))?,
    })
}

// x := y, its inverse, and either bit
#[test]
fn one_target(rt: HostRuntime) -> Result<(), Fail> {
    let alloc = rt.alloc();
    let copied = [(0, Value::of(variable(1)))];
    check_assigned(&rt, alloc, &copied, " 0 0 3 3 4 4 7 7")?;
    let inverted = not(alloc, variable(0))?;
    let inverse = [(0, Value::of(inverted))];
    check_assigned(&rt, alloc, &inverse, " 1 0 3 2 5 4 7 6")?;
    let free = [(0, Value::free())];
    check_assigned(&rt, alloc, &free, " 01 01 23 23 45 45 67 67")?;
    check_assigned(&rt, alloc, &[], IDENTITY)
}

// x, y := y, x and x, y, z := y, z, x
#[test]
fn targets_that_exchange(rt: HostRuntime) -> Result<(), Fail> {
    let alloc = rt.alloc();
    let two = [(0, Value::of(variable(1))), (1, Value::of(variable(0)))];
    check_assigned(&rt, alloc, &two, " 0 2 1 3 4 6 5 7")?;
    let three = [
        (0, Value::of(variable(1))),
        (1, Value::of(variable(2))),
        (2, Value::of(variable(0))),
    ];
    check_assigned(&rt, alloc, &three, " 0 4 1 5 2 6 3 7")
}

// x, y := x and y, * and z := if x then y else z
#[test]
fn targets_by_operators(rt: HostRuntime) -> Result<(), Fail> {
    let alloc = rt.alloc();
    let conjunction = two(alloc, 8, 0, 1)?;
    let both = [(0, Value::of(conjunction)), (1, Value::free())];
    check_assigned(&rt, alloc, &both, " 02 02 02 13 46 46 46 57")?;
    let choice = three(alloc, 202)?;
    let chosen = [(2, Value::of(choice))];
    check_assigned(&rt, alloc, &chosen, " 0 1 2 7 4 1 6 7")
}

// x and not y, x other than y, two of three, and the constants
#[test]
fn assumptions(rt: HostRuntime) -> Result<(), Fail> {
    let alloc = rt.alloc();
    let first_alone = two(alloc, 4, 0, 1)?;
    check_assumed(&rt, alloc, &first_alone, " - 1 - - - 5 - -")?;
    let differ = two(alloc, 6, 0, 1)?;
    check_assumed(&rt, alloc, &differ, " - 1 2 - - 5 6 -")?;
    let majority = three(alloc, 232)?;
    check_assumed(&rt, alloc, &majority, " - - - 3 - 5 6 7")?;
    check_assumed(&rt, alloc, &Expr::Const(false), NO_PAIRS)?;
    check_assumed(&rt, alloc, &Expr::Const(true), IDENTITY)
}

#[test]
fn choices(rt: HostRuntime) -> Result<(), Fail> {
    let alloc = rt.alloc();
    check_chosen(&rt, alloc, &[0], " 01 01 23 23 45 45 67 67")?;
    let first_and_last = " 0145 0145 2367 2367 0145 0145 2367 2367";
    check_chosen(&rt, alloc, &[2, 0], first_and_last)?;
    check_chosen(&rt, alloc, &[0, 2, 0, 0], first_and_last)?;
    check_chosen(&rt, alloc, &[], IDENTITY)
}

// What a semiring makes of two weights and a map.
#[derive(Drop)]
struct Answered<W> {
    combined: W,
    extended: W,
    returned: W,
}

fn answers_for<S: Semiring>(
    semiring: &S,
    alloc: Global,
    map: &S::Ret,
    a: &S::W,
    b: &S::W,
) -> Result<Answered<S::W>, OutOfMemory>
    requires map { FitsMap (S.operations semiring.now) map.now }
    requires left { Fits (S.operations semiring.now) a.now }
    requires right { Fits (S.operations semiring.now) b.now }
{
    let a = semiring.copy(alloc, a)?;
    Ok(Answered {
        combined: semiring.combine(alloc, &a, b)?,
        extended: semiring.extend(alloc, &a, b)?,
        returned: semiring.after(alloc, map, &a)?,
    })
}

// x := y, then y := *
#[test]
fn operations(rt: HostRuntime) -> Result<(), Fail> {
    let alloc = rt.alloc();
    let relations = Relations::new(3);
    let first = relations.assign(alloc, &[(0, Value::of(variable(1)))])?;
    let second = relations.choose(alloc, &[1])?;
    let answers = answers_for(&relations, alloc, &RelMap::Plain, &first, &second)?;
    check_pairs(
        &rt,
        alloc,
        &answers.combined,
        " 02 013 023 13 46 457 467 57",
    )?;
    check_pairs(&rt, alloc, &answers.extended, " 02 02 13 13 46 46 57 57")?;
    check_pairs(&rt, alloc, &answers.returned, " 0 0 3 3 4 4 7 7")
}

// y := *, then x := y
#[test]
fn operations_in_the_other_order(rt: HostRuntime) -> Result<(), Fail> {
    let alloc = rt.alloc();
    let relations = Relations::new(3);
    let first = relations.choose(alloc, &[1])?;
    let second = relations.assign(alloc, &[(0, Value::of(variable(1)))])?;
    let answers = answers_for(&relations, alloc, &RelMap::Plain, &first, &second)?;
    check_pairs(&rt, alloc, &answers.extended, " 03 03 03 03 47 47 47 47")
}

// Whether what a weight makes of another is their combine, and `None` where it changes nothing.
fn lowered_to_both<S: Semiring>(
    semiring: &S,
    alloc: Global,
    old: &S::W,
    weight: &S::W,
) -> Result<Option<bool>, OutOfMemory>
    requires old { Fits (S.operations semiring.now) old.now }
    requires weight { Fits (S.operations semiring.now) weight.now }
{
    let both = semiring.combine(alloc, old, weight)?;
    match semiring.lowered(alloc, old, weight)? {
        Some(lowered) => Ok(Some(semiring.same(&lowered, &both))),
        None => Ok(None),
    }
}

// No run; the identity; x := y; y := *, which has the identity.
#[test]
fn what_is_lowered(rt: HostRuntime) -> Result<(), Fail> {
    let alloc = rt.alloc();
    let relations = Relations::new(3);
    let never = relations.assume(alloc, &Expr::Const(false))?;
    let same = relations.choose(alloc, &[])?;
    let copied = relations.assign(alloc, &[(0, Value::of(variable(1)))])?;
    let freed = relations.choose(alloc, &[1])?;
    assert_eq!(rt; lowered_to_both(&relations, alloc, &never, &never)?, None);
    assert_eq!(rt; lowered_to_both(&relations, alloc, &copied, &never)?, None);
    assert_eq!(rt; lowered_to_both(&relations, alloc, &copied, &copied)?, None);
    assert_eq!(rt; lowered_to_both(&relations, alloc, &freed, &same)?, None);
    assert_eq!(rt;
        lowered_to_both(&relations, alloc, &never, &same)?,
        Some(true)
    );
    assert_eq!(rt;
        lowered_to_both(&relations, alloc, &same, &freed)?,
        Some(true)
    );
    assert_eq!(rt;
        lowered_to_both(&relations, alloc, &copied, &freed)?,
        Some(true)
    );
    Ok(())
}

// A call that inverts x and sets z.
fn inverted_and_set(alloc: Global, relations: &Relations) -> Result<Relation, OutOfMemory>
    requires { relations.now ≡ 3 }
    ensures { IfOk result (λ w. Fits (relation_operations relations.now) w) }
{
    let inverted = not(alloc, variable(0))?;
    relations.assign(
        alloc,
        &[(0, Value::of(inverted)), (2, Value::of(Expr::Const(true)))],
    )
}

// All are the caller's; y is the callee's z, and z is the caller's.
#[test]
fn return_maps(rt: HostRuntime) -> Result<(), Fail> {
    let alloc = rt.alloc();
    let relations = Relations::new(3);
    let call = inverted_and_set(alloc, &relations)?;
    let mut slots = [Slot::Caller; 24];
    let callers = relations.after(alloc, &RelMap::Slots(slots), &call)?;
    check_pairs(&rt, alloc, &callers, IDENTITY)?;
    slots[0] = Slot::Callee(0);
    slots[1] = Slot::Callee(2);
    let moved = relations.after(alloc, &RelMap::Slots(slots), &call)?;
    check_pairs(&rt, alloc, &moved, " 3 2 3 2 7 6 7 6")
}

// The callee's x and y are exchanged; each is the callee's own.
#[test]
fn return_maps_of_the_callee(rt: HostRuntime) -> Result<(), Fail> {
    let alloc = rt.alloc();
    let relations = Relations::new(3);
    let call = inverted_and_set(alloc, &relations)?;
    let mut slots = [Slot::Caller; 24];
    slots[0] = Slot::Callee(1);
    slots[1] = Slot::Callee(0);
    slots[2] = Slot::Callee(2);
    let exchanged = relations.after(alloc, &RelMap::Slots(slots), &call)?;
    check_pairs(&rt, alloc, &exchanged, " 6 4 7 5 6 4 7 5")?;
    slots[0] = Slot::Callee(0);
    slots[1] = Slot::Callee(1);
    let own = relations.after(alloc, &RelMap::Slots(slots), &call)?;
    check_pairs(&rt, alloc, &own, " 5 4 7 6 5 4 7 6")
}

#[test]
fn maps_are_compared_by_slots(rt: HostRuntime) {
    let relations = Relations::new(3);
    let mut slots = [Slot::Caller; 24];
    let callers = RelMap::Slots(slots);
    slots[1] = Slot::Callee(2);
    let moves = RelMap::Slots(slots);
    assert!(rt; relations.same_map(&callers, &RelMap::Slots([Slot::Caller; 24])));
    assert!(rt; !relations.same_map(&callers, &moves));
    assert!(rt; !relations.same_map(&moves, &relations.plain()));
}

// So many times the same, one after the other.
fn repeated(
    relations: &Relations,
    alloc: Global,
    w: &Relation,
    count: u32,
) -> Result<Relation, OutOfMemory>
    requires { Fits (relation_operations relations.now) w.now }
{
    let mut all = relations.one(alloc)?;
    for _ in 0..count {
        all = relations.extend(alloc, &all, w)?;
    }
    Ok(all)
}

// A counter of three bits, 30 times: x, y, z := !x, x other than y, z other than x and y.
#[test]
fn thirty_actions(rt: HostRuntime) -> Result<(), Fail> {
    let alloc = rt.alloc();
    let relations = Relations::new(3);
    let first = not(alloc, variable(0))?;
    let second = two(alloc, 6, 0, 1)?;
    let third = three(alloc, 106)?;
    let counted = [
        (0, Value::of(first)),
        (1, Value::of(second)),
        (2, Value::of(third)),
    ];
    let once = relations.assign(alloc, &counted)?;
    check_pairs(&rt, alloc, &once, " 1 2 3 4 5 6 7 0")?;
    let all = repeated(&relations, alloc, &once, 30)?;
    check_pairs(&rt, alloc, &all, " 6 7 0 1 2 3 4 5")
}

fn neutral<S: Semiring>(semiring: &S, alloc: Global) -> Result<(S::W, S::W), OutOfMemory>
    ensures zero { IfOk result (λ p. Fits (S.operations semiring.now) p.0) }
    ensures one { IfOk result (λ p. Fits (S.operations semiring.now) p.1) }
{
    Ok((semiring.zero(alloc)?, semiring.one(alloc)?))
}

#[test]
fn no_variable(rt: HostRuntime) -> Result<(), Fail> {
    let alloc = rt.alloc();
    let relations = Relations::new(0);
    let (zero, one) = neutral(&relations, alloc)?;
    let made = relations.choose(alloc, &[])?;
    assert!(rt; relations.same(&made, &one) && !relations.same(&made, &zero));
    assert!(rt; relations.is_zero(&zero) && !relations.is_zero(&one));
    assert_eq!(rt; one.diagram().nodes().len(), 0);
    assert!(rt;
        relations.same_kind(&Relations::new(0)) && !relations.same_kind(&Relations::new(1))
    );
    Ok(())
}

// Takes only what threads can share.
fn takes_shared<T: Send + Sync>(_value: &T) {}

// The last of 24 variables may have either bit: three nodes for each of the others.
#[test]
fn most_variables(rt: HostRuntime) -> Result<(), Fail> {
    let alloc = rt.alloc();
    let relations = Relations::new(24);
    let freed = relations.choose(alloc, &[23])?;
    let twice = relations.extend(alloc, &freed, &freed)?;
    let one = relations.one(alloc)?;
    assert_eq!(rt; one.diagram().nodes().len(), 72);
    assert_eq!(rt; freed.diagram().nodes().len(), 69);
    assert_eq!(rt; twice.diagram().nodes(), freed.diagram().nodes());
    takes_shared(&(relations, RelMap::Plain));
    takes_shared(&twice);
    one_diagram();
    composition_is_by_a_middle();
    weights_are_sets_of_pairs();
    actions_are_sets_of_pairs();
    Ok(())
}
