//! Values of queries over systems of relations by references into one table of nodes, which is kept anew in the midst of a search,
//! beside those by the semiring's own calls.

ghost use Rattle.std.specs.Prelude.{◌≡◌, ◌<◌, All, IsTrue, IfOk, IfSome};
ghost use Rattle.pattern_openings.specs.PatternOpenings.{IsOver};
ghost use Rattle.semiring_laws.specs.Semiring.{Fits, FitsMap};
ghost use Rattle.truth_tables.specs.Formulas.{formula, is_over};
ghost use Rattle.relation_weights.specs.Relations.{relation_operations};
ghost use Rattle.relation_weights.specs.declared.rel_map.RelMap.TheVariants.{Slots};

use config_patterns::Pattern;
use node_weigher::NodeWeigher;
use pushdown_rules::System;
use query_answers::Values;
use relation_weights::{RelMap, Relation, Relations, Slot, Value};
use semiring_laws::Semiring;
use std::alloc::Global;
use std::sync::Wait;
use std::test::Fail;
use std::thread::Threads;
use tests_systems::{A, B, C, Items, pattern_over};
use truth_tables::Expr;
use weight_tables::{PlainWeigher, Weigher};
use witness_graph::Side;
use wpds_base::{OpenGate, OutOfMemory};

// How many systems are made, of so many rules each.
const SYSTEMS: u64 = 60;

const RULES: u32 = 26;

// How many references are enough at first. The identity on five bits has fifteen nodes and there are two ends, so a new table is full:
// it is kept anew at the first entry that is taken, and from then on whenever it has four times the references that were in use the last
// time. A script that follows the search, and makes no nodes but those of what is multiplied and summed, counts this for what leads from
// control to control alone: 137 times in the 60 systems, twice or more in 46 of them and five times in one.
const ENOUGH: usize = 12;

// More values than these are not empty. A script that takes relations as sets of pairs counts 399 by each of the two directions.
const NOT_EMPTY: u32 = 700;

// How many patterns end queries at most.
const MOST: usize = 10;

// Any number of any of the five symbols.
const ANY: (&[u32], bool) = (&[0, 1, 2, 3, 4], true);

// Numbers that look as if drawn (a linear congruential generator: Knuth 1998, section 3.2.1).
#[derive(Drop)]
struct Numbers {
    state: u64,
}

impl Numbers {
    // The next one below a bound.
    fn below(&mut self, bound: u32) -> u32
        requires { 0 < bound }
        ensures { result < bound }
    {
        self.state = self
            .state
            .wrapping_mul(6_364_136_223_846_793_005)
            .wrapping_add(1_442_695_040_888_963_407);
        let upper = (self.state / 0x1_0000_0000) as u32;
        upper % bound
    }
}

// An operator of two of the five bits.
fn some_expression(alloc: Global, numbers: &mut Numbers) -> Result<Expr, OutOfMemory>
    ensures { IfOk result (λ e. IsTrue (is_over 5 (formula e))) }
{
    let table = numbers.below(16) as u8;
    let (left, right) = (numbers.below(5), numbers.below(5));
    Ok(Expr::Two {
        table,
        left: Box::new(alloc, Expr::Var(left))?,
        right: Box::new(alloc, Expr::Var(right))?,
    })
}

// A weight: an assignment, an assumption, or either bit in up to two places.
fn some_weight(alloc: Global, numbers: &mut Numbers) -> Result<Relation, OutOfMemory>
    ensures { IfOk result (λ w. Fits (relation_operations 5) w) }
{
    let relations = Relations::new(5);
    match numbers.below(4) {
        0 => {
            let e = some_expression(alloc, numbers)?;
            relations.assume(alloc, &e)
        }
        1 => relations.choose(alloc, &[numbers.below(5), numbers.below(5)]),
        _ => {
            let e = some_expression(alloc, numbers)?;
            relations.assign(alloc, &[(numbers.below(5), Value::of(e))])
        }
    }
}

// The slots by which the callee's bits come back: two exchanged, three in a ring, or all but one as they are.
fn some_slots(numbers: &mut Numbers) -> [Slot; 24]
    ensures { FitsMap (relation_operations 5) (Slots result) }
{
    let mut slots = [Slot::Caller; 24];
    match numbers.below(3) {
        0 => {
            slots[0] = Slot::Callee(1);
            slots[1] = Slot::Callee(0);
        }
        1 => {
            slots[1] = Slot::Callee(4);
            slots[2] = Slot::Callee(1);
            slots[4] = Slot::Callee(2);
        }
        _ => {
            slots[0] = Slot::Callee(0);
            slots[1] = Slot::Callee(1);
            slots[2] = Slot::Callee(2);
            slots[3] = Slot::Callee(3);
        }
    }
    slots
}

// The return map of a push: none, or by slots.
fn some_map(numbers: &mut Numbers) -> Option<RelMap>
    ensures { IfSome result (FitsMap (relation_operations 5)) }
{
    match numbers.below(3) {
        0 => None,
        _ => Some(RelMap::Slots(some_slots(numbers))),
    }
}

// Adds a rule between three controls and five symbols.
fn add_some_rule(
    alloc: Global,
    system: &mut System<Relations>,
    numbers: &mut Numbers,
) -> Result<(), Fail>
    requires { system.old.semiring ≡ 5 }
    ensures { system.new.semiring ≡ 5 }
{
    let weight = some_weight(alloc, numbers)?;
    let (control, symbol, to) = (numbers.below(3), numbers.below(5), numbers.below(3));
    let right = [numbers.below(5), numbers.below(5)];
    let kind = numbers.below(3) as usize;
    let map = match kind {
        2 => some_map(numbers),
        _ => None,
    };
    system.add_rule(alloc, control, symbol, to, &right[..kind], weight, map)?;
    Ok(())
}

// The system of a number.
fn some_system(alloc: Global, number: u64) -> Result<System<Relations>, Fail> {
    let mut system = System::new(alloc, Relations::new(5), 3, 5);
    let mut numbers = Numbers { state: number };
    for _rule in 0..RULES {
        add_some_rule(alloc, &mut system, &mut numbers)?;
    }
    Ok(system)
}

// The patterns where queries end.
fn ends(alloc: Global, system: &System<Relations>) -> Result<Vec<Pattern>, Fail>
    ensures { IfOk result (λ v.
        All (IsOver system.now.controls system.now.symbols) v.items) }
{
    let places: [(u32, Items<'static>); 6] = [
        (0, &[]),
        (1, &[]),
        (2, &[A]),
        (0, &[ANY]),
        (1, &[B, ANY]),
        (2, &[(&[0, 1, 2], false), C]),
    ];
    let mut patterns = Vec::new(alloc);
    for (control, items) in places {
        patterns.push(pattern_over(alloc, system, control, items)?)?;
    }
    Ok(patterns)
}

// The values of all queries from a pattern, by a direction and a weigher.
fn values_by<M: Weigher<Relations>>(
    rt: &(impl Threads + Wait + Sync + AllocGlobal),
    system: &System<Relations>,
    side: Side,
    from: &Pattern,
    weigher: M,
) -> Result<Vec<Relation>, Fail>
    requires from { IsOver system.now.controls system.now.symbols from.now }
    requires weigher { M.pushdown weigher ≡ system.now }
{
    let tos = ends(rt.alloc(), system)?;
    if tos.len() > MOST {
        return Err(Fail::new("too many queries"));
    }
    let mut values = Values::new(system, side, 1, weigher);
    let found = values.values_from(rt, rt.alloc(), from, &tos, &OpenGate)?;
    Ok(found)
}

// Whether the values are the same, one by one.
fn are_same(one: &[Relation], other: &[Relation]) -> bool {
    if one.len() != other.len() {
        return false;
    }
    for k in 0..one.len() {
        if !one[k].diagram().same(other[k].diagram()) {
            return false;
        }
    }
    true
}

// How many of the values have a pair: the root of the others is the end that no pair leads to.
fn not_empty(values: &[Relation]) -> u32 {
    let mut count: u32 = 0;
    for value in values {
        if value.diagram().root != 0 {
            count = count.saturating_add(1);
        }
    }
    count
}

// How many values of queries from a pattern are not empty, where all ways tell the same.
fn told_alike(
    rt: &(impl Threads + Wait + Sync + AllocGlobal),
    system: &System<Relations>,
    side: Side,
    from: &Pattern,
) -> Result<Option<u32>, Fail>
    requires { IsOver system.now.controls system.now.symbols from.now }
{
    let alloc = rt.alloc();
    let plain = values_by(rt, system, side, from, PlainWeigher::new(alloc, system))?;
    let often = NodeWeigher::with_enough(alloc, system, ENOUGH)?;
    let renewed = values_by(rt, system, side, from, often)?;
    if !are_same(&plain, &renewed) {
        return Ok(None);
    }
    let never = NodeWeigher::new(alloc, system)?;
    let kept = values_by(rt, system, side, from, never)?;
    if !are_same(&plain, &kept) {
        return Ok(None);
    }
    Ok(Some(not_empty(&plain)))
}

// The same of all queries over a system, by both directions.
fn system_alike(
    rt: &(impl Threads + Wait + Sync + AllocGlobal),
    system: &System<Relations>,
) -> Result<Option<u32>, Fail> {
    let starts: [(Side, u32, Items<'static>); 4] = [
        (Side::Pre, 0, &[A]),
        (Side::Post, 0, &[A]),
        (Side::Pre, 1, &[B, ANY]),
        (Side::Post, 1, &[B, ANY]),
    ];
    let mut count: u32 = 0;
    for (side, control, items) in starts {
        let from = pattern_over(rt.alloc(), system, control, items)?;
        match told_alike(rt, system, side, &from)? {
            Some(more) => count = count.saturating_add(more),
            None => return Ok(None),
        }
    }
    Ok(Some(count))
}

#[test]
fn values_while_weights_are_kept_anew(rt: HostRuntime) -> Result<(), Fail> {
    let mut count: u32 = 0;
    for number in 0..SYSTEMS {
        let system = some_system(rt.alloc(), number)?;
        let found = system_alike(&rt, &system)?;
        assert!(rt; found.is_some(), "values of system {number}");
        count = count.saturating_add(found.unwrap_or(0));
    }
    assert!(rt; count > NOT_EMPTY);
    Ok(())
}
