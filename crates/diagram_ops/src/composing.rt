ghost use Rattle.std.specs.Prelude.{◌≡◌, ◌↔◌, ◌+◌, ◌*◌, ◌/◌, ◌<◌, ◌^◌, ℕ, Bool, true, false, IsTrue, IfOk, IfSome, length};
ghost use Rattle.diagram_store.specs.Diagrams.{IsOver};
ghost use Rattle.diagram_store.specs.Nodes.{IsReduced, IsAbove};
ghost use Rattle.diagram_ops.specs.private.Applying.{AreApplied, lower, place_in, cofactor_of};
ghost use Rattle.diagram_ops.specs.private.Composing.{AreComposed, Composes, IsJoined};
ghost use Rattle.diagram_ops.specs.private.Composing as composing;
ghost use Rattle.diagram_ops.specs.private.ShortCuts.{IsShortCut};
ghost use Rattle.diagram_ops.specs.Relations.{relates, RelatesThrough};
ghost use Rattle.diagram_ops.specs.private.Scratch.{Keeps, Stands};
ghost use Rattle.diagram_store.specs.TripleTables.{known};
ghost use Rattle.diagram_ops.specs.declared.composing.Operand.TheVariants.{First, Second};

use crate::applying::{OR, apply};
use crate::copying::copy_out;
use crate::scratch::Scratch;
use bumpalo::Bump;
use diagram_store::{Branch, Diagram, TripleTable, independent_variables, node};
use std::alloc::Global;
use wpds_base::OutOfMemory;

/// The relation that leads from `x` to `z` exactly where `a` leads from `x` to some `y`, and `b` from `y` to `z`.
///
/// The relations are over the old and the new values of `n` bits: variable `2 i` is the old value of `i`, and
/// `2 i + 1` the new one. Conjunction and quantification are one walk through pairs of references, each of
/// which is worked out once (Burch, Clarke, McMillan, Dill, Hwang 1990).
pub fn compose_relations(
    alloc: Global,
    n: u32,
    a: &Diagram,
    b: &Diagram,
) -> Result<Diagram, OutOfMemory>
    requires first { IsOver (2 * n) a.now }
    requires second { IsOver (2 * n) b.now }
    ensures relates { IfOk result (λ d. (old new : ℕ → Bool) → IsTrue (relates d old new)
        ↔ RelatesThrough a.now b.now old new) }
    ensures variables { IfOk result (λ d. IsOver (2 * n) d) }
{
    // the law that gives the variables of the result
    independent_variables();
    let arena = Bump::new(alloc);
    // for a result as large as both operands, and what is made on the way
    let room = 2 * (a.nodes().len() + b.nodes().len());
    let mut scratch = Scratch::with_room(alloc, &arena, room)?;
    let mut results = TripleTable::with_room(alloc, room)?;
    let mut joins = TripleTable::new(alloc);
    let root = compose(a, b, &mut scratch, &mut results, &mut joins, a.root, b.root)?;
    let made = copy_out(alloc, &arena, &scratch, root)?;
    Ok(made)
}

/// One of the two relations. The new values of the first are the old ones of the second.
#[derive(Clone, Copy)]
pub(crate) enum Operand {
    First,
    Second,
}

// The composition of a reference of each relation, whose nodes are read where they stand. Each pair is worked out once.
fn compose(
    a: &Diagram,
    b: &Diagram,
    scratch: &mut Scratch,
    results: &mut TripleTable,
    joins: &mut TripleTable,
    x: u64,
    y: u64,
) -> Result<u64, OutOfMemory>
    requires reduced { IsReduced scratch.old }
    requires x { x < length a.now.nodes + 2 }
    requires y { y < length b.now.nodes + 2 }
    requires results { AreComposed a.now.nodes b.now.nodes scratch.old (known results.old) }
    requires joins { AreApplied 252 scratch.old (known joins.old) }
    ensures { IfOk result (λ r. Composes a.now.nodes b.now.nodes
        scratch.old scratch.new (known results.new) (known joins.new) x y r) }
{
    if x == 0 || y == 0 {
        return Ok(0);
    }
    let first = node(a.nodes(), x);
    let second = node(b.nodes(), y);
    let Some(place) = lowest(first, second) else {
        return Ok(1);
    };
    if let Some(result) = results.get(x, y, 0) {
        return Ok(result);
    }
    let xs = branches(Operand::First, place, x, first);
    let ys = branches(Operand::Second, place, y, second);
    let low = compose(a, b, scratch, results, joins, xs.0, ys.0)?;
    let high = compose(a, b, scratch, results, joins, xs.1, ys.1)?;
    let result = join(scratch, joins, place, low, high)?;
    results.insert(x, y, 0, result)?;
    Ok(result)
}

// The disjunction at the place of a value in the middle, else the choice by the variable that stays.
fn join(
    scratch: &mut Scratch,
    joins: &mut TripleTable,
    place: u64,
    low: u64,
    high: u64,
) -> Result<u64, OutOfMemory>
    requires reduced { IsReduced scratch.old }
    requires place { place / 2 < 2 ^ 32 }
    requires low { low < length scratch.old + 2 }
    requires high { high < length scratch.old + 2 }
    requires low_above { IsAbove scratch.old (place / 2) low }
    requires high_above { IsAbove scratch.old (place / 2) high }
    requires joins { AreApplied 252 scratch.old (known joins.old) }
    ensures reduced { IfOk result (λ _. IsReduced scratch.new) }
    ensures keeps { IfOk result (λ _. Keeps scratch.old scratch.new) }
    ensures joins { IfOk result (λ _. AreApplied 252 scratch.new (known joins.new)) }
    ensures stands { IfOk result (λ r.
        Stands scratch.new r (IsJoined scratch.new place low high) (λ v. 2 * v < place)) }
{
    if place % 2 == 1 {
        if let Some(known) = known_or(low, high) {
            return Ok(known);
        }
        let joined = apply(scratch, joins, OR, low, high, 0)?;
        return Ok(joined);
    }
    let chosen = scratch.branch((place / 2) as u32, low, high)?;
    Ok(chosen)
}

// The disjunction of two references, where it is one of them.
fn known_or(low: u64, high: u64) -> Option<u64>
    ensures { IfSome result (λ r. IsShortCut 252 low high 0 r) }
{
    if low == high || high == 0 {
        return Some(low);
    }
    if low == 0 {
        return Some(high);
    }
    None
}

// The lowest place of what two references name, if one of them is a node.
fn lowest(first: Option<Branch>, second: Option<Branch>) -> Option<u64>
    ensures lowest { result ≡ lower (place_in (composing.position First) first)
        (place_in (composing.position Second) second) }
    ensures of_variable { IfSome result (λ p. p / 2 < 2 ^ 32) }
{
    match (
        place_of(Operand::First, first),
        place_of(Operand::Second, second),
    ) {
        (Some(v), Some(w)) => Some(v.min(w)),
        (Some(v), None) => Some(v),
        (None, w) => w,
    }
}

fn place_of(operand: Operand, found: Option<Branch>) -> Option<u64>
    ensures place { result ≡ place_in (composing.position operand) found }
    ensures of_variable { IfSome result (λ p. p / 2 < 2 ^ 32) }
{
    match found {
        Some(node) => Some(position(operand, node.var)),
        None => None,
    }
}

/// The place of a variable of a relation: those of old, middle and new values of a number follow one another.
pub(crate) fn position(operand: Operand, var: u32) -> u64
    ensures position { result ≡ composing.position operand var }
    ensures of_variable { result / 2 < 2 ^ 32 }
{
    let first = 4 * u64::from(var / 2) + u64::from(var % 2);
    match operand {
        Operand::First => first,
        Operand::Second => first + 1,
    }
}

// Where the walk goes on from a reference, by what it names, where the bit at a place is false, and where it is true.
fn branches(operand: Operand, place: u64, reference: u64, found: Option<Branch>) -> (u64, u64)
    ensures low { result.0
        ≡ cofactor_of (composing.position operand) place false reference found }
    ensures high { result.1
        ≡ cofactor_of (composing.position operand) place true reference found }
{
    match found {
        Some(node) if position(operand, node.var) == place => (node.low, node.high),
        _ => (reference, reference),
    }
}
