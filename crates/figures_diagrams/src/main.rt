//! Prints how many nodes some decision diagrams have. Time and memory are measured from outside.
#![tactic(auto)]

ghost use Rattle.std.specs.Prelude.{◌<◌};

use anyhow::{bail, ensure};
use diagram_ops::{apply2, apply3, compose_relations};
use diagram_store::Diagram;
use std::alloc::Global;
use std::env;
use wpds_base::OutOfMemory;

// Operators of two and of three places, by their tables.
const AND: u8 = 8;

const EQUAL: u8 = 9;

const OR: u8 = 14;

const OR_NOT: u8 = 13;

const SUM: u8 = 150;

const MAJORITY: u8 = 232;

// How many bits a state of the relation has.
const BITS: u32 = 24;

// How often the relation is composed with itself.
const ROUNDS: u32 = 10;

// How often an operation that is measured is done.
const REPEATS: u32 = 1000;

// Conjunctions of so many random clauses.
const CLAUSES: u64 = 1000;

// The variables of random clauses.
const VARIABLES: u64 = 24;

// The relation 'new is old plus a number' over so many bits, the lowest first, with no carry out of the last.
//
// Variable `2 v` is the old bit `v`, and `2 v + 1` the new one.
fn plus(alloc: Global, bits: u32, number: u64) -> Result<Diagram, OutOfMemory>
    requires { bits < 64 }
{
    let mut all = Diagram::constant(alloc, true);
    let mut carry = Diagram::constant(alloc, false);
    for v in 0..bits {
        let old = Diagram::literal(alloc, 2 * v)?;
        let new = Diagram::literal(alloc, 2 * v + 1)?;
        let added = Diagram::constant(alloc, (number >> v) & 1 == 1);
        let sum = apply3::<SUM>(alloc, &old, &added, &carry)?;
        let bit = apply2::<EQUAL>(alloc, &new, &sum)?;
        all = apply2::<AND>(alloc, &all, &bit)?;
        carry = apply3::<MAJORITY>(alloc, &old, &added, &carry)?;
    }
    Ok(all)
}

// The relation that two numbers of so many bits have with their sum, with no carry out of the last.
//
// Variables `3 v`, `3 v + 1` and `3 v + 2` are bit `v` of the two and of the sum.
fn adder(alloc: Global, bits: u32) -> Result<Diagram, OutOfMemory>
    requires { bits < 64 }
{
    let mut all = Diagram::constant(alloc, true);
    let mut carry = Diagram::constant(alloc, false);
    for v in 0..bits {
        let first = Diagram::literal(alloc, 3 * v)?;
        let second = Diagram::literal(alloc, 3 * v + 1)?;
        let third = Diagram::literal(alloc, 3 * v + 2)?;
        let sum = apply3::<SUM>(alloc, &first, &second, &carry)?;
        let bit = apply2::<EQUAL>(alloc, &third, &sum)?;
        all = apply2::<AND>(alloc, &all, &bit)?;
        carry = apply3::<MAJORITY>(alloc, &first, &second, &carry)?;
    }
    Ok(all)
}

// The relation over so many bits, composed with itself so many times.
fn compose_times(
    alloc: Global,
    relation: &Diagram,
    bits: u32,
    times: u32,
) -> anyhow::Result<Diagram> {
    let mut made = relation.copy(alloc)?;
    for _ in 0..times {
        ensure!(
            made.has_variables_below(2 * u64::from(bits)),
            "a variable is past the bits"
        );
        made = compose_relations(alloc, bits, &made, &made)?;
    }
    Ok(made)
}

// The assignment of the conjunction of two bits to a bit, over so many bits.
fn assignment(
    alloc: Global,
    bits: u32,
    target: u32,
    first: u32,
    second: u32,
) -> Result<Diagram, OutOfMemory>
    requires bits { bits < 64 }
    requires first { first < 64 }
    requires second { second < 64 }
{
    let mut all = Diagram::constant(alloc, true);
    for v in 0..bits {
        let new = Diagram::literal(alloc, 2 * v + 1)?;
        let value = if v == target {
            let one = Diagram::literal(alloc, 2 * first)?;
            let other = Diagram::literal(alloc, 2 * second)?;
            apply2::<AND>(alloc, &one, &other)?
        } else {
            Diagram::literal(alloc, 2 * v)?
        };
        let bit = apply2::<EQUAL>(alloc, &new, &value)?;
        all = apply2::<AND>(alloc, &all, &bit)?;
    }
    Ok(all)
}

// The relation of so many bits in which those from a number on stay.
fn staying(alloc: Global, bits: u32, from: u32) -> Result<Diagram, OutOfMemory>
    requires { bits < 64 }
{
    let mut all = Diagram::constant(alloc, true);
    for v in from..bits {
        let old = Diagram::literal(alloc, 2 * v)?;
        let new = Diagram::literal(alloc, 2 * v + 1)?;
        let bit = apply2::<EQUAL>(alloc, &new, &old)?;
        all = apply2::<AND>(alloc, &all, &bit)?;
    }
    Ok(all)
}

/// An operation on relations that is measured.
#[derive(Clone, Copy)]
enum Operation {
    Composition,
    Union,
    /// A call returns: the callee's bit 0 is kept, and the caller's other bits stay.
    Return,
}

// An operation on two relations of so many bits, once.
fn operated(
    alloc: Global,
    operation: Operation,
    bits: u32,
    a: &Diagram,
    b: &Diagram,
    stays: &Diagram,
) -> anyhow::Result<Diagram> {
    let width = 2 * u64::from(bits);
    let is_over = a.has_variables_below(width) && b.has_variables_below(width);
    ensure!(is_over, "a variable is past the bits");
    match operation {
        Operation::Composition => Ok(compose_relations(alloc, bits, a, b)?),
        Operation::Union => Ok(apply2::<OR>(alloc, a, b)?),
        Operation::Return => {
            let led = compose_relations(alloc, bits, a, b)?;
            Ok(apply2::<AND>(alloc, &led, stays)?)
        }
    }
}

// An operation, so many times over relations of so many bits. The number of the nodes that it makes.
fn operate_times(alloc: Global, operation: Operation, bits: u32) -> anyhow::Result<u64>
    requires { bits < 64 }
{
    let a = assignment(alloc, bits, 0, 1, 2)?;
    let stays = staying(alloc, bits, 1)?;
    let b = match operation {
        Operation::Return => staying(alloc, 1, 0)?,
        _ => assignment(alloc, bits, 3, 0, 1)?,
    };
    let mut nodes = 0u64;
    for _ in 0..REPEATS {
        let made = operated(alloc, operation, bits, &a, &b, &stays)?;
        nodes = nodes.saturating_add(made.nodes().len() as u64);
    }
    Ok(nodes)
}

// An operation on relations of 4, 6 and 8 bits.
fn print_operation(
    rt: &impl Print,
    alloc: Global,
    operation: Operation,
    name: &str,
) -> anyhow::Result<()> {
    let four = operate_times(alloc, operation, 4)?;
    let six = operate_times(alloc, operation, 6)?;
    let eight = operate_times(alloc, operation, 8)?;
    println!(rt; "{REPEATS} {name} of 4, 6 and 8 bits each: {four}, {six} and {eight} nodes")?;
    Ok(())
}

// The next number of a sequence that has no plain order (splitmix64, Steele, Lea, Flood 2014).
const fn mixed(number: u64) -> u64 {
    let a = number.wrapping_mul(0x9e3779b97f4a7c15);
    let b = (a ^ (a >> 30)).wrapping_mul(0xbf58476d1ce4e5b9);
    let c = (b ^ (b >> 27)).wrapping_mul(0x94d049bb133111eb);
    c ^ (c >> 31)
}

// The disjunction of so many random literals.
fn clause(alloc: Global, number: u64, width: u32) -> Result<Diagram, OutOfMemory> {
    let mut any = Diagram::constant(alloc, false);
    for k in 0..width {
        let drawn = mixed(
            number
                .wrapping_mul(64)
                .wrapping_add(u64::from(k))
                .wrapping_add(1),
        );
        let literal = Diagram::literal(alloc, (drawn % VARIABLES) as u32)?;
        any = if (drawn >> 32) & 1 == 1 {
            apply2::<OR>(alloc, &any, &literal)?
        } else {
            apply2::<OR_NOT>(alloc, &any, &literal)?
        };
    }
    Ok(any)
}

// 'new is old plus one', composed with itself: each time what is added is doubled.
fn print_successor(rt: &impl Print, alloc: Global) -> anyhow::Result<()> {
    let one = plus(alloc, BITS, 1)?;
    let made = compose_times(alloc, &one, BITS, ROUNDS)?;
    let direct = plus(alloc, BITS, 1 << ROUNDS)?;
    println!(rt;
        "successor of {BITS} bits: {} nodes; composed {ROUNDS} times: {} nodes; the same as plus {}: {}",
        one.nodes().len(),
        made.nodes().len(),
        1u64 << ROUNDS,
        made.same(&direct)
    )?;
    Ok(())
}

fn print_adder(rt: &impl Print, alloc: Global) -> anyhow::Result<()> {
    let made = adder(alloc, 8)?;
    println!(rt; "adder of 8 + 8 + 8 bits: {} nodes", made.nodes().len())?;
    Ok(())
}

// The conjunction grows by one clause at a time.
fn print_clauses(rt: &impl Print, alloc: Global, width: u32) -> anyhow::Result<()> {
    let mut all = Diagram::constant(alloc, true);
    let mut most = 0usize;
    let mut whole = 0u64;
    for number in 0..CLAUSES {
        let next = clause(alloc, number, width)?;
        all = apply2::<AND>(alloc, &all, &next)?;
        most = most.max(all.nodes().len());
        if all.root != 0 {
            whole = number + 1;
        }
    }
    println!(rt;
        "{CLAUSES} clauses of {width}: {} nodes at last, {most} at most; {whole} are true together",
        all.nodes().len()
    )?;
    Ok(())
}

fn print_figure(rt: &impl Print, alloc: Global, word: &str) -> anyhow::Result<()> {
    match word {
        "successor" => print_successor(rt, alloc),
        "adder" => print_adder(rt, alloc),
        "clauses-of-3" => print_clauses(rt, alloc, 3),
        "clauses-of-6" => print_clauses(rt, alloc, 6),
        "compositions" => print_operation(rt, alloc, Operation::Composition, word),
        "unions" => print_operation(rt, alloc, Operation::Union, word),
        "returns" => print_operation(rt, alloc, Operation::Return, word),
        _ => bail!(
            "words: successor, adder, clauses-of-3, clauses-of-6, compositions, unions, returns"
        ),
    }
}

fn main(rt: HostRuntime) -> anyhow::Result<()> {
    for word in env::args(&rt)?.skip(1) {
        print_figure(&rt, rt.alloc(), &word)?;
    }
    Ok(())
}
