//! Operations on a table of nodes that stays, against the same ones done afresh.

ghost use Rattle.std.specs.Prelude.{◌+◌, ◌<◌, length};

use diagram_ops::{NodeTable, apply_table2, compose_relations};
use diagram_store::Diagram;
use std::alloc::Global;
use std::test::Fail;
use wpds_base::OutOfMemory;

const OPERATIONS: u32 = 100_000;

// Of so many operations one is compared.
const APART: u32 = 50;

// How many references are operands by turns.
const POOL: usize = 64;

// How many variables there are: four bits, each with an old and a new value.
const VARIABLES: u32 = 8;

// A number after another, which look random (Marsaglia 2003).
fn next_number(state: u64) -> u64 {
    let first = state ^ (state << 13);
    let second = first ^ (first >> 7);
    second ^ (second << 17)
}

// The reference, or that of false, where the table has none such.
fn within(table: &NodeTable, reference: u32) -> u32
    ensures { result < length table.now + 2 }
{
    if (reference as usize) < table.references() {
        reference
    } else {
        0
    }
}

fn on_table(table: &mut NodeTable, which: u64, x: u32, y: u32) -> Result<u32, OutOfMemory> {
    let x = within(table, x);
    let y = within(table, y);
    match which % 3 {
        0 => table.union(x, y),
        1 => table.intersection(x, y),
        _ => table.composition(x, y),
    }
}

fn afresh(alloc: Global, which: u64, a: &Diagram, b: &Diagram) -> Result<Diagram, OutOfMemory> {
    match which % 3 {
        0 => apply_table2(alloc, 14, a, b),
        1 => apply_table2(alloc, 8, a, b),
        _ => composed(alloc, a, b),
    }
}

fn composed(alloc: Global, a: &Diagram, b: &Diagram) -> Result<Diagram, OutOfMemory> {
    if !a.has_variables_below(8) || !b.has_variables_below(8) {
        return Ok(Diagram::constant(alloc, false));
    }
    let made = compose_relations(alloc, 4, a, b)?;
    Ok(made)
}

fn exported(alloc: Global, table: &NodeTable, reference: u32) -> Result<Diagram, OutOfMemory> {
    let r = within(table, reference);
    let made = table.diagram(alloc, r)?;
    Ok(made)
}

// An operation on two of the pool, and its result.
#[derive(Clone, Copy)]
struct Trial {
    which: u64,
    x: u32,
    y: u32,
    result: u32,
}

// An operation on two of the pool, whose result takes a place there.
fn tried(table: &mut NodeTable, pool: &mut [u32; POOL], random: u64) -> Result<Trial, OutOfMemory> {
    let which = random >> 32;
    let x = pool[(random >> 8) as usize % POOL];
    let y = pool[(random >> 16) as usize % POOL];
    let result = on_table(table, which, x, y)?;
    pool[(random >> 24) as usize % POOL] = result;
    Ok(Trial {
        which,
        x,
        y,
        result,
    })
}

// Whether the diagram of the result is that of the operation done afresh on the operands' diagrams.
fn agrees(alloc: Global, table: &NodeTable, trial: Trial) -> Result<bool, OutOfMemory> {
    let a = exported(alloc, table, trial.x)?;
    let b = exported(alloc, table, trial.y)?;
    let made = exported(alloc, table, trial.result)?;
    let want = afresh(alloc, trial.which, &a, &b)?;
    Ok(made.same(&want))
}

// Puts a variable into the pool, so that it does not come to constants alone.
fn renew(
    alloc: Global,
    table: &mut NodeTable,
    pool: &mut [u32; POOL],
    random: u64,
) -> Result<(), OutOfMemory> {
    let literal = Diagram::literal(alloc, (random >> 40) as u32 % VARIABLES)?;
    pool[(random >> 48) as usize % POOL] = table.load(alloc, &literal)?;
    Ok(())
}

#[test]
fn random_operations(rt: HostRuntime) -> Result<(), Fail> {
    let alloc = rt.alloc();
    let mut table = NodeTable::new(alloc);
    let mut pool = [0u32; POOL];
    let mut random: u64 = 88_172_645_463_325_252;
    for k in 0..OPERATIONS {
        random = next_number(random);
        if k % 3 == 0 {
            renew(alloc, &mut table, &mut pool, random)?;
        }
        let trial = tried(&mut table, &mut pool, random)?;
        if k % APART == 0 {
            let is_same = agrees(alloc, &table, trial)?;
            assert!(rt; is_same, "operation {k}");
        }
    }
    println!(rt; "{} references", table.references())?;
    Ok(())
}
