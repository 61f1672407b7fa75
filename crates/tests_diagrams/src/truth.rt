ghost use Rattle.std.specs.Prelude.{◌<◌, ◌^◌};

use diagram_ops::{
    apply_table2, apply_table3, apply2, compose_relations, exists, rename, restrict,
};
use diagram_store::Diagram;
use std::alloc::Global;
use std::test::Fail;
use truth_tables::{value2, value3};
use wpds_base::OutOfMemory;

// A function of six variables is the table of its 64 rows. On row k, variable v is bit v of k.
const ROWS: u32 = 64;

const VARIABLES: u32 = 6;

const fn bit(row: u32, var: u32) -> bool
    requires { var < 32 }
{
    (row >> var) & 1 == 1
}

const fn is_in(table: u64, row: u32) -> bool
    requires { row < 64 }
{
    (table >> row) & 1 == 1
}

// The row with the value of a variable set.
const fn row_with(row: u32, var: u32, value: bool) -> u32
    requires { var < 6 }
    ensures { result < 64 }
{
    let yes = (row | (1 << var)) % ROWS;
    if value {
        yes
    } else {
        (yes ^ (1 << var)) % ROWS
    }
}

// The next number of a sequence that has no plain order.
const fn next(seed: u64) -> u64 {
    let mixed = seed
        .wrapping_mul(6364136223846793005)
        .wrapping_add(1442695040888963407);
    mixed ^ (mixed >> 29)
}

// The diagram that is true on one row.
fn of_row(alloc: Global, row: u32) -> Result<Diagram, OutOfMemory> {
    let mut all = Diagram::constant(alloc, true);
    for v in 0..VARIABLES {
        let literal = Diagram::literal(alloc, v)?;
        let table = if bit(row, v) { 8 } else { 4 };
        all = apply_table2(alloc, table, &all, &literal)?;
    }
    Ok(all)
}

// The diagram of a function, as the disjunction of its rows.
fn of_table(alloc: Global, table: u64) -> Result<Diagram, OutOfMemory> {
    let mut whole = Diagram::constant(alloc, false);
    for row in 0..ROWS {
        if is_in(table, row) {
            let one = of_row(alloc, row)?;
            whole = apply2::<14>(alloc, &whole, &one)?;
        }
    }
    Ok(whole)
}

// The value on a row.
fn value_on(d: &Diagram, row: u32) -> bool {
    let bits = [
        bit(row, 0),
        bit(row, 1),
        bit(row, 2),
        bit(row, 3),
        bit(row, 4),
        bit(row, 5),
    ];
    d.has_variables_below(6) && d.value(&bits)
}

// Functions of which about a half, an eighth and seven eighths of the rows are true.
const fn functions(seed: u64) -> [u64; 3] {
    let a = next(seed);
    let b = next(a);
    let c = next(b);
    [a, a & b & c, a | b | c]
}

#[test]
fn tables_of_two_and_three(rt: HostRuntime) -> Result<(), Fail> {
    let alloc = rt.alloc();
    for seed in 1u64..5 {
        let [a, b, c] = functions(seed);
        let x = of_table(alloc, a)?;
        let y = of_table(alloc, b)?;
        let z = of_table(alloc, c)?;
        for t in 0u8..16 {
            let two = apply_table2(alloc, t, &x, &y)?;
            let three = apply_table3(alloc, 16 * t + 9, &x, &y, &z)?;
            for row in 0..ROWS {
                let (p, q, r) = (is_in(a, row), is_in(b, row), is_in(c, row));
                assert_eq!(rt; value_on(&two, row), value2(t, p, q), "table {t}");
                assert_eq!(rt;
                    value_on(&three, row),
                    value3(16 * t + 9, p, q, r),
                    "table {t}"
                );
            }
        }
    }
    Ok(())
}

// Whether a function is true on some row that differs from this one in some of the variables of a set at most.
fn true_on_some(table: u64, set: u32, row: u32) -> bool {
    let mut found = false;
    for other in 0..ROWS {
        found = found || ((other ^ row) & !set == 0 && is_in(table, other));
    }
    found
}

#[test]
fn quantified_tables(rt: HostRuntime) -> Result<(), Fail> {
    let alloc = rt.alloc();
    for seed in 11u64..14 {
        for table in functions(seed) {
            let d = of_table(alloc, table)?;
            for set in [0u32, 1, 32, 6, 24, 42, 21, 62, 63] {
                let mut vars = vec![in alloc; 9u32]?;
                for v in 0..VARIABLES {
                    if bit(set, v) {
                        vars.push(v)?;
                    }
                }
                let some = exists(alloc, &d, &vars)?;
                for row in 0..ROWS {
                    assert_eq!(rt;
                        value_on(&some, row),
                        true_on_some(table, set, row),
                        "set {set}"
                    );
                }
            }
        }
    }
    Ok(())
}

#[test]
fn restricted_tables(rt: HostRuntime) -> Result<(), Fail> {
    let alloc = rt.alloc();
    for seed in 21u64..24 {
        for table in functions(seed) {
            let d = of_table(alloc, table)?;
            for v in 0..VARIABLES {
                let no = restrict(alloc, &d, v, false)?;
                let yes = restrict(alloc, &d, v, true)?;
                for row in 0..ROWS {
                    let (off, on) = (row_with(row, v, false), row_with(row, v, true));
                    assert_eq!(rt; value_on(&no, row), is_in(table, off), "variable {v}");
                    assert_eq!(rt; value_on(&yes, row), is_in(table, on), "variable {v}");
                }
            }
        }
    }
    Ok(())
}

// The value on twelve bits.
fn value_on_twelve(d: &Diagram, row: u32) -> bool {
    let bits = [
        bit(row, 0),
        bit(row, 1),
        bit(row, 2),
        bit(row, 3),
        bit(row, 4),
        bit(row, 5),
        bit(row, 6),
        bit(row, 7),
        bit(row, 8),
        bit(row, 9),
        bit(row, 10),
        bit(row, 11),
    ];
    d.has_variables_below(12) && d.value(&bits)
}

// Variables 0 to 5 become 0, 2, 3, 7, 8 and 11.
#[test]
fn renamed_tables(rt: HostRuntime) -> Result<(), Fail> {
    let alloc = rt.alloc();
    let names = [0u32, 2, 3, 7, 8, 11];
    for seed in 31u64..33 {
        for table in functions(seed) {
            let d = of_table(alloc, table)?;
            assert!(rt; d.has_variables_below(6));
            let renamed = rename(alloc, &d, &names)?;
            for row in 0u32..4096 {
                let old = u32::from(bit(row, 0))
                    + 2 * u32::from(bit(row, 2))
                    + 4 * u32::from(bit(row, 3))
                    + 8 * u32::from(bit(row, 7))
                    + 16 * u32::from(bit(row, 8))
                    + 32 * u32::from(bit(row, 11));
                assert_eq!(rt;
                    value_on_twelve(&renamed, row),
                    is_in(table, old % ROWS),
                    "row {row}"
                );
            }
        }
    }
    Ok(())
}

// The row of a pair of states of three bits: the old value of i is variable 2 i, the new one 2 i + 1.
const fn pair(old: u32, new: u32) -> u32
    requires old { old < 8 }
    requires new { new < 8 }
    ensures { result < 64 }
{
    (old % 2)
        + 2 * (new % 2)
        + 4 * (old / 2 % 2)
        + 8 * (new / 2 % 2)
        + 16 * (old / 4 % 2)
        + 32 * (new / 4 % 2)
}

// Whether the first relation leads to some state from which the second leads on.
fn leads(first: u64, second: u64, old: u32, new: u32) -> bool
    requires old { old < 8 }
    requires new { new < 8 }
{
    let mut found = false;
    for middle in 0u32..8 {
        found = found || (is_in(first, pair(old, middle)) && is_in(second, pair(middle, new)));
    }
    found
}

#[test]
fn composed_tables(rt: HostRuntime) -> Result<(), Fail> {
    let alloc = rt.alloc();
    for seed in 41u64..44 {
        for first in functions(seed) {
            let x = of_table(alloc, first)?;
            for second in functions(next(seed)) {
                let y = of_table(alloc, second)?;
                assert!(rt; x.has_variables_below(6));
                assert!(rt; y.has_variables_below(6));
                let composed = compose_relations(alloc, 3, &x, &y)?;
                assert!(rt; composed.has_variables_below(6));
                for old in 0u32..8 {
                    for new in 0u32..8 {
                        let want = leads(first, second, old, new);
                        assert_eq!(rt; value_on(&composed, pair(old, new)), want, "{old} to {new}");
                    }
                }
            }
        }
    }
    Ok(())
}
