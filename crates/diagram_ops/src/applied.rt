ghost use Rattle.std.specs.Prelude.{◌≡◌, ◌<◌, ℕ, Bool, false, IfOk};
ghost use Rattle.truth_tables.specs.Tables.{value2_of, value3_of};
ghost use Rattle.diagram_store.specs.Diagrams.{IsOver, meaning};

use crate::applying::apply;
use crate::copying::copy_out;
use crate::loading::load;
use crate::scratch::Scratch;
use bumpalo::Bump;
use diagram_store::{Diagram, TripleTable, independent_variables};
use std::alloc::Global;
use truth_tables::value2;
use wpds_base::OutOfMemory;

/// The operator of three places with the table `T`, on all bits.
///
/// Each triple of references of the operands is worked out once (Bryant 1986), so there is at most one
/// scratch node for each.
pub fn apply3<const T: u8>(
    alloc: Global,
    a: &Diagram,
    b: &Diagram,
    c: &Diagram,
) -> Result<Diagram, OutOfMemory>
    ensures value { IfOk result (λ d. (bits : ℕ → Bool) → meaning d bits
        ≡ value3_of T (meaning a.now bits) (meaning b.now bits) (meaning c.now bits)) }
    ensures variables { IfOk result (λ d. (limit : ℕ)
        → IsOver limit a.now → IsOver limit b.now → IsOver limit c.now → IsOver limit d) }
{
    apply_in_arena(alloc, T, a, b, c)
}

// The operator with a table, in an arena of its own.
fn apply_in_arena(
    alloc: Global,
    table: u8,
    a: &Diagram,
    b: &Diagram,
    c: &Diagram,
) -> Result<Diagram, OutOfMemory>
    ensures value { IfOk result (λ d. (bits : ℕ → Bool) → meaning d bits
        ≡ value3_of table (meaning a.now bits) (meaning b.now bits) (meaning c.now bits)) }
    ensures variables { IfOk result (λ d. (limit : ℕ)
        → IsOver limit a.now → IsOver limit b.now → IsOver limit c.now → IsOver limit d) }
{
    // the law that gives the variables of the result
    independent_variables();
    let arena = Bump::new(alloc);
    // twice the nodes of the operands: for them, and for a result as large as all of them
    let count = a.nodes().len() + b.nodes().len() + c.nodes().len();
    let mut scratch = Scratch::of_nodes(alloc, &arena, 2 * count, a.nodes())?;
    let y = load(alloc, &mut scratch, b)?;
    let z = load(alloc, &mut scratch, c)?;
    let mut results = TripleTable::with_room(alloc, count)?;
    let root = apply(&mut scratch, &mut results, table, a.root, y, z)?;
    if root == a.root {
        let same = a.copy(alloc)?;
        return Ok(same);
    }
    let made = copy_out(alloc, &arena, &scratch, root)?;
    Ok(made)
}

/// The operator of three places with this table, on all bits.
pub fn apply_table3(
    alloc: Global,
    table: u8,
    a: &Diagram,
    b: &Diagram,
    c: &Diagram,
) -> Result<Diagram, OutOfMemory>
    ensures value { IfOk result (λ d. (bits : ℕ → Bool) → meaning d bits
        ≡ value3_of table (meaning a.now bits) (meaning b.now bits) (meaning c.now bits)) }
    ensures variables { IfOk result (λ d. (limit : ℕ)
        → IsOver limit a.now → IsOver limit b.now → IsOver limit c.now → IsOver limit d) }
{
    apply_in_arena(alloc, table, a, b, c)
}

/// The operator of two places with the table `T`, on all bits.
///
/// Each pair of references of the operands is worked out once, so there is at most one scratch node for each.
pub fn apply2<const T: u8>(alloc: Global, a: &Diagram, b: &Diagram) -> Result<Diagram, OutOfMemory>
    requires { T < 16 }
    ensures value { IfOk result (λ d. (bits : ℕ → Bool) → meaning d bits
        ≡ value2_of T (meaning a.now bits) (meaning b.now bits)) }
    ensures variables { IfOk result (λ d. (limit : ℕ)
        → IsOver limit a.now → IsOver limit b.now → IsOver limit d) }
{
    apply_table2(alloc, T, a, b)
}

/// The operator of two places with this table, on all bits.
pub fn apply_table2(
    alloc: Global,
    table: u8,
    a: &Diagram,
    b: &Diagram,
) -> Result<Diagram, OutOfMemory>
    requires { table < 16 }
    ensures value { IfOk result (λ d. (bits : ℕ → Bool) → meaning d bits
        ≡ value2_of table (meaning a.now bits) (meaning b.now bits)) }
    ensures variables { IfOk result (λ d. (limit : ℕ)
        → IsOver limit a.now → IsOver limit b.now → IsOver limit d) }
{
    let never = Diagram::constant(alloc, false);
    let made = apply_in_arena(alloc, widen(table), a, b, &never)?;
    Ok(made)
}

// A table of three places that is this one where the third is false.
fn widen(table: u8) -> u8
    requires { table < 16 }
    ensures { (p q : Bool) → value3_of result p q false ≡ value2_of table p q }
{
    u8::from(value2(table, false, false))
        + 4 * u8::from(value2(table, false, true))
        + 16 * u8::from(value2(table, true, false))
        + 64 * u8::from(value2(table, true, true))
}
