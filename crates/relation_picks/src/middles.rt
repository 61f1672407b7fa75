ghost use Rattle.std.specs.Prelude.{◌≡◌, ◌≤◌, ◌<◌, ◌+◌, ◌*◌, ◌&&◌, ℕ, suc, Bool, IsTrue, IfOk, length, slice_index};
ghost use Rattle.diagram_store.specs.Diagrams.{IsOver, meaning};
ghost use Rattle.diagram_store.specs.Meaning.{bits_of};
ghost use Rattle.relation_laws.specs.Relations.{leads};
ghost use Rattle.relation_weights.specs.Relations.{relation_fits};

use crate::conditions::give_side;
use crate::halves::one_side;
use diagram_ops::{Bits, apply_table2, pick, rename};
use diagram_store::Diagram;
use relation_weights::Relation;
use std::alloc::Global;
use wpds_base::OutOfMemory;

// The table of conjunction.
const AND: u8 = 8;

// The numbers from 1 on.
fn later_numbers(alloc: Global, count: u32) -> Result<Vec<u32>, OutOfMemory>
    requires { count ≤ 48 }
    ensures long { IfOk result (λ v. length v.items ≡ count) }
    ensures numbers { IfOk result (λ v. (k : ℕ) → k < count → slice_index v.items k ≡ suc k) }
{
    let mut numbers = Vec::with_capacity(alloc, count as usize)?;
    for k in 0..count {
        numbers.push(k + 1)?;
    }
    Ok(numbers)
}

// Where the first is true, and the second is true of the bits from the second on.
fn meet(alloc: Global, n: u32, first: &Diagram, second: &Diagram) -> Result<Diagram, OutOfMemory>
    requires n { n ≤ 24 }
    requires first { IsOver (2 * n) first.now }
    requires second { IsOver (2 * n) second.now }
    ensures value { IfOk result (λ e. (bits : ℕ → Bool) → meaning e bits
        ≡ (meaning first.now bits && meaning second.now (λ v. bits (suc v)))) }
    ensures variables { IfOk result (λ e. IsOver (2 * n + 1) e) }
{
    let names = later_numbers(alloc, 2 * n)?;
    let moved = rename(alloc, second, &names)?;
    apply_table2(alloc, AND, first, &moved)
}

/// A state of `n` bits to which the first relation leads from a state, and from which the second
/// one leads to another. There is one.
///
/// Which of several it gives is not said.
pub fn pick_middle(
    alloc: Global,
    n: u32,
    first: &Relation,
    second: &Relation,
    from: &[bool],
    to: &[bool],
) -> Result<Bits, OutOfMemory>
    requires n { n ≤ 24 }
    requires first { IsTrue (relation_fits n first.now) }
    requires second { IsTrue (relation_fits n second.now) }
    requires from { length from.now ≡ n }
    requires to { length to.now ≡ n }
    requires there { (y : ℕ → Bool) × IsTrue (leads first.now (bits_of from.now) y)
        × IsTrue (leads second.now y (bits_of to.now)) }
    ensures long { IfOk result (λ y. length y ≡ n) }
    ensures first { IfOk result (λ y.
        IsTrue (leads first.now (bits_of from.now) (bits_of y))) }
    ensures second { IfOk result (λ y.
        IsTrue (leads second.now (bits_of y) (bits_of to.now))) }
{
    let led = give_side(alloc, first.diagram(), 0, from)?;
    let leading = give_side(alloc, second.diagram(), 1, to)?;
    let both = meet(alloc, n, &led, &leading)?;
    let Some(bits) = pick(alloc, &both, 2 * n + 1)? else {
        unreachable!();
    };
    one_side(alloc, bits.as_slice(), n, 1)
}
