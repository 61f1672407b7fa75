//! Diagrams with some bits given.

ghost use Rattle.std.specs.Prelude.{◌≡◌, ◌↔◌, ◌≤◌, ◌<◌, ◌*◌, ◌&&◌, ℕ, Bool, IsTrue, IfOk, length};
ghost use Rattle.truth_tables.specs.Tables.{value2_of};
ghost use Rattle.diagram_store.specs.Diagrams.{IsOver, meaning};
ghost use Rattle.diagram_store.specs.Meaning.{bits_of};
ghost use Rattle.relation_laws.specs.States.{new_state, same_bit};
ghost use Rattle.relation_picks.specs.Picks.{AreBitsBelow, HasBits};
ghost use Rattle.relation_picks.specs.private.Sides.{with_side};

use diagram_ops::{apply_table2, restrict};
use diagram_store::Diagram;
use std::alloc::Global;
use wpds_base::OutOfMemory;

// The tables of a first place that is true where the second is, and where it is not.
const AND: u8 = 8;

const AND_NOT: u8 = 4;

/// The diagram with the first bits of one side given: of the old values where `side` is 0, and of
/// the new ones where it is 1.
pub(crate) fn give_side(
    alloc: Global,
    d: &Diagram,
    side: u32,
    values: &[bool],
) -> Result<Diagram, OutOfMemory>
    requires side { side < 2 }
    requires few { length values.now ≤ 24 }
    ensures value { IfOk result (λ e. (bits : ℕ → Bool) → meaning e bits
        ≡ meaning d.now (with_side side (length values.now) (bits_of values.now) bits)) }
    ensures variables { IfOk result (λ e. (limit : ℕ) → IsOver limit d.now → IsOver limit e) }
{
    let mut made = d.copy(alloc)?;
    for i in 0..values.len() as u32 {
        made = restrict(alloc, &made, 2 * i + side, values[i as usize])?;
    }
    Ok(made)
}

// The table of a first place that is true where the second is this bit.
fn table_of(bit: bool) -> u8
    ensures small { result < 16 }
    ensures value { (p q : Bool) → value2_of result p q ≡ (p && same_bit bit q) }
{
    if bit { AND } else { AND_NOT }
}

// The diagram where the new value of a number is this bit.
fn keep_bit(alloc: Global, d: &Diagram, number: u32, bit: bool) -> Result<Diagram, OutOfMemory>
    requires number { number < 24 }
    ensures value { IfOk result (λ e. (bits : ℕ → Bool) → meaning e bits
        ≡ (meaning d.now bits && same_bit bit (new_state bits number))) }
    ensures variables { IfOk result (λ e. (n : ℕ) → number < n → IsOver (2 * n) d.now
        → IsOver (2 * n) e) }
{
    let literal = Diagram::literal(alloc, 2 * number + 1)?;
    apply_table2(alloc, table_of(bit), d, &literal)
}

/// The diagram where the new values have the bits that are listed.
pub(crate) fn keep_bits(
    alloc: Global,
    d: Diagram,
    wanted: &[(u32, bool)],
) -> Result<Diagram, OutOfMemory>
    requires { AreBitsBelow 24 wanted.now }
    ensures value { IfOk result (λ e. (bits : ℕ → Bool) → IsTrue (meaning e bits)
        ↔ (IsTrue (meaning d bits) × HasBits wanted.now (new_state bits))) }
    ensures variables { IfOk result (λ e. (n : ℕ) → AreBitsBelow n wanted.now
        → IsOver (2 * n) d → IsOver (2 * n) e) }
{
    let mut made = d;
    for (number, bit) in wanted {
        made = keep_bit(alloc, &made, *number, *bit)?;
    }
    Ok(made)
}
