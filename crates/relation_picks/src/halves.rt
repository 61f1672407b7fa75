//! The old and the new values among the bits of a diagram.

ghost use Rattle.std.specs.Prelude.{◌≡◌, ◌≤◌, ◌<◌, ◌*◌, ◌+◌, ℕ, IfOk, length};
ghost use Rattle.diagram_store.specs.Meaning.{bits_of};

use diagram_ops::Bits;
use std::alloc::Global;
use wpds_base::OutOfMemory;

/// The bits of one side: the old values where `side` is 0, and the new ones where it is 1.
pub(crate) fn one_side(alloc: Global, bits: &[bool], n: u32, side: u32) -> Result<Bits, OutOfMemory>
    requires n { n ≤ 24 }
    requires side { side < 2 }
    requires long { 2 * n ≤ length bits.now }
    ensures long { IfOk result (λ l. length l ≡ n) }
    ensures bits { IfOk result (λ l. (i : ℕ) → i < n
        → bits_of l i ≡ bits_of bits.now (2 * i + side)) }
{
    let mut list = Vec::with_capacity(alloc, n as usize)?;
    for i in 0..n {
        list.push(bits[(2 * i + side) as usize])?;
    }
    Ok(Bits::from_vec(list))
}
