ghost use Rattle.std.specs.Prelude.{◌≡◌, ◌≤◌, ℕ, Bool, false, IsTrue, IfOk, MatchOption, length};
ghost use Rattle.diagram_store.specs.Meaning.{bits_of};
ghost use Rattle.relation_laws.specs.Relations.{leads};
ghost use Rattle.relation_weights.specs.Relations.{relation_fits};
ghost use Rattle.relation_picks.specs.Picks.{AreBitsBelow, HasBits};

use crate::conditions::{give_side, keep_bits};
use crate::halves::one_side;
use diagram_ops::{Bits, pick};
use relation_weights::Relation;
use std::alloc::Global;
use wpds_base::OutOfMemory;

/// An old and a new state, each a bit for each number.
#[derive(Drop)]
pub struct StatePair {
    pub from: Bits,
    pub to: Bits,
}

/// A pair of a relation between states of `n` bits, or `None` for the empty relation.
///
/// Which of several pairs it gives is not said.
pub fn pick_pair(alloc: Global, n: u32, w: &Relation) -> Result<Option<StatePair>, OutOfMemory>
    requires n { n ≤ 24 }
    requires fits { IsTrue (relation_fits n w.now) }
    ensures { IfOk result (λ o. MatchOption o
        ((x y : ℕ → Bool) → leads w.now x y ≡ false)
        (λ p. (length p.from ≡ n) × (length p.to ≡ n)
        × IsTrue (leads w.now (bits_of p.from) (bits_of p.to)))) }
{
    let Some(bits) = pick(alloc, w.diagram(), 2 * n)? else {
        return Ok(None);
    };
    let from = one_side(alloc, bits.as_slice(), n, 0)?;
    let to = one_side(alloc, bits.as_slice(), n, 1)?;
    Ok(Some(StatePair { from, to }))
}

/// A state of `n` bits to which the relation leads from another, with the bits that are listed.
/// There is one.
///
/// Which of several it gives is not said.
pub fn pick_end(
    alloc: Global,
    n: u32,
    w: &Relation,
    from: &[bool],
    wanted: &[(u32, bool)],
) -> Result<Bits, OutOfMemory>
    requires n { n ≤ 24 }
    requires fits { IsTrue (relation_fits n w.now) }
    requires from { length from.now ≡ n }
    requires wanted { AreBitsBelow n wanted.now }
    requires there { (y : ℕ → Bool) × IsTrue (leads w.now (bits_of from.now) y)
        × HasBits wanted.now y }
    ensures long { IfOk result (λ y. length y ≡ n) }
    ensures leads { IfOk result (λ y.
        IsTrue (leads w.now (bits_of from.now) (bits_of y))) }
    ensures bits { IfOk result (λ y. HasBits wanted.now (bits_of y)) }
{
    let led = give_side(alloc, w.diagram(), 0, from)?;
    let met = keep_bits(alloc, led, wanted)?;
    let Some(bits) = pick(alloc, &met, 2 * n)? else {
        unreachable!();
    };
    one_side(alloc, bits.as_slice(), n, 1)
}
