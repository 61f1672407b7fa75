ghost use Rattle.std.specs.Prelude.{◌≡◌, ◌↔◌, IsTrue};

use crate::masks::is_in;

/// A weight: what runs do to sets of `64 * N` facts. Fact `f` is bit `f % 64` of word `f / 64`.
#[derive(Clone, Copy, Debug, PartialEq, Eq)]
pub enum GenKillW<const N: usize> {
    /// No run.
    Zero,
    /// The function `x -> (x & keep) | gens`, in which no fact is generated that is not kept.
    Map { keep: [u64; N], gens: [u64; N] },
}

impl<const N: usize> GenKillW<N> {
    ghost use Rattle.genkill_weights.specs.Effects.{generates, kills};
    ghost use Rattle.genkill_weights.specs.declared.weight.GenKillW.TheVariants.{Zero};

    /// Whether there is no run.
    pub fn is_zero(&self) -> bool
        ensures { IsTrue result ↔ (self.now ≡ Zero) }
    {
        match self {
            GenKillW::Zero => true,
            GenKillW::Map { .. } => false,
        }
    }

    /// Whether a fact holds after some of these runs, whatever held before. Zero generates none, and none beyond the width
    /// is generated.
    pub fn generates(&self, fact: usize) -> bool
        ensures { result ≡ generates N self.now fact }
    {
        match self {
            GenKillW::Zero => false,
            GenKillW::Map { gens, .. } => is_in(gens, fact),
        }
    }

    /// Whether a fact holds after none of these runs, whatever held before. Zero kills none, and none beyond the width is
    /// killed.
    pub fn kills(&self, fact: usize) -> bool
        ensures { result ≡ kills N self.now fact }
    {
        match self {
            GenKillW::Zero => false,
            GenKillW::Map { keep, .. } => fact / 64 < N && !is_in(keep, fact),
        }
    }
}

/// A return map: what a return makes of the facts after a call.
#[derive(Clone, Copy, Debug, PartialEq, Eq)]
pub enum MaskMap<const N: usize> {
    /// All facts are as after the call.
    Plain,
    /// These facts are as before the call, the others as after it.
    Restore { facts: [u64; N] },
}
