ghost use Rattle.std.specs.Prelude.{◌≡◌, ◌↔◌, IsTrue, IsOk, IfOk};
ghost use Rattle.semiring_laws.specs.Semiring.{Fits, FitsMap};
ghost use Rattle.genkill_weights.specs.Making.{is_listed, weight_where, Makes, map_where, Restores};
ghost use Rattle.genkill_weights.specs.GenKill.{genkill_operations, united};
ghost use Rattle.genkill_weights.specs.GenKillLaws.{genkill_laws};

use crate::masks::{either, generated, has_all, kept, mask_of, not_in};
use crate::{GenKillW, MaskMap};
use semiring_laws::Semiring;
use std::alloc::Global;
use wpds_base::OutOfMemory;

/// The semiring of gen-kill weights over `64 * N` facts: the functions `x -> (x & keep) | gens` of a bit-vector problem
/// (Kildall 1973), composed along runs and united over them (Reps, Schwoon, Jha, Melski 2005), and zero for no run.
#[derive(Clone, Copy, Debug, PartialEq, Eq)]
pub struct GenKill<const N: usize>;

impl<const N: usize> GenKill<N> {
    /// The weight that kills the facts of `kills`, then generates those of `gens`, and keeps the others. Numbers of facts
    /// that the width has no room for are left out.
    pub fn make(&self, gens: &[u32], kills: &[u32]) -> GenKillW<N>
        ensures value { result ≡ weight_where N (is_listed gens.now) (is_listed kills.now) }
        ensures effects { Makes N gens.now kills.now result }
        ensures fits { Fits (genkill_operations N) result }
    {
        let generated = mask_of(gens);
        let killed = mask_of(kills);
        let others = not_in(&[u64::MAX; N], &killed);
        GenKillW::Map {
            keep: either(&generated, &others),
            gens: generated,
        }
    }

    /// The return map that restores these facts. Numbers of facts that the width has no room for are left out.
    pub fn restore(&self, facts: &[u32]) -> MaskMap<N>
        ensures value { result ≡ map_where N (is_listed facts.now) }
        ensures facts { Restores N facts.now result }
        ensures fits { FitsMap (genkill_operations N) result }
    {
        MaskMap::Restore {
            facts: mask_of(facts),
        }
    }
}

impl<const N: usize> Semiring for GenKill<N> {
    type W = GenKillW<N>;

    type Ret = MaskMap<N>;

    ghost operations = { λ _. genkill_operations N };

    ghost laws = { λ _. genkill_laws N };

    fn zero(&self, _alloc: Global) -> Result<GenKillW<N>, OutOfMemory>
        ensures value { IfOk result (λ w. w ≡ (genkill_operations N).zero) }
        ensures always { IsOk result }
    {
        Ok(GenKillW::Zero)
    }

    fn one(&self, _alloc: Global) -> Result<GenKillW<N>, OutOfMemory> {
        Ok(GenKillW::Map {
            keep: [u64::MAX; N],
            gens: [0; N],
        })
    }

    fn combine(
        &self,
        _alloc: Global,
        a: &GenKillW<N>,
        b: &GenKillW<N>,
    ) -> Result<GenKillW<N>, OutOfMemory> {
        Ok(either_of(a, b))
    }

    fn extend(
        &self,
        _alloc: Global,
        a: &GenKillW<N>,
        b: &GenKillW<N>,
    ) -> Result<GenKillW<N>, OutOfMemory> {
        match (a, b) {
            (
                GenKillW::Map { keep, gens },
                GenKillW::Map {
                    keep: next_keep,
                    gens: next_gens,
                },
            ) => Ok(GenKillW::Map {
                keep: kept(keep, gens, next_keep, next_gens),
                gens: generated(gens, next_keep, next_gens),
            }),
            _ => Ok(GenKillW::Zero),
        }
    }

    fn lowered(
        &self,
        _alloc: Global,
        old: &GenKillW<N>,
        weight: &GenKillW<N>,
    ) -> Result<Option<GenKillW<N>>, OutOfMemory> {
        if has_runs(old, weight) {
            return Ok(None);
        }
        Ok(Some(either_of(old, weight)))
    }

    fn copy(&self, _alloc: Global, a: &GenKillW<N>) -> Result<GenKillW<N>, OutOfMemory> {
        Ok(*a)
    }

    fn after(
        &self,
        _alloc: Global,
        map: &MaskMap<N>,
        w: &GenKillW<N>,
    ) -> Result<GenKillW<N>, OutOfMemory> {
        match (map, w) {
            (MaskMap::Restore { facts }, GenKillW::Map { keep, gens }) => Ok(GenKillW::Map {
                keep: either(keep, facts),
                gens: not_in(gens, facts),
            }),
            _ => Ok(*w),
        }
    }

    fn same(&self, a: &GenKillW<N>, b: &GenKillW<N>) -> bool {
        *a == *b
    }

    fn is_zero(&self, a: &GenKillW<N>) -> bool {
        a.is_zero()
    }

    fn plain(&self) -> MaskMap<N> {
        MaskMap::Plain
    }

    fn same_map(&self, a: &MaskMap<N>, b: &MaskMap<N>) -> bool {
        *a == *b
    }

    fn same_kind(&self, other: &GenKill<N>) -> bool {
        *self == *other
    }
}

// Whether the runs of the second weight add nothing to those of the first.
fn has_runs<const N: usize>(a: &GenKillW<N>, b: &GenKillW<N>) -> bool
    ensures { IsTrue result ↔ (united N a.now b.now ≡ a.now) }
{
    match (a, b) {
        (_, GenKillW::Zero) => true,
        (GenKillW::Zero, GenKillW::Map { .. }) => false,
        (
            GenKillW::Map { keep, gens },
            GenKillW::Map {
                keep: more_keep,
                gens: more_gens,
            },
        ) => has_all(keep, more_keep) && has_all(gens, more_gens),
    }
}

// The runs of either weight.
fn either_of<const N: usize>(a: &GenKillW<N>, b: &GenKillW<N>) -> GenKillW<N>
    ensures { result ≡ united N a.now b.now }
{
    match (a, b) {
        (GenKillW::Zero, _) => *b,
        (_, GenKillW::Zero) => *a,
        (
            GenKillW::Map { keep, gens },
            GenKillW::Map {
                keep: more_keep,
                gens: more_gens,
            },
        ) => GenKillW::Map {
            keep: either(keep, more_keep),
            gens: either(gens, more_gens),
        },
    }
}
