ghost use Rattle.semiring_laws.specs.Reach.{reach_operations};
ghost use Rattle.semiring_laws.specs.ReachLaws.{reach_laws};

use semiring_laws::{NoMap, Semiring};
use std::alloc::Global;
use std::marker::Model;
use std::sync::atomic::{AtomicU64, Ordering};
use wpds_base::OutOfMemory;

/// Whether there is a run, by a semiring that can be made to find no memory: `extend`, on which workers call while they work a
/// hand out, or `combine`, on which they call while they settle it.
#[derive(Drop)]
pub(crate) struct Short {
    extends: AtomicU64,
    combines: AtomicU64,
    refusals: AtomicU64,
}

impl Model for Short {
    ghost Value = { Unit {0} };

    ghost view = { λ _. tt };

    ghost invariant = { λ _. Unit {0} };
}

impl Short {
    /// It finds memory each time, until it is told otherwise.
    pub(crate) fn new() -> Short {
        Short {
            extends: AtomicU64::new(0),
            combines: AtomicU64::new(0),
            refusals: AtomicU64::new(0),
        }
    }

    /// From the call of `extend` or of `combine` on with this number (0: none), it refuses so many.
    pub(crate) fn refuse(&self, extend: u64, combine: u64, refusals: u64) {
        let last = |first: u64| {
            if first == 0 {
                0
            } else {
                first.saturating_add(refusals).saturating_sub(1)
            }
        };
        self.refusals.store(refusals, Ordering::SeqCst);
        self.extends.store(last(extend), Ordering::SeqCst);
        self.combines.store(last(combine), Ordering::SeqCst);
    }

    // Whether one of the calls that are left is refused now.
    fn finds_none(&self, left: &AtomicU64) -> bool {
        let left = left.fetch_sub(1, Ordering::SeqCst);
        left >= 1 && left <= self.refusals.load(Ordering::SeqCst)
    }
}

impl Semiring for Short {
    type W = bool;

    type Ret = NoMap;

    ghost operations = { λ _. reach_operations };

    ghost laws = { λ _. reach_laws };

    fn zero(&self, _alloc: Global) -> Result<bool, OutOfMemory> {
        Ok(false)
    }

    fn one(&self, _alloc: Global) -> Result<bool, OutOfMemory> {
        Ok(true)
    }

    fn combine(&self, _alloc: Global, a: &bool, b: &bool) -> Result<bool, OutOfMemory> {
        if self.finds_none(&self.combines) {
            return Err(OutOfMemory);
        }
        Ok(*a | *b)
    }

    fn extend(&self, _alloc: Global, a: &bool, b: &bool) -> Result<bool, OutOfMemory> {
        if self.finds_none(&self.extends) {
            return Err(OutOfMemory);
        }
        Ok(*a & *b)
    }

    fn copy(&self, _alloc: Global, a: &bool) -> Result<bool, OutOfMemory> {
        Ok(*a)
    }

    fn after(&self, _alloc: Global, _map: &NoMap, w: &bool) -> Result<bool, OutOfMemory> {
        Ok(*w)
    }

    fn same(&self, a: &bool, b: &bool) -> bool {
        *a == *b
    }

    fn is_zero(&self, a: &bool) -> bool {
        !*a
    }

    fn plain(&self) -> NoMap {
        NoMap::Plain
    }

    fn same_map(&self, a: &NoMap, b: &NoMap) -> bool {
        *a == *b
    }

    fn same_kind(&self, _other: &Short) -> bool {
        true
    }
}
