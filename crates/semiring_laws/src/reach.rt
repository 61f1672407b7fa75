ghost use Rattle.std.specs.Prelude.{◌≡◌};
ghost use Rattle.semiring_laws.specs.Reach.{reach_operations};
ghost use Rattle.semiring_laws.specs.ReachLaws.{reach_laws};

use crate::Semiring;
use std::alloc::Global;
use wpds_base::OutOfMemory;

/// Whether there is a run.
#[derive(Clone, Copy, Debug, PartialEq, Eq)]
pub struct Reach;

/// The return map of a semiring that has no other than the plain one.
#[derive(Clone, Copy, Debug, PartialEq, Eq)]
pub enum NoMap {
    Plain,
}

impl Semiring for Reach {
    type W = bool;

    type Ret = NoMap;

    ghost operations = { λ _. reach_operations };

    ghost laws = { λ _. reach_laws };

    fn zero(&self, _alloc: Global) -> Result<bool, OutOfMemory> {
        Ok(false)
    }

    fn one(&self, _alloc: Global) -> Result<bool, OutOfMemory> {
        Ok(true)
    }

    fn combine(&self, _alloc: Global, a: &bool, b: &bool) -> Result<bool, OutOfMemory> {
        Ok(*a | *b)
    }

    fn extend(&self, _alloc: Global, a: &bool, b: &bool) -> Result<bool, OutOfMemory> {
        Ok(*a & *b)
    }

    fn copy(&self, _alloc: Global, a: &bool) -> Result<bool, OutOfMemory> {
        Ok(*a)
    }

    fn after(&self, _alloc: Global, _map: &NoMap, w: &bool) -> Result<bool, OutOfMemory> {
        Ok(*w)
    }

    fn same(&self, a: &bool, b: &bool) -> bool {
        *a == *b
    }

    fn is_zero(&self, a: &bool) -> bool {
        !*a
    }

    fn plain(&self) -> NoMap {
        NoMap::Plain
    }

    fn same_map(&self, a: &NoMap, b: &NoMap) -> bool {
        *a == *b
    }

    fn same_kind(&self, other: &Reach) -> bool {
        *self == *other
    }
}
