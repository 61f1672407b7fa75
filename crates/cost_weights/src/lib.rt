//! Costs as weights: numbers up to a cap, of which the cheapest run counts.
#![tactic(auto)]

ghost use Rattle.std.specs.Prelude.{◌≡◌, ◌<◌, ◌↔◌, IsErrOf, IfOk, min, Some};
ghost use Rattle.wpds_base.specs.Limits.{most_cost};
ghost use Rattle.semiring_laws.specs.Semiring.{Fits};
ghost use Rattle.cost_weights.specs.Cost.{cost_operations};
ghost use Rattle.cost_weights.specs.CostLaws.{cost_laws};

mod laws;

pub use laws::below_is_no_dearer;
use semiring_laws::{NoMap, Semiring};
use std::alloc::Global;
use std::marker::Model;
use thiserror::Error;
use wpds_base::{MOST_COST, OutOfMemory};

/// Why there is no such semiring.
#[derive(Clone, Copy, Debug, PartialEq, Eq, Error)]
pub enum CostFault {
    /// The cap is 0.
    #[error("the cap is 0")]
    CapZero,
    /// The cap is over 1,000,000,000,000,000,000.
    #[error("the cap is too large")]
    CapTooLarge,
}

/// The semiring of costs up to a cap (the min-plus semiring, cut at the cap so that it is bounded). A weight is a
/// number, or `None` for no run: combine takes the smaller, extend the sum cut at the cap. Contracts see it as its cap.
#[derive(Clone, Copy, Debug)]
pub struct Cost {
    cap: u64,
}

impl Model for Cost {
    ghost use Rattle.std.specs.Prelude.{ℕ, ◌<◌, ◌≤◌};
    ghost use Rattle.wpds_base.specs.Limits.{most_cost};

    ghost Value = { ℕ };

    ghost view = { λ c. c.cap };

    ghost invariant = { λ c. (0 < c.cap) × (c.cap ≤ most_cost) };

    ghost inverse = { λ n. record { cap = n } };
}

impl Cost {
    /// The costs up to a cap, from 1 to 1,000,000,000,000,000,000, so that no sum of two passes 64 bits.
    pub fn new(cap: u64) -> Result<Cost, CostFault>
        ensures ok { IfOk result (λ c. c ≡ cap) }
        ensures zero { IsErrOf result CostFault.CapZero ↔ (cap ≡ 0) }
        ensures too_large { IsErrOf result CostFault.CapTooLarge ↔ (most_cost < cap) }
    {
        if cap == 0 {
            return Err(CostFault::CapZero);
        }
        if cap > MOST_COST {
            return Err(CostFault::CapTooLarge);
        }
        Ok(Cost { cap })
    }

    /// The cap.
    pub fn cap(&self) -> u64
        ensures { result ≡ self.now }
    {
        self.cap
    }

    /// A number as a weight: the smaller of it and the cap.
    pub fn number(&self, n: u64) -> Option<u64>
        ensures value { result ≡ Some (min n self.now) }
        ensures fits { Fits (cost_operations self.now) result }
    {
        Some(n.min(self.cap))
    }
}

impl Semiring for Cost {
    type W = Option<u64>;

    type Ret = NoMap;

    ghost operations = { cost_operations };

    ghost laws = { cost_laws };

    fn zero(&self, _alloc: Global) -> Result<Option<u64>, OutOfMemory> {
        Ok(None)
    }

    fn one(&self, _alloc: Global) -> Result<Option<u64>, OutOfMemory> {
        Ok(Some(0))
    }

    fn combine(
        &self,
        _alloc: Global,
        a: &Option<u64>,
        b: &Option<u64>,
    ) -> Result<Option<u64>, OutOfMemory> {
        Ok(match (*a, *b) {
            (None, b) => b,
            (a, None) => a,
            (Some(m), Some(n)) => Some(m.min(n)),
        })
    }

    fn extend(
        &self,
        _alloc: Global,
        a: &Option<u64>,
        b: &Option<u64>,
    ) -> Result<Option<u64>, OutOfMemory> {
        let cap = self.cap;
        Ok(match (*a, *b) {
            (Some(m), Some(n)) => Some((m + n).min(cap)),
            _ => None,
        })
    }

    fn copy(&self, _alloc: Global, a: &Option<u64>) -> Result<Option<u64>, OutOfMemory> {
        Ok(*a)
    }

    fn after(
        &self,
        _alloc: Global,
        _map: &NoMap,
        w: &Option<u64>,
    ) -> Result<Option<u64>, OutOfMemory> {
        Ok(*w)
    }

    fn same(&self, a: &Option<u64>, b: &Option<u64>) -> bool {
        *a == *b
    }

    fn is_zero(&self, a: &Option<u64>) -> bool {
        a.is_none()
    }

    fn plain(&self) -> NoMap {
        NoMap::Plain
    }

    fn same_map(&self, a: &NoMap, b: &NoMap) -> bool {
        *a == *b
    }

    fn same_kind(&self, other: &Cost) -> bool {
        self.cap == other.cap
    }
}
