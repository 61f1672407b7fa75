ghost use Rattle.std.specs.Prelude.{◌≡◌, ◌↔◌, IsTrue, IfOk};
ghost use Rattle.semiring_laws.specs.Semiring.{Operations, Fits, FitsMap, IsSemiring};
ghost use Rattle.semiring_laws.specs.Lowering.{lowered_weight};

use std::alloc::Global;
use wpds_base::OutOfMemory;

/// A bounded idempotent semiring. The values of `Self` are its parameters, as a cap or a number of facts.
pub trait Semiring: Drop {
    /// The weights.
    type W: Drop;

    /// The return maps.
    type Ret: Drop;

    /// What the operations compute.
    ghost operations: { Self → Operations Self.W Self.Ret };

    /// What each semiring proves.
    ghost laws: { (s : Self) → IsSemiring (operations s) };

    /// The weight of no run.
    fn zero(&self, alloc: Global) -> Result<Self::W, OutOfMemory>
        ensures { IfOk result (λ w. w ≡ (operations self.now).zero) };

    /// The weight of the empty run.
    fn one(&self, alloc: Global) -> Result<Self::W, OutOfMemory>
        ensures { IfOk result (λ w. w ≡ (operations self.now).one) };

    /// The weight of runs of either kind.
    fn combine(&self, alloc: Global, a: &Self::W, b: &Self::W) -> Result<Self::W, OutOfMemory>
        requires left { Fits (operations self.now) a.now }
        requires right { Fits (operations self.now) b.now }
        ensures { IfOk result (λ w. w ≡ (operations self.now).combine a.now b.now) };

    /// The weight of one run after the other.
    fn extend(&self, alloc: Global, a: &Self::W, b: &Self::W) -> Result<Self::W, OutOfMemory>
        requires left { Fits (operations self.now) a.now }
        requires right { Fits (operations self.now) b.now }
        ensures { IfOk result (λ w. w ≡ (operations self.now).extend a.now b.now) };

    /// What a weight makes of the one that is there, and `None` where it changes nothing. A semiring that sees from
    /// the two that nothing changes makes no weight to tell it.
    fn lowered(
        &self,
        alloc: Global,
        old: &Self::W,
        weight: &Self::W,
    ) -> Result<Option<Self::W>, OutOfMemory>
        requires old { Fits (operations self.now) old.now }
        requires weight { Fits (operations self.now) weight.now }
        ensures { IfOk result (λ o. o ≡ lowered_weight (operations self.now) old.now weight.now) }
    {
        let sum = self.combine(alloc, old, weight)?;
        if self.same(&sum, old) {
            return Ok(None);
        }
        Ok(Some(sum))
    }

    /// An equal weight.
    fn copy(&self, alloc: Global, a: &Self::W) -> Result<Self::W, OutOfMemory>
        requires { Fits (operations self.now) a.now }
        ensures { IfOk result (λ w. w ≡ a.now) };

    /// What a return map makes of the weight of a call.
    fn after(&self, alloc: Global, map: &Self::Ret, w: &Self::W) -> Result<Self::W, OutOfMemory>
        requires map { FitsMap (operations self.now) map.now }
        requires weight { Fits (operations self.now) w.now }
        ensures { IfOk result (λ v. v ≡ (operations self.now).after map.now w.now) };

    /// Whether two weights are equal.
    fn same(&self, a: &Self::W, b: &Self::W) -> bool
        requires left { Fits (operations self.now) a.now }
        requires right { Fits (operations self.now) b.now }
        ensures { IsTrue result ↔ (a.now ≡ b.now) };

    /// Whether a weight is zero.
    fn is_zero(&self, a: &Self::W) -> bool
        requires { Fits (operations self.now) a.now }
        ensures { IsTrue result ↔ (a.now ≡ (operations self.now).zero) };

    /// The return map that changes nothing.
    fn plain(&self) -> Self::Ret
        ensures { result ≡ (operations self.now).plain };

    /// Whether two return maps are equal.
    fn same_map(&self, a: &Self::Ret, b: &Self::Ret) -> bool
        requires left { FitsMap (operations self.now) a.now }
        requires right { FitsMap (operations self.now) b.now }
        ensures { IsTrue result ↔ (a.now ≡ b.now) };

    /// Whether two semirings have equal parameters.
    fn same_kind(&self, other: &Self) -> bool
        ensures { IsTrue result ↔ (self.now ≡ other.now) };
}
