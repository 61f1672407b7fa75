ghost use Rattle.std.specs.Prelude.{◌≡◌, ◌↔◌, ◌<◌, length, IsTrue, IfOk, IfSome, Some, option_map, slice_get, unwrap_or};
ghost use Rattle.pushdown_rules.specs.Pushdown.{Pushdown};
ghost use Rattle.pushdown_rules.specs.declared.rule.Rule.{Rule as RuleValue};
ghost use Rattle.semiring_laws.specs.Semiring.{Fits};
ghost use Rattle.semiring_laws.specs.Lowering.{lowered_weight};
ghost use Rattle.weight_tables.specs.Growth.{Grows};

use semiring_laws::Semiring;
use wpds_base::OutOfMemory;

/// What makes the weights of a search, by the semiring of a system. It may keep tables of its own, to which each call may add; what was
/// there stays. So a weight that is kept can be a reference into such a table.
pub trait Weigher<S: Semiring>: Drop {
    /// A weight as it is kept.
    type W: Drop;

    /// The system whose weights they are.
    ghost pushdown: { Self → Pushdown S S.W S.Ret };

    /// Whether a kept weight is one of this object's.
    ghost Knows: { Self → Self.W → Type 0 };

    /// What a kept weight stands for.
    ghost worth: { Self → Self.W → S.W };

    /// The weight of the empty run.
    fn one(&mut self) -> Result<Self::W, OutOfMemory>
        ensures grows { Grows pushdown Knows worth self.old self.new }
        ensures known { IfOk result (λ w. Knows self.new w) }
        ensures worth { IfOk result (λ w.
            worth self.new w ≡ (S.operations (pushdown self.old).semiring).one) };

    /// An equal weight.
    fn copy(&mut self, a: &Self::W) -> Result<Self::W, OutOfMemory>
        requires { Knows self.old a.now }
        ensures grows { Grows pushdown Knows worth self.old self.new }
        ensures known { IfOk result (λ w. Knows self.new w) }
        ensures worth { IfOk result (λ w. worth self.new w ≡ worth self.old a.now) };

    /// Whether a weight is zero.
    fn is_zero(&self, a: &Self::W) -> bool
        requires { Knows self.now a.now }
        ensures { IsTrue result
            ↔ (worth self.now a.now ≡ (S.operations (pushdown self.now).semiring).zero) };

    /// The weight of one run after the other.
    fn extend(&mut self, a: &Self::W, b: &Self::W) -> Result<Self::W, OutOfMemory>
        requires left { Knows self.old a.now }
        requires right { Knows self.old b.now }
        ensures grows { Grows pushdown Knows worth self.old self.new }
        ensures known { IfOk result (λ w. Knows self.new w) }
        ensures worth { IfOk result (λ w.
            worth self.new w ≡ (S.operations (pushdown self.old).semiring).extend
            (worth self.old a.now) (worth self.old b.now)) };

    /// The weight of a rule.
    fn rule(&mut self, k: u32) -> Result<Self::W, OutOfMemory>
        requires { k < length (pushdown self.old).rules }
        ensures grows { Grows pushdown Knows worth self.old self.new }
        ensures known { IfOk result (λ w. Knows self.new w) }
        ensures worth { (r : RuleValue S S.W S.Ret) → slice_get (pushdown self.old).rules k ≡ Some r
            → IfOk result (λ w. worth self.new w ≡ r.weight) };

    /// The weight of a rule, and then another.
    fn rule_then(&mut self, k: u32, a: &Self::W) -> Result<Self::W, OutOfMemory>
        requires rule { k < length (pushdown self.old).rules }
        requires weight { Knows self.old a.now }
        ensures grows { Grows pushdown Knows worth self.old self.new }
        ensures known { IfOk result (λ w. Knows self.new w) }
        ensures worth { (r : RuleValue S S.W S.Ret) → slice_get (pushdown self.old).rules k ≡ Some r
            → IfOk result (λ w.
            worth self.new w ≡ (S.operations (pushdown self.old).semiring).extend
            r.weight (worth self.old a.now)) };

    /// A weight, and then that of a rule.
    fn then_rule(&mut self, a: &Self::W, k: u32) -> Result<Self::W, OutOfMemory>
        requires rule { k < length (pushdown self.old).rules }
        requires weight { Knows self.old a.now }
        ensures grows { Grows pushdown Knows worth self.old self.new }
        ensures known { IfOk result (λ w. Knows self.new w) }
        ensures worth { (r : RuleValue S S.W S.Ret) → slice_get (pushdown self.old).rules k ≡ Some r
            → IfOk result (λ w.
            worth self.new w ≡ (S.operations (pushdown self.old).semiring).extend
            (worth self.old a.now) r.weight) };

    /// What the return map of a rule makes of the weight of a call, and the weight itself where it has none.
    fn returned(&mut self, k: u32, a: &Self::W) -> Result<Self::W, OutOfMemory>
        requires rule { k < length (pushdown self.old).rules }
        requires weight { Knows self.old a.now }
        ensures grows { Grows pushdown Knows worth self.old self.new }
        ensures known { IfOk result (λ w. Knows self.new w) }
        ensures worth { let s = S.operations (pushdown self.old).semiring in
            (r : RuleValue S S.W S.Ret) → slice_get (pushdown self.old).rules k ≡ Some r
            → IfOk result (λ w.
            worth self.new w ≡ s.after (unwrap_or r.map s.plain) (worth self.old a.now)) };

    /// What a weight makes of the one that is there, and `None` where it changes nothing.
    fn lowered(&mut self, old: &Self::W, weight: &Self::W) -> Result<Option<Self::W>, OutOfMemory>
        requires old { Knows self.old old.now }
        requires weight { Knows self.old weight.now }
        ensures grows { Grows pushdown Knows worth self.old self.new }
        ensures known { IfOk result (λ o. IfSome o (λ w. Knows self.new w)) }
        ensures worth { IfOk result (λ o. option_map (worth self.new) o ≡ lowered_weight
            (S.operations (pushdown self.old).semiring)
            (worth self.old old.now) (worth self.old weight.now)) };

    /// What a weight stands for, as the semiring has it.
    fn value(&self, a: &Self::W) -> Result<S::W, OutOfMemory>
        requires { Knows self.now a.now }
        ensures { IfOk result (λ w. w ≡ worth self.now a.now) };

    /// The weight of no run, as the semiring has it.
    fn no_value(&self) -> Result<S::W, OutOfMemory>
        ensures { IfOk result (λ w. w ≡ (S.operations (pushdown self.now).semiring).zero) };

    /// Whether so much is kept that the weights in use are worth being kept anew, by another object.
    fn is_full(&self) -> bool;

    /// Another object for the same system.
    fn renewed(&self) -> Result<Self, OutOfMemory>
        ensures { IfOk result (λ m. pushdown m ≡ pushdown self.now) };

    /// The weight that stands for this one.
    fn known(&mut self, w: &S::W) -> Result<Self::W, OutOfMemory>
        requires { Fits (S.operations (pushdown self.old).semiring) w.now }
        ensures grows { Grows pushdown Knows worth self.old self.new }
        ensures known { IfOk result (λ k. Knows self.new k) }
        ensures worth { IfOk result (λ k. worth self.new k ≡ w.now) };

    /// What is known fits the semiring.
    ghost fits: { (m : Self) (w : Self.W) → Knows m w
        → Fits (S.operations (pushdown m).semiring) (worth m w) };
}
