ghost use Rattle.std.specs.Prelude.{◌≡◌, ◌≢◌, ◌↔◌, ◌<◌, ◌≤◌, ◌*◌, ◌&&◌, ℕ, Bool, not, List, Some, option_and_then};
ghost use Rattle.wpds_base.specs.Limits.{most_facts};
ghost use Rattle.semiring_laws.specs.Semiring.{Fits, FitsMap};
ghost use Rattle.genkill_weights.specs.GenKill.{genkill_operations};
ghost use Rattle.genkill_weights.specs.FactSets.{IsFactSet, facts_after, union, restored};
ghost use Rattle.genkill_weights.specs.Effects.{generates, kills, changed};
ghost use Rattle.genkill_weights.specs.Masks.{mask_where};
ghost use Rattle.genkill_weights.specs.Making.{weight_where, map_where, HasFacts};
ghost use Rattle.genkill_weights.specs.Widths.{width_for, IsLeastWidth};

use crate::{GenKillW, MaskMap};

/// A weight is a function on sets of facts: `x -> (x & keep) | gens`, or none where there is no run (Kildall 1973). Extend
/// is composition of these functions, combine their pointwise union, and one is the identity.
pub fn weights_are_functions()
    ensures extend { (n : ℕ) (a b : GenKillW n) → let s = genkill_operations n in
        Fits s a → Fits s b → (x : ℕ → Bool) →
        facts_after n (s.extend a b) x ≡ option_and_then (facts_after n b) (facts_after n a x) }
    ensures combine { (n : ℕ) (a b : GenKillW n) → let s = genkill_operations n in
        Fits s a → Fits s b → (x : ℕ → Bool) →
        facts_after n (s.combine a b) x ≡ union (facts_after n a x) (facts_after n b x) }
    ensures one { (n : ℕ) (x : ℕ → Bool) → IsFactSet n x →
        facts_after n (genkill_operations n).one x ≡ Some x }
{}

/// Two weights are equal exactly where their functions are equal on all sets of facts.
pub fn equal_weights_are_equal_functions()
    ensures { (n : ℕ) (a b : GenKillW n) → let s = genkill_operations n in
        Fits s a → Fits s b → (a ≡ b) ↔
        ((x : ℕ → Bool) → IsFactSet n x → facts_after n a x ≡ facts_after n b x) }
{}

/// A return map that restores facts gives them the value from before the call, and leaves the others the value that they
/// have after it.
pub fn restored_facts_are_the_callers()
    ensures { (n : ℕ) (facts : List ℕ) (w : GenKillW n) → let s = genkill_operations n in
        FitsMap s (MaskMap.Restore facts) → Fits s w → (x : ℕ → Bool) →
        facts_after n (s.after (MaskMap.Restore facts) w) x
        ≡ restored facts x (facts_after n w x) }
{}

/// A weight other than zero is told by the facts that it generates and kills: of a set of facts it kills some, and then
/// generates some.
pub fn weights_are_their_effects()
    ensures function { (n : ℕ) (w : GenKillW n) → let s = genkill_operations n in
        Fits s w → w ≢ s.zero → (x : ℕ → Bool) → IsFactSet n x →
        facts_after n w x ≡ Some (changed (generates n w) (kills n w) x) }
    ensures value { (n : ℕ) (w : GenKillW n) → let s = genkill_operations n in
        Fits s w → w ≢ s.zero → w ≡ weight_where n (generates n w) (kills n w) }
    ensures equal { (n : ℕ) (v w : GenKillW n) → let s = genkill_operations n in
        Fits s v → v ≢ s.zero → Fits s w → w ≢ s.zero →
        ((f : ℕ) → f < 64 * n → generates n v f ≡ generates n w f) →
        ((f : ℕ) → f < 64 * n → kills n v f ≡ kills n w f) → v ≡ w }
{}

/// A weight that is made of facts generates and kills these, and a fact that is both is generated. A return map that is
/// made of facts restores these.
pub fn weights_have_their_facts()
    ensures fits { (n : ℕ) (generated killed : ℕ → Bool) →
        Fits (genkill_operations n) (weight_where n generated killed) }
    ensures generated { (n : ℕ) (generated killed : ℕ → Bool) (f : ℕ) → f < 64 * n →
        generates n (weight_where n generated killed) f ≡ generated f }
    ensures killed { (n : ℕ) (generated killed : ℕ → Bool) (f : ℕ) → f < 64 * n →
        kills n (weight_where n generated killed) f ≡ (killed f && not (generated f)) }
    ensures fits_map { (n : ℕ) (facts : ℕ → Bool) →
        FitsMap (genkill_operations n) (map_where n facts) }
    ensures restored { (n : ℕ) (facts : ℕ → Bool) → HasFacts n (mask_where n facts) facts }
{}

/// The width for so many facts is the least that has room for them, of 1, 2, 4, 8 and 16 words.
pub fn widths_are_least()
    ensures found { (facts : ℕ) → facts ≤ most_facts → IsLeastWidth facts (width_for facts) }
    ensures one { (facts n : ℕ) → IsLeastWidth facts n → width_for facts ≡ n }
{}
