ghost use Rattle.std.specs.Prelude.{◌≡◌, ◌<◌, ◌≤◌, ◌≢◌, List, ◌∷◌, ◌++◌, All, length, map, IsPermutation};
ghost use Rattle.std.specs.List.{Contains};
ghost use Rattle.semiring_laws.specs.Semiring.{Fits, FitsMap, Below};
ghost use Rattle.semiring_laws.specs.Combination.{combination};
ghost use Rattle.semiring_laws.specs.Chains.{IsFalling};

use crate::Semiring;

/// Being below is a partial order on the weights, with zero above all.
pub fn below_is_an_order<S: Semiring>()
    ensures itself { (x : S) → let s = S.operations x in (a : S.W) → Fits s a → Below s a a }
    ensures transitive { (x : S) → let s = S.operations x in
        (a b c : S.W) → Fits s a → Fits s b → Fits s c →
        Below s a b → Below s b c → Below s a c }
    ensures antisymmetric { (x : S) → let s = S.operations x in
        (a b : S.W) → Fits s a → Fits s b → Below s a b → Below s b a → a ≡ b }
    ensures top { (x : S) → let s = S.operations x in (a : S.W) → Fits s a → Below s a s.zero }
{}

/// The combine of two weights is the greatest weight that is below both.
pub fn combine_is_greatest_below<S: Semiring>()
    ensures left { (x : S) → let s = S.operations x in
        (a b : S.W) → Fits s a → Fits s b → Below s (s.combine a b) a }
    ensures right { (x : S) → let s = S.operations x in
        (a b : S.W) → Fits s a → Fits s b → Below s (s.combine a b) b }
    ensures greatest { (x : S) → let s = S.operations x in
        (a b c : S.W) → Fits s a → Fits s b → Fits s c →
        Below s c a → Below s c b → Below s c (s.combine a b) }
{}

/// Extend, on both sides, and return maps keep what is below below.
pub fn operations_keep_below<S: Semiring>()
    ensures extend { (x : S) → let s = S.operations x in
        (a b c d : S.W) → Fits s a → Fits s b → Fits s c → Fits s d →
        Below s a b → Below s c d → Below s (s.extend a c) (s.extend b d) }
    ensures after { (x : S) → let s = S.operations x in
        (h : S.Ret) (a b : S.W) → FitsMap s h → Fits s a → Fits s b →
        Below s a b → Below s (s.after h a) (s.after h b) }
{}

/// The combination of a list is the greatest weight that is below each of its weights.
pub fn combination_is_greatest_below<S: Semiring>()
    ensures fits { (x : S) → let s = S.operations x in
        (ws : List S.W) → All (Fits s) ws → Fits s (combination s ws) }
    ensures each { (x : S) → let s = S.operations x in
        (ws : List S.W) → All (Fits s) ws → All (Below s (combination s ws)) ws }
    ensures greatest { (x : S) → let s = S.operations x in
        (v : S.W) (ws : List S.W) → Fits s v → All (Fits s) ws →
        All (Below s v) ws → Below s v (combination s ws) }
{}

/// The combination of a list depends on its weights alone, and neither on their order nor on how often each stands there.
pub fn combination_is_of_members<S: Semiring>()
    ensures order { (x : S) → let s = S.operations x in
        (vs ws : List S.W) → All (Fits s) vs → IsPermutation vs ws →
        combination s vs ≡ combination s ws }
    ensures repeated { (x : S) → let s = S.operations x in
        (w : S.W) (ws : List S.W) → All (Fits s) ws → Contains ws w →
        combination s (w ∷ ws) ≡ combination s ws }
    ensures members { (x : S) → let s = S.operations x in
        (vs ws : List S.W) → All (Fits s) vs → All (Fits s) ws →
        All (Contains vs) ws → All (Contains ws) vs → combination s vs ≡ combination s ws }
    ensures append { (x : S) → let s = S.operations x in
        (vs ws : List S.W) → All (Fits s) vs → All (Fits s) ws →
        combination s (vs ++ ws) ≡ s.combine (combination s vs) (combination s ws) }
{}

/// Extend, on both sides, and return maps distribute over the combination of a list.
pub fn operations_distribute<S: Semiring>()
    ensures left { (x : S) → let s = S.operations x in
        (a : S.W) (ws : List S.W) → Fits s a → All (Fits s) ws →
        s.extend a (combination s ws) ≡ combination s (map (λ w. s.extend a w) ws) }
    ensures right { (x : S) → let s = S.operations x in
        (ws : List S.W) (b : S.W) → All (Fits s) ws → Fits s b →
        s.extend (combination s ws) b ≡ combination s (map (λ w. s.extend w b) ws) }
    ensures after { (x : S) → let s = S.operations x in
        (h : S.Ret) (ws : List S.W) → FitsMap s h → All (Fits s) ws →
        s.after h (combination s ws) ≡ combination s (map (λ w. s.after h w) ws) }
{}

/// Weights fall only finitely often: no rank is over the top one, and a weight can be lowered at most as often as its
/// rank says.
pub fn chains_are_short<S: Semiring>()
    ensures rank { (x : S) → let s = S.operations x in
        (a : S.W) → Fits s a → s.rank a ≤ s.top_rank }
    ensures falls { (x : S) → let s = S.operations x in
        (a b : S.W) → Fits s a → Fits s b → Below s b a → b ≢ a → s.rank b < s.rank a }
    ensures chain { (x : S) → let s = S.operations x in
        (a : S.W) (bs : List S.W) → Fits s a → IsFalling s a bs → length bs ≤ s.rank a }
{}
