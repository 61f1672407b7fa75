ghost use Rattle.std.specs.Prelude.{◌≡◌, ◌+◌, ◌++◌, ℕ, Bool, true, false, List, [], IsTrue, map, Option, None, Some};
ghost use Rattle.std.specs.List.{AllByRecursion, list_any};
ghost use Rattle.witness_graph.specs.declared.node.Node.{Node as NodeValue};
ghost use Rattle.witness_graph.specs.declared.node.Side.{Side as SideValue};
ghost use Rattle.witness_graph.specs.Runs.{runs_of};
ghost use Rattle.witness_graph.specs.Tight.{IsTight};
ghost use Rattle.wide_rules.specs.Renaming.{is_left_bare, renamed_run, renamed};
ghost use Rattle.pushdown_rules.specs.Configuration.{Configuration};
ghost use Rattle.pushdown_rules.specs.Firing.{Run};
ghost use Rattle.pushdown_rules.specs.Values.{value_of};
ghost use Rattle.pushdown_rules.specs.Answers.{Answers};
ghost use Rattle.wide_rules.specs.Widening.{Wide, IsWide, IsDeclared, short_of, origins};
ghost use Rattle.wide_rules.specs.Weighted.{Ends, FitsEnds, weighted, AnswersBetween};

use semiring_laws::Semiring;

/// Between configurations of declared symbols the runs of the short system are the runs of the wide one: each rule is replaced
/// by its origin, and those without one are left out. Each run of the wide system comes from exactly one.
pub fn short_runs_are_runs<S: Semiring>()
    ensures runs { (w : Wide S S.W S.Ret) → let s = S.operations w.system.semiring in
        (c d : Configuration) (run : List ℕ) → IsWide S.operations w → IsDeclared w c →
        IsDeclared w d →
        Run (short_of s w) c run d → Run w.system c (origins s w run) d }
    ensures each { (w : Wide S S.W S.Ret) → let s = S.operations w.system.semiring in
        (c d : Configuration) (run : List ℕ) → IsWide S.operations w →
        Run w.system c run d →
        (short : List ℕ) × Run (short_of s w) c short d × (origins s w short ≡ run) }
    ensures once { (w : Wide S S.W S.Ret) → let s = S.operations w.system.semiring in
        (c d : Configuration) (a b : List ℕ) → IsWide S.operations w → IsDeclared w c →
        IsDeclared w d →
        Run (short_of s w) c a d → Run (short_of s w) c b d → origins s w a ≡ origins s w b →
        a ≡ b }
{}

/// Such a run has the value of the run by its origins, and so has every part of it.
pub fn short_runs_keep_values<S: Semiring>()
    ensures { (w : Wide S S.W S.Ret) → let s = S.operations w.system.semiring in
        (c d : Configuration) (before part behind : List ℕ) → IsWide S.operations w →
        IsDeclared w c →
        Run (short_of s w) c (before ++ (part ++ behind)) d →
        value_of s (short_of s w) part ≡ value_of s w.system (origins s w part) }
{}

/// An answer over the short system to a query for configurations of declared symbols is one over the wide system, with the
/// origins of its runs.
pub fn short_answers_are_answers<S: Semiring>()
    ensures { (w : Wide S S.W S.Ret) → let s = S.operations w.system.semiring in
        (from to : Configuration → Bool) (v : S.W) (runs : List (List ℕ)) → IsWide S.operations w →
        ((c : Configuration) → IsTrue (from c) → IsDeclared w c) →
        ((c : Configuration) → IsTrue (to c) → IsDeclared w c) →
        Answers s (short_of s w) from to v runs →
        Answers s w.system from to v (map (origins s w) runs) }
{}

/// An answer, with a weight before and one behind, answers the query with these weights, by the same runs; where that is zero,
/// none has to be listed. With one before and behind it is the answer itself.
pub fn answers_take_weights<S: Semiring>()
    ensures listed { (w : Wide S S.W S.Ret) → let s = S.operations w.system.semiring in
        (from to : Configuration → Bool) (v : S.W) (runs : List (List ℕ)) (e : Ends S.W) →
        IsWide S.operations w →
        FitsEnds s e → Answers s w.system from to v runs →
        AnswersBetween s w.system (Some e) from to (weighted s (Some e) v) runs }
    ensures unlisted { (w : Wide S S.W S.Ret) → let s = S.operations w.system.semiring in
        (from to : Configuration → Bool) (v : S.W) (runs : List (List ℕ)) (e : Ends S.W) →
        IsWide S.operations w →
        FitsEnds s e → Answers s w.system from to v runs → weighted s (Some e) v ≡ s.zero →
        AnswersBetween s w.system (Some e) from to s.zero [] }
    ensures bare { (w : Wide S S.W S.Ret) → let s = S.operations w.system.semiring in
        (from to : Configuration → Bool) (v : S.W) (runs : List (List ℕ)) → IsWide S.operations w →
        Answers s w.system from to v runs →
        weighted s (Some (record { front = s.one; back = s.one })) v ≡ v }
{}

/// The runs of a renamed listing are those of the listing, each rule replaced by its origin and those without one left out: with a
/// `Start` before all where a node is left without parts, and with the same numbers else.
pub fn renamed_runs_are_by_origins()
    ensures same { (origins : List (Option ℕ)) (side : SideValue) (nodes : List NodeValue) (k : ℕ) →
        list_any (is_left_bare origins) nodes ≡ false →
        runs_of side (renamed origins nodes) k ≡ map (renamed_run origins) (runs_of side nodes k) }
    ensures higher { (origins : List (Option ℕ)) (side : SideValue) (nodes : List NodeValue)
        (k : ℕ) →
        list_any (is_left_bare origins) nodes ≡ true →
        runs_of side (renamed origins nodes) (k + 1) ≡ map (renamed_run origins)
        (runs_of side nodes k) }
{}

/// A renamed listing is tight as the listing is, where each run of its nodes keeps its value.
pub fn renamed_stays_tight<S: Semiring>()
    ensures { (semiring : S) → let s = S.operations semiring in
        (value other : List ℕ → S.W) (origins : List (Option ℕ)) (side : SideValue)
        (nodes : List NodeValue) →
        ((k : ℕ) → AllByRecursion (λ r. value r ≡ other (renamed_run origins r))
        (runs_of side nodes k)) →
        IsTight s value side nodes → IsTight s other side (renamed origins nodes) }
{}
