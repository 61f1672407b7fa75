ghost use Rattle.std.specs.Prelude.{◌≡◌, ◌∷◌, [], ℕ, Bool, List, IsTrue, Some, slice_get};
ghost use Rattle.std.specs.List.{AllByRecursion};
ghost use Rattle.pushdown_rules.specs.declared.rule.Rule.{Rule as RuleValue};
ghost use Rattle.pushdown_rules.specs.Configuration.{Configuration};
ghost use Rattle.pushdown_rules.specs.Pushdown.{Pushdown, IsSystem};
ghost use Rattle.pushdown_rules.specs.Values.{value_of};
ghost use Rattle.pushdown_rules.specs.Answers.{Answers, Leads};
ghost use Rattle.config_patterns.specs.Edges.{edges_of, is_final_of};
ghost use Rattle.config_patterns.specs.Membership.{PatternValue, has_member};
ghost use Rattle.config_patterns.specs.Paths.{Reads};
ghost use Rattle.value_laws.specs.Runs.{Sums};
ghost use Rattle.forward_value_laws.specs.Model.{Source, item, callee, head_of, Comes, IsClosed, Walks};
ghost use Rattle.forward_value_laws.specs.Tails.{IsSymbol, LiesBelow, TakesRest, AreTails, IsWalkedTo};

use semiring_laws::Semiring;

/// What lies below a source is made of runs, and so is what a walk makes of it where the second pattern takes the rest.
pub fn tail_weights_are_sums<S: Semiring>()
    ensures ends { (p : Pushdown S S.W S.Ret) → let s = S.operations p.semiring in
        (first : PatternValue) (i : ℕ) (word : List ℕ) (last : ℕ) → IsSystem S.operations p →
        Reads (edges_of first.items) i word last → IsTrue (is_final_of first.items last) →
        AllByRecursion (IsSymbol p first) word →
        Sums s (value_of s p) (LiesBelow p first (item i)) s.one }
    ensures opens { (p : Pushdown S S.W S.Ret) → let s = S.operations p.semiring in
        (first : PatternValue) (k : ℕ) (r : RuleValue S S.W S.Ret) (g h : ℕ)
        (from : Source) (t v : S.W) → IsSystem S.operations p → slice_get p.rules k ≡ Some r →
        r.right ≡ g ∷ h ∷ [] → Sums s (value_of s p) (LiesBelow p first from) t →
        Sums s (value_of s p) (Comes p first.control (edges_of first.items) (head_of r) from) v →
        Sums s (value_of s p) (LiesBelow p first (callee r.to g))
        (s.extend t (s.extend v r.weight)) }
    ensures rests { (p : Pushdown S S.W S.Ret) → let s = S.operations p.semiring in
        (first wanted : PatternValue) (j : ℕ) (from : Source) (t w : S.W) →
        IsSystem S.operations p → TakesRest (IsSymbol p first) wanted.items j →
        Sums s (value_of s p) (LiesBelow p first from) t →
        Sums s (value_of s p)
        (Walks first.control first.items wanted.control wanted.items p j from) w →
        Sums s (value_of s p) (Leads s p (has_member first) (has_member wanted)) (s.extend t w) }
{}

/// A walk that goes no further where tails tell the rest: with nothing left to do, and a last weight that is a sum of runs, it has
/// the answer.
pub fn stopped_walks_answer<S: Semiring>()
    ensures { (p : Pushdown S S.W S.Ret) → let s = S.operations p.semiring in
        (first wanted : PatternValue) (weight : Configuration → Source → S.W)
        (stops : ℕ → Bool) (tail : Source → S.W) (pair : ℕ → Source → S.W) (answer : S.W) →
        IsSystem S.operations p →
        IsClosed s p first.control (edges_of first.items) weight →
        ((j : ℕ) → IsTrue (stops j) → AreTails s p first.items weight tail) →
        IsWalkedTo s p first.items weight wanted.control wanted.items stops tail pair answer →
        (sum : Sums s (value_of s p) (Leads s p (has_member first) (has_member wanted)) answer) →
        Answers s p (has_member first) (has_member wanted) answer sum.list }
{}
