ghost use Rattle.std.specs.Prelude.{◌≡◌, ◌≢◌, ◌≤◌, ◌∷◌, [], ℕ, Bool, List, IsTrue, Some, slice_get, length};
ghost use Rattle.wpds_base.specs.Lists.{IsIn};
ghost use Rattle.semiring_laws.specs.Semiring.{Fits};
ghost use Rattle.pushdown_rules.specs.declared.rule.Rule.{Rule as RuleValue};
ghost use Rattle.pushdown_rules.specs.Configuration.{Configuration, at_stack};
ghost use Rattle.pushdown_rules.specs.Pushdown.{Pushdown, IsSystem};
ghost use Rattle.pushdown_rules.specs.Firing.{Run};
ghost use Rattle.pushdown_rules.specs.Values.{value_of};
ghost use Rattle.pushdown_rules.specs.Answers.{Answers, Leads};
ghost use Rattle.config_patterns.specs.declared.item.Item.{Item as ItemValue};
ghost use Rattle.config_patterns.specs.declared.edge.Edge.{Edge as EdgeValue};
ghost use Rattle.config_patterns.specs.Edges.{edges_of, is_final_of};
ghost use Rattle.config_patterns.specs.Membership.{PatternValue, has_member};
ghost use Rattle.config_patterns.specs.Paths.{Reads};
ghost use Rattle.value_laws.specs.Runs.{Sums};
ghost use Rattle.forward_value_laws.specs.Model.{Source, item, callee, head_of, Comes, IsClosed, IsMet, Walks, IsWalked};
ghost use Rattle.forward_value_laws.specs.Settling.{call_weight, IsCalm, IsAmong, But, Lowers, IsSettled, IsGiven};

use semiring_laws::Semiring;

/// Where nothing is left to do, each run from a member of the first pattern is met, if its value is not zero: by a row on top
/// and a way down from it, with a product below the value.
pub fn closed_weights_meet_runs<S: Semiring>()
    ensures { (p : Pushdown S S.W S.Ret) → let s = S.operations p.semiring in
        (start : ℕ) (items : List ItemValue) (weight : Configuration → Source → S.W) →
        IsSystem S.operations p →
        IsClosed s p start (edges_of items) weight →
        (word : List ℕ) (last : ℕ) (run : List ℕ) (d : Configuration) →
        Reads (edges_of items) 0 word last → IsTrue (is_final_of items last) →
        Run p (at_stack start word) run d → value_of s p run ≢ s.zero →
        IsMet s p items weight d (value_of s p run) }
{}

/// Where nothing is left to do in the search nor in the walk, and the walk's last weight is a sum of runs, it is the answer.
pub fn walks_answer<S: Semiring>()
    ensures { (p : Pushdown S S.W S.Ret) → let s = S.operations p.semiring in
        (first wanted : PatternValue) (weight : Configuration → Source → S.W)
        (pair : ℕ → Source → S.W) (answer : S.W) → IsSystem S.operations p →
        IsClosed s p first.control (edges_of first.items) weight →
        IsWalked s p first.items weight wanted.control wanted.items pair answer →
        (sum : Sums s (value_of s p) (Leads s p (has_member first) (has_member wanted)) answer) →
        Answers s p (has_member first) (has_member wanted) answer sum.list }
{}

/// What a step of the search makes of sums of runs are sums of runs.
pub fn search_weights_are_sums<S: Semiring>()
    ensures starts { (p : Pushdown S S.W S.Ret) → let s = S.operations p.semiring in
        (start : ℕ) (edges : List EdgeValue) → IsSystem S.operations p →
        Sums s (value_of s p) (Comes p start edges (at_stack start []) (item 0)) s.one }
    ensures uncovers { (p : Pushdown S S.W S.Ret) → let s = S.operations p.semiring in
        (start : ℕ) (edges : List EdgeValue) (q i g j : ℕ) (w : S.W) → IsSystem S.operations p →
        IsIn (record { from = i; symbol = g; to = j }) edges →
        Sums s (value_of s p) (Comes p start edges (at_stack q []) (item i)) w →
        Sums s (value_of s p) (Comes p start edges (at_stack q (g ∷ [])) (item j)) w }
    ensures steps { (p : Pushdown S S.W S.Ret) → let s = S.operations p.semiring in
        (start : ℕ) (edges : List EdgeValue) (k : ℕ) (r : RuleValue S S.W S.Ret) (from : Source)
        (w : S.W) →
        IsSystem S.operations p → slice_get p.rules k ≡ Some r → length r.right ≤ 1 →
        Sums s (value_of s p) (Comes p start edges (head_of r) from) w →
        Sums s (value_of s p) (Comes p start edges (at_stack r.to r.right) from)
        (s.extend w r.weight) }
    ensures enters { (p : Pushdown S S.W S.Ret) → let s = S.operations p.semiring in
        (start : ℕ) (edges : List EdgeValue) (to g : ℕ) → IsSystem S.operations p →
        Sums s (value_of s p) (Comes p start edges (at_stack to (g ∷ [])) (callee to g)) s.one }
    ensures returns { (p : Pushdown S S.W S.Ret) → let s = S.operations p.semiring in
        (start : ℕ) (edges : List EdgeValue) (k : ℕ) (r : RuleValue S S.W S.Ret) (g h q : ℕ)
        (from : Source) (v w : S.W) → IsSystem S.operations p → slice_get p.rules k ≡ Some r →
        r.right ≡ g ∷ h ∷ [] →
        Sums s (value_of s p) (Comes p start edges (head_of r) from) v →
        Sums s (value_of s p) (Comes p start edges (at_stack q []) (callee r.to g)) w →
        Sums s (value_of s p) (Comes p start edges (at_stack q (h ∷ [])) from)
        (s.extend v (call_weight s r w)) }
    ensures combined { (p : Pushdown S S.W S.Ret) → let s = S.operations p.semiring in
        (start : ℕ) (edges : List EdgeValue) (row : Configuration) (from : Source) (v w : S.W) →
        IsSystem S.operations p →
        Sums s (value_of s p) (Comes p start edges row from) v →
        Sums s (value_of s p) (Comes p start edges row from) w →
        Sums s (value_of s p) (Comes p start edges row from) (s.combine v w) }
{}

/// What a step of the walk makes of sums of runs are sums of runs.
pub fn walk_weights_are_sums<S: Semiring>()
    ensures tops { (p : Pushdown S S.W S.Ret) → let s = S.operations p.semiring in
        (first wanted : PatternValue) (g j : ℕ) (from : Source) (w : S.W) →
        IsSystem S.operations p →
        IsIn (record { from = 0; symbol = g; to = j }) (edges_of wanted.items) →
        Sums s (value_of s p)
        (Comes p first.control (edges_of first.items) (at_stack wanted.control (g ∷ [])) from) w →
        Sums s (value_of s p)
        (Walks first.control first.items wanted.control wanted.items p j from) w }
    ensures uncovered { (p : Pushdown S S.W S.Ret) → let s = S.operations p.semiring in
        (first wanted : PatternValue) (i : ℕ) (w : S.W) → IsSystem S.operations p →
        Sums s (value_of s p)
        (Comes p first.control (edges_of first.items) (at_stack wanted.control []) (item i)) w →
        Sums s (value_of s p) (Walks first.control first.items wanted.control wanted.items p 0
        (item i)) w }
    ensures opens { (p : Pushdown S S.W S.Ret) → let s = S.operations p.semiring in
        (first wanted : PatternValue) (k : ℕ) (r : RuleValue S S.W S.Ret) (g h i j : ℕ)
        (from : Source) (v w : S.W) → IsSystem S.operations p → slice_get p.rules k ≡ Some r →
        r.right ≡ g ∷ h ∷ [] →
        IsIn (record { from = i; symbol = h; to = j }) (edges_of wanted.items) →
        Sums s (value_of s p) (Comes p first.control (edges_of first.items) (head_of r) from) v →
        Sums s (value_of s p)
        (Walks first.control first.items wanted.control wanted.items p i (callee r.to g)) w →
        Sums s (value_of s p) (Walks first.control first.items wanted.control wanted.items p j from)
        (s.extend (s.extend v r.weight) w) }
    ensures reads { (p : Pushdown S S.W S.Ret) → let s = S.operations p.semiring in
        (first wanted : PatternValue) (h i j a b : ℕ) (w : S.W) → IsSystem S.operations p →
        IsIn (record { from = i; symbol = h; to = j }) (edges_of wanted.items) →
        IsIn (record { from = a; symbol = h; to = b }) (edges_of first.items) →
        Sums s (value_of s p) (Walks first.control first.items wanted.control wanted.items p i
        (item a)) w →
        Sums s (value_of s p) (Walks first.control first.items wanted.control wanted.items p j
        (item b)) w }
    ensures ends { (p : Pushdown S S.W S.Ret) → let s = S.operations p.semiring in
        (first wanted : PatternValue) (j a : ℕ) (w : S.W) → IsSystem S.operations p →
        IsTrue (is_final_of wanted.items j) → IsTrue (is_final_of first.items a) →
        Sums s (value_of s p) (Walks first.control first.items wanted.control wanted.items p j
        (item a)) w →
        Sums s (value_of s p) (Leads s p (has_member first) (has_member wanted)) w }
{}

/// Whatever order the steps come in: to lower keeps a search settled; a place that has given all it gives is as the others;
/// and where nothing waits nothing is left to do.
pub fn search_steps_keep<S: Semiring>()
    ensures lowering { (p : Pushdown S S.W S.Ret) → let s = S.operations p.semiring in
        (start : ℕ) (edges : List EdgeValue) (weight weight' : Configuration → Source → S.W)
        (waits waits' : Configuration → Source → Bool) → IsSystem S.operations p →
        Lowers s weight (IsCalm waits) weight' (IsCalm waits') →
        IsSettled s p start edges weight (IsCalm waits) →
        IsSettled s p start edges weight' (IsCalm waits') }
    ensures taking { (p : Pushdown S S.W S.Ret) → let s = S.operations p.semiring in
        (start : ℕ) (edges : List EdgeValue) (weight : Configuration → Source → S.W)
        (waits taken : Configuration → Source → Bool) (w : S.W) → IsSystem S.operations p →
        ((row : Configuration) (from : Source) → IsAmong taken row from → IsCalm waits row from →
        weight row from ≡ w) →
        IsSettled s p start edges weight (But (IsAmong taken) (IsCalm waits)) →
        IsGiven s p start edges weight (IsCalm waits) (IsAmong taken) w →
        IsSettled s p start edges weight (IsCalm waits) }
    ensures done { (p : Pushdown S S.W S.Ret) → let s = S.operations p.semiring in
        (start : ℕ) (edges : List EdgeValue) (weight : Configuration → Source → S.W)
        (waits : Configuration → Source → Bool) → IsSystem S.operations p →
        ((row : Configuration) (from : Source) → IsCalm waits row from) →
        IsSettled s p start edges weight (IsCalm waits) → IsClosed s p start edges weight }
{}
