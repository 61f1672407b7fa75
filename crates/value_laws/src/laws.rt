ghost use Rattle.std.specs.Prelude.{◌≡◌, ◌⊎◌, ℕ, IsTrue, List, [], ◌∷◌, Some, slice_get};
ghost use Rattle.wpds_base.specs.Lists.{IsIn};
ghost use Rattle.pushdown_rules.specs.declared.rule.Rule.{Rule as RuleValue};
ghost use Rattle.value_laws.specs.Steps.{without, IsFurther, ArePopsMet, AreEntersMet};
ghost use Rattle.pushdown_rules.specs.Pushdown.{Pushdown, IsSystem};
ghost use Rattle.pushdown_rules.specs.Values.{value_of};
ghost use Rattle.config_patterns.specs.declared.edge.Edge.{Edge as EdgeValue};
ghost use Rattle.value_laws.specs.Runs.{Pops, Enters, Sums, IsSum};
ghost use Rattle.value_laws.specs.Walk.{Pairs, Descends, Crosses, IsWalkSettled};
ghost use Rattle.semiring_laws.specs.Semiring.{Fits, Below};
ghost use Rattle.pushdown_rules.specs.Answers.{Leads, Answers};
ghost use Rattle.config_patterns.specs.Membership.{PatternValue, has_member};
ghost use Rattle.config_patterns.specs.Edges.{edges_of, is_final_of};
ghost use Rattle.value_laws.specs.Settled.{Table, AreWeights, ArePops, AreEnters, ArePopsSettled, AreEntersSettled, first_worth, returned_worth};

use semiring_laws::Semiring;

/// Between controls: weights that combine runs and are settled are the sums of all runs of their places.
pub fn settled_pops_are_sums<S: Semiring>()
    ensures { (p : Pushdown S S.W S.Ret) → let s = S.operations p.semiring in
        (weight : Table S.W) → IsSystem S.operations p → AreWeights s weight →
        ArePops s p weight → ArePopsSettled s p weight weight →
        (from g to : ℕ) → IsSum s (value_of s p) (Pops p from g to) (weight from g to) }
{}

/// To a target: the same, over the sums between controls.
pub fn settled_enters_are_sums<S: Semiring>()
    ensures { (p : Pushdown S S.W S.Ret) → let s = S.operations p.semiring in
        (control : ℕ) (edges : List EdgeValue) (pops weight : Table S.W) →
        IsSystem S.operations p → AreWeights s pops → AreWeights s weight →
        ((from g to : ℕ) → IsSum s (value_of s p) (Pops p from g to) (pops from g to)) →
        AreEnters s p control edges weight →
        AreEntersSettled s p control edges pops weight weight →
        (from g to : ℕ) →
        IsSum s (value_of s p) (Enters p control edges from g to) (weight from g to) }
{}

/// Between two patterns: a walk that combines runs and is settled gives an answer to their query.
pub fn settled_walks_answer<S: Semiring>()
    ensures { (p : Pushdown S S.W S.Ret) → let s = S.operations p.semiring in
        (from to : PatternValue) (pops enters : Table S.W) (down across : Pairs S.W)
        (answer : S.W) →
        IsSystem S.operations p → AreWeights s pops → AreWeights s enters →
        ((c g q : ℕ) → IsSum s (value_of s p) (Pops p c g q) (pops c g q)) →
        ((c g a : ℕ) → IsSum s (value_of s p)
        (Enters p to.control (edges_of to.items) c g a) (enters c g a)) →
        ((i c : ℕ) → Fits s (down i c)) → ((i a : ℕ) → Fits s (across i a)) → Fits s answer →
        IsWalkSettled s from to pops enters down across down across answer →
        (sums : Sums s (value_of s p) (Leads s p (has_member from) (has_member to)) answer) →
        Answers s p (has_member from) (has_member to) answer sums.list }
{}

/// Between controls: what a rule makes of weights that combine runs combines runs.
pub fn rules_make_pops<S: Semiring>()
    ensures pops { (p : Pushdown S S.W S.Ret) → let s = S.operations p.semiring in
        (k : ℕ) (r : RuleValue S S.W S.Ret) → IsSystem S.operations p →
        slice_get p.rules k ≡ Some r → r.right ≡ [] →
        Sums s (value_of s p) (Pops p r.control r.symbol r.to) r.weight }
    ensures steps { (p : Pushdown S S.W S.Ret) → let s = S.operations p.semiring in
        (k : ℕ) (r : RuleValue S S.W S.Ret) (g to : ℕ) (w : S.W) → IsSystem S.operations p →
        slice_get p.rules k ≡ Some r → r.right ≡ g ∷ [] →
        Sums s (value_of s p) (Pops p r.to g to) w →
        Sums s (value_of s p) (Pops p r.control r.symbol to) (first_worth s r w) }
    ensures calls { (p : Pushdown S S.W S.Ret) → let s = S.operations p.semiring in
        (k : ℕ) (r : RuleValue S S.W S.Ret) (g h mid to : ℕ) (v w : S.W) → IsSystem S.operations p →
        slice_get p.rules k ≡ Some r → r.right ≡ g ∷ h ∷ [] →
        Sums s (value_of s p) (Pops p r.to g mid) v → Sums s (value_of s p) (Pops p mid h to) w →
        Sums s (value_of s p) (Pops p r.control r.symbol to) (returned_worth s r v w) }
{}

/// To a target: the same.
pub fn rules_make_enters<S: Semiring>()
    ensures opens { (p : Pushdown S S.W S.Ret) → let s = S.operations p.semiring in
        (control : ℕ) (edges : List EdgeValue) (g to : ℕ) → IsSystem S.operations p →
        IsIn (record { from = 0; symbol = g; to = to }) edges →
        Sums s (value_of s p) (Enters p control edges control g to) s.one }
    ensures steps { (p : Pushdown S S.W S.Ret) → let s = S.operations p.semiring in
        (control : ℕ) (edges : List EdgeValue) (k : ℕ) (r : RuleValue S S.W S.Ret) (g to : ℕ)
        (w : S.W) →
        IsSystem S.operations p → slice_get p.rules k ≡ Some r → r.right ≡ g ∷ [] →
        Sums s (value_of s p) (Enters p control edges r.to g to) w →
        Sums s (value_of s p) (Enters p control edges r.control r.symbol to) (first_worth s r w) }
    ensures calls { (p : Pushdown S S.W S.Ret) → let s = S.operations p.semiring in
        (control : ℕ) (edges : List EdgeValue) (k : ℕ) (r : RuleValue S S.W S.Ret) (g h mid to : ℕ)
        (v w : S.W) → IsSystem S.operations p → slice_get p.rules k ≡ Some r →
        r.right ≡ g ∷ h ∷ [] →
        Sums s (value_of s p) (Pops p r.to g mid) v →
        Sums s (value_of s p) (Enters p control edges mid h to) w →
        Sums s (value_of s p) (Enters p control edges r.control r.symbol to)
        (returned_worth s r v w) }
    ensures stays { (p : Pushdown S S.W S.Ret) → let s = S.operations p.semiring in
        (control : ℕ) (edges : List EdgeValue) (k : ℕ) (r : RuleValue S S.W S.Ret) (g h mid to : ℕ)
        (w : S.W) → IsSystem S.operations p → slice_get p.rules k ≡ Some r → r.right ≡ g ∷ h ∷ [] →
        IsIn (record { from = mid; symbol = h; to = to }) edges →
        Sums s (value_of s p) (Enters p control edges r.to g mid) w →
        Sums s (value_of s p) (Enters p control edges r.control r.symbol to) (first_worth s r w) }
{}

/// Lowering goals keeps what was settled, and what a transition gave, in any order.
pub fn settled_weights_stay_settled<S: Semiring>()
    ensures pops { (p : Pushdown S S.W S.Ret) → let s = S.operations p.semiring in
        (a b a' b' : Table S.W) → IsSystem S.operations p → AreWeights s a → AreWeights s b →
        AreWeights s a' → AreWeights s b' → IsFurther s a b a' b' →
        ArePopsSettled s p a b → ArePopsSettled s p a' b' }
    ensures pops_met { (p : Pushdown S S.W S.Ret) → let s = S.operations p.semiring in
        (a b a' b' : Table S.W) → IsSystem S.operations p → AreWeights s a → AreWeights s b →
        AreWeights s a' → AreWeights s b' → IsFurther s a b a' b' →
        (c g q : ℕ) (w : S.W) → Fits s w → ArePopsMet s p c g q w a b →
        ArePopsMet s p c g q w a' b' }
    ensures enters { (p : Pushdown S S.W S.Ret) → let s = S.operations p.semiring in
        (control : ℕ) (edges : List EdgeValue) (pops a b a' b' : Table S.W) →
        IsSystem S.operations p →
        AreWeights s pops → AreWeights s a → AreWeights s b → AreWeights s a' → AreWeights s b' →
        IsFurther s a b a' b' →
        AreEntersSettled s p control edges pops a b →
        AreEntersSettled s p control edges pops a' b' }
    ensures enters_met { (p : Pushdown S S.W S.Ret) → let s = S.operations p.semiring in
        (edges : List EdgeValue) (pops a b a' b' : Table S.W) → IsSystem S.operations p →
        AreWeights s pops → AreWeights s a → AreWeights s b → AreWeights s a' → AreWeights s b' →
        IsFurther s a b a' b' →
        (c g q : ℕ) (w : S.W) → Fits s w →
        AreEntersMet s p edges pops c g q w a → AreEntersMet s p edges pops c g q w a' }
{}

/// A transition that was taken, once all that it gives is there, is settled; where it was lowered meanwhile, it waits again.
pub fn taken_transitions_are_settled<S: Semiring>()
    ensures pops { (p : Pushdown S S.W S.Ret) → let s = S.operations p.semiring in
        (c g q : ℕ) (w : S.W) (a b : Table S.W) → IsSystem S.operations p → Fits s w →
        AreWeights s a → AreWeights s b → (b c g q ≡ w) ⊎ (b c g q ≡ s.zero) →
        ArePopsSettled s p a (without s.zero c g q b) → ArePopsMet s p c g q w a b →
        ArePopsSettled s p a b }
    ensures enters { (p : Pushdown S S.W S.Ret) → let s = S.operations p.semiring in
        (control : ℕ) (edges : List EdgeValue) (pops : Table S.W)
        (c g q : ℕ) (w : S.W) (a b : Table S.W) → IsSystem S.operations p → Fits s w →
        AreWeights s pops → AreWeights s a → AreWeights s b → (b c g q ≡ w) ⊎ (b c g q ≡ s.zero) →
        AreEntersSettled s p control edges pops a (without s.zero c g q b) →
        AreEntersMet s p edges pops c g q w a →
        AreEntersSettled s p control edges pops a b }
{}

/// What each step of a walk makes of weights that combine runs combines runs.
pub fn walk_steps_make_sums<S: Semiring>()
    ensures begins { (p : Pushdown S S.W S.Ret) → let s = S.operations p.semiring in
        (from : PatternValue) → IsSystem S.operations p →
        Sums s (value_of s p) (Descends p from.control (edges_of from.items) 0 from.control) s.one }
    ensures falls { (p : Pushdown S S.W S.Ret) → let s = S.operations p.semiring in
        (from : PatternValue) (i g j c q : ℕ) (v w : S.W) → IsSystem S.operations p →
        IsIn (record { from = i; symbol = g; to = j }) (edges_of from.items) →
        Sums s (value_of s p) (Descends p from.control (edges_of from.items) i c) v →
        Sums s (value_of s p) (Pops p c g q) w →
        Sums s (value_of s p) (Descends p from.control (edges_of from.items) j q) (s.extend v w) }
    ensures goes_in { (p : Pushdown S S.W S.Ret) → let s = S.operations p.semiring in
        (from to : PatternValue) (i g j c a : ℕ) (v w : S.W) → IsSystem S.operations p →
        let source = edges_of from.items in let target = edges_of to.items in
        IsIn (record { from = i; symbol = g; to = j }) source →
        Sums s (value_of s p) (Descends p from.control source i c) v →
        Sums s (value_of s p) (Enters p to.control target c g a) w →
        Sums s (value_of s p) (Crosses p from.control source to.control target j a) (s.extend v w) }
    ensures reads { (p : Pushdown S S.W S.Ret) → let s = S.operations p.semiring in
        (from to : PatternValue) (i g j a b : ℕ) (w : S.W) → IsSystem S.operations p →
        let source = edges_of from.items in let target = edges_of to.items in
        IsIn (record { from = i; symbol = g; to = j }) source →
        IsIn (record { from = a; symbol = g; to = b }) target →
        Sums s (value_of s p) (Crosses p from.control source to.control target i a) w →
        Sums s (value_of s p) (Crosses p from.control source to.control target j b) w }
    ensures meets { (p : Pushdown S S.W S.Ret) → let s = S.operations p.semiring in
        (from to : PatternValue) (i : ℕ) (w : S.W) → IsSystem S.operations p →
        let source = edges_of from.items in let target = edges_of to.items in
        Sums s (value_of s p) (Descends p from.control source i to.control) w →
        Sums s (value_of s p) (Crosses p from.control source to.control target i 0) w }
    ensures ends { (p : Pushdown S S.W S.Ret) → let s = S.operations p.semiring in
        (from to : PatternValue) (i a : ℕ) (w : S.W) → IsSystem S.operations p →
        let source = edges_of from.items in let target = edges_of to.items in
        IsTrue (is_final_of from.items i) → IsTrue (is_final_of to.items a) →
        Sums s (value_of s p) (Crosses p from.control source to.control target i a) w →
        Sums s (value_of s p) (Leads s p (has_member from) (has_member to)) w }
{}
