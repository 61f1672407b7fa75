ghost use Rattle.std.specs.Prelude.{◌≡◌, ◌<◌, ℕ, List, length};
ghost use Rattle.wpds_base.specs.Limits.{most_rules};
ghost use Rattle.pushdown_rules.specs.declared.rule.Rule.{Rule as RuleValue};
ghost use Rattle.pushdown_rules.specs.Configuration.{Configuration};
ghost use Rattle.pushdown_rules.specs.Firing.{Run};
ghost use Rattle.pushdown_rules.specs.Values.{value_of};
ghost use Rattle.pushdown_rules.specs.InSystem.{IsRuleIn};
ghost use Rattle.saturation_laws.specs.Searches.{SearchValue, IsSearch};
ghost use Rattle.prestar_laws.specs.LaterRules.{and_rule, NameRulesBelow, with_later_rule};
ghost use Rattle.weighted_automata.specs.declared.transitions.Entry.{Entry};
ghost use Rattle.weighted_automata.specs.Entries.{HasDistinctPlaces};
ghost use Rattle.pushdown_rules.specs.Pushdown.{Pushdown, IsSystem};
ghost use Rattle.saturation_laws.specs.declared.opening.Opening.{Opening};
ghost use Rattle.prestar_laws.specs.Ways.{HasBackwardSums, pre_way};
ghost use Rattle.prestar_laws.specs.Jobs.{pre_jobs};
ghost use Rattle.wpds_base.specs.Lists.{IsOnce};
ghost use Rattle.direction_parts.specs.Places.{LeadsToItems};

use semiring_laws::Semiring;

/// Backwards, a run is met by a path, and a path gives a run.
pub fn backward_sums<S: Semiring>()
    ensures { (p : Pushdown S S.W S.Ret) (o : Opening) → IsSystem S.operations p
        → LeadsToItems p.controls o.edges → HasBackwardSums S.operations p o }
{}

/// Backwards, each job of a transition is listed once, also one in which it is both inputs.
pub fn backward_jobs_stand_once<S: Semiring>()
    ensures { (p : Pushdown S S.W S.Ret) (ts : List (Entry S S.W S.Ret)) (t : Entry S S.W S.Ret)
        → HasDistinctPlaces ts → IsOnce (pre_jobs p ts t) }
{}

/// A rule may come to a backward search, whether it is done or not: where a pop rule lowers its own place, and of any other rule
/// those transitions wait that it reads first, what is left is a search over the system with that rule. So every run that was found
/// stays found, and only what the new rule gives is still to be drawn.
pub fn rules_may_come_later<S: Semiring, D>()
    ensures search { (v : SearchValue S S.W S.Ret D) (r : RuleValue S S.W S.Ret) →
        IsSearch S.operations (pre_way S.operations) v →
        NameRulesBelow (length v.system.rules) v.state.nodes →
        IsRuleIn S.operations v.system r → length v.system.rules < most_rules →
        IsSearch S.operations (pre_way S.operations) (with_later_rule S.operations r v) }
    ensures names { (v : SearchValue S S.W S.Ret D) (r : RuleValue S S.W S.Ret) →
        IsSearch S.operations (pre_way S.operations) v →
        NameRulesBelow (length v.system.rules) v.state.nodes →
        IsRuleIn S.operations v.system r → length v.system.rules < most_rules →
        let w = with_later_rule S.operations r v in
        NameRulesBelow (length w.system.rules) w.state.nodes }
{}

/// A run of a system is one of the system with a rule more, of the same value.
pub fn rules_more_keep_runs<S: Semiring>()
    ensures runs { (p : Pushdown S S.W S.Ret) (r : RuleValue S S.W S.Ret) (c d : Configuration)
        (run : List ℕ) →
        Run p c run d → Run (and_rule p r) c run d }
    ensures values { (p : Pushdown S S.W S.Ret) (r : RuleValue S S.W S.Ret) (c d : Configuration)
        (run : List ℕ) →
        let s = S.operations p.semiring in
        Run p c run d → value_of s (and_rule p r) run ≡ value_of s p run }
{}
