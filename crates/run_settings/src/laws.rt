ghost use Rattle.std.specs.Prelude.{◌≡◌, ℕ, Bool, List};
ghost use Rattle.pushdown_rules.specs.declared.rule.Rule.{Rule as RuleValue};
ghost use Rattle.pushdown_rules.specs.RunValue.{Frame};
ghost use Rattle.relation_weights.specs.declared.rel_map.Slot.{Slot};
ghost use Rattle.setting_runs.specs.Relations.{Setting};
ghost use Rattle.setting_runs.specs.Settings.{AreMoments};
ghost use Rattle.run_settings.specs.Settings.{moments, LeadAlong};

use semiring_laws::Semiring;

/// Settings that lead along rules are the present settings of the run's moments.
pub fn settings_are_moments<S: Semiring>()
    ensures { (semiring : S) → let s = S.operations semiring in (n : ℕ)
        (relates : S.W → Setting → Setting → Bool) (slots : S.Ret → ℕ → Slot)
        (rules : List (RuleValue S S.W S.Ret)) (calls : List (Frame Setting S.Ret)) (z : Setting)
        (later : List Setting) → LeadAlong s n relates slots rules calls z later
        → AreMoments s n relates slots rules (record { accumulator = z; frames = calls })
        (moments s rules calls z later) }
{}
