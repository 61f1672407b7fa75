ghost use Rattle.std.specs.Prelude.{◌≡◌, ◌≢◌, ◌↔◌, ℕ, Bool, List, [], IsTrue};
ghost use Rattle.pushdown_rules.specs.Pushdown.{Pushdown, IsSystem};
ghost use Rattle.pushdown_rules.specs.RunValue.{Frame};
ghost use Rattle.pushdown_rules.specs.Values.{rules_of, value_of};
ghost use Rattle.relation_laws.specs.States.{AgreeBelow};
ghost use Rattle.relation_weights.specs.declared.rel_map.Slot.{Slot};
ghost use Rattle.setting_runs.specs.Relations.{Setting, MeansRelations};
ghost use Rattle.setting_runs.specs.Settings.{Lead};

use semiring_laws::Semiring;

/// The relation that is a run's value has exactly the pairs between which settings lead along its
/// rules, with no call open at the start; and it is not empty exactly where some settings lead
/// along them.
pub fn settings_lead_along_runs<S: Semiring>()
    ensures pairs { (system : Pushdown S S.W S.Ret) (n : ℕ)
        (relates : S.W → Setting → Setting → Bool) (slots : S.Ret → ℕ → Slot)
        → let s = S.operations system.semiring in IsSystem S.operations system
        → MeansRelations s n relates slots → (run : List ℕ) (x y : Setting)
        → IsTrue (relates (value_of s system run) x y) ↔ ((z : Setting)
        × (calls : List (Frame Setting S.Ret)) × AgreeBelow n z x
        × Lead s n relates slots (rules_of s system run) [] z calls y) }
    ensures feasible { (system : Pushdown S S.W S.Ret) (n : ℕ)
        (relates : S.W → Setting → Setting → Bool) (slots : S.Ret → ℕ → Slot)
        → let s = S.operations system.semiring in IsSystem S.operations system
        → MeansRelations s n relates slots → (run : List ℕ)
        → (value_of s system run ≢ s.zero) ↔ ((z : Setting) × (y : Setting)
        × (calls : List (Frame Setting S.Ret))
        × Lead s n relates slots (rules_of s system run) [] z calls y) }
{}
