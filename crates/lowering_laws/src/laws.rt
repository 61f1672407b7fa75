ghost use Rattle.std.specs.Prelude.{◌≡◌, ◌≢◌, ◌↔◌, ℕ, Bool, List, [], ◌∷◌};
ghost use Rattle.pushdown_rules.specs.Configuration.{Configuration, at_stack};
ghost use Rattle.pushdown_rules.specs.Pushdown.{Pushdown, IsSystem};
ghost use Rattle.pushdown_rules.specs.Firing.{Run};
ghost use Rattle.pushdown_rules.specs.RunValue.{Machine};
ghost use Rattle.pushdown_rules.specs.Values.{rules_of, value_of};
ghost use Rattle.pushdown_rules.specs.Answers.{HasFeasibleRun};
ghost use Rattle.config_patterns.specs.Membership.{has_member};
ghost use Rattle.relation_weights.specs.declared.rel_map.Slot.{Slot};
ghost use Rattle.boolean_programs.specs.declared.point.Point.{Point};
ghost use Rattle.boolean_programs.specs.Programs.{Program};
ghost use Rattle.boolean_programs.specs.Structure.{IsRead};
ghost use Rattle.boolean_machine.specs.Machine.{State, IsProgramRun, IsReached};
ghost use Rattle.boolean_machine.specs.Lawful.{IsLawful};
ghost use Rattle.program_laws.specs.ReadPrograms.{IsPoint};
ghost use Rattle.setting_runs.specs.Relations.{Setting, MeansRelations};
ghost use Rattle.setting_runs.specs.Settings.{AreMoments};
ghost use Rattle.lowering_laws.specs.Lowering.{variables, symbol, IsLowering};
ghost use Rattle.lowering_laws.specs.Queries.{entry_point, entry_pattern, point_pattern, IsTrace};
ghost use Rattle.lowering_laws.specs.States.{states_along};

use semiring_laws::Semiring;

/// A point is on top in some state of some run of the program exactly where some run of the
/// lowering from main's first line to the point has a value that is not the empty relation (Ball,
/// Rajamani 2000; Schwoon 2002).
pub fn points_are_reached<S: Semiring>()
    ensures { (p : Program) (point : Point) (system : Pushdown S S.W S.Ret)
        (relates : S.W → Setting → Setting → Bool) (slots : S.Ret → ℕ → Slot)
        → let s = S.operations system.semiring in IsLawful p → IsPoint p point
        → IsSystem S.operations system → MeansRelations s (variables p) relates slots
        → IsLowering relates slots p system
        → HasFeasibleRun s system (has_member (entry_pattern p))
        (has_member (point_pattern p point))
        ↔ IsReached p point }
{}

/// A feasible run of the lowering from main's first line is a run of the program: one state for
/// each configuration, at the points of its stack.
pub fn runs_have_traces<S: Semiring>()
    ensures { (p : Program) (system : Pushdown S S.W S.Ret)
        (relates : S.W → Setting → Setting → Bool) (slots : S.Ret → ℕ → Slot)
        → let s = S.operations system.semiring in IsLawful p → IsSystem S.operations system
        → MeansRelations s (variables p) relates slots → IsLowering relates slots p system
        → (run : List ℕ) (d : Configuration)
        → let start = at_stack 0 (symbol p (entry_point p) ∷ []) in Run system start run d
        → value_of s system run ≢ s.zero
        → (states : List State) × IsProgramRun p states × IsTrace p system start run states }
{}

/// Settings that lead along a run from main's first line, with those at its open calls, make the
/// states of a run of the program, one for each configuration at the points of its stack. Where the run's value is not the empty relation there are such
/// settings.
pub fn moments_are_runs<S: Semiring>()
    ensures states { (p : Program) (system : Pushdown S S.W S.Ret)
        (relates : S.W → Setting → Setting → Bool) (slots : S.Ret → ℕ → Slot)
        → let s = S.operations system.semiring in IsRead p → IsLawful p
        → IsSystem S.operations system → MeansRelations s (variables p) relates slots
        → IsLowering relates slots p system → (run : List ℕ) (d : Configuration)
        → let start = at_stack 0 (symbol p (entry_point p) ∷ []) in Run system start run d
        → (m : Machine Setting S.Ret) (later : List (Machine Setting S.Ret)) → m.frames ≡ []
        → AreMoments s (variables p) relates slots (rules_of s system run) m later
        → IsProgramRun p (states_along p system start run m later) }
    ensures trace { (p : Program) (system : Pushdown S S.W S.Ret)
        (relates : S.W → Setting → Setting → Bool) (slots : S.Ret → ℕ → Slot)
        → let s = S.operations system.semiring in IsRead p → IsLawful p
        → IsSystem S.operations system → MeansRelations s (variables p) relates slots
        → IsLowering relates slots p system → (run : List ℕ) (d : Configuration)
        → let start = at_stack 0 (symbol p (entry_point p) ∷ []) in Run system start run d
        → (m : Machine Setting S.Ret) (later : List (Machine Setting S.Ret)) → m.frames ≡ []
        → AreMoments s (variables p) relates slots (rules_of s system run) m later
        → IsTrace p system start run (states_along p system start run m later) }
    ensures found { (p : Program) (system : Pushdown S S.W S.Ret)
        (relates : S.W → Setting → Setting → Bool) (slots : S.Ret → ℕ → Slot)
        → let s = S.operations system.semiring in IsRead p → IsLawful p
        → IsSystem S.operations system → MeansRelations s (variables p) relates slots
        → IsLowering relates slots p system
        → (run : List ℕ) → value_of s system run ≢ s.zero
        → (m : Machine Setting S.Ret) × (later : List (Machine Setting S.Ret)) × (m.frames ≡ [])
        × AreMoments s (variables p) relates slots (rules_of s system run) m later }
{}
