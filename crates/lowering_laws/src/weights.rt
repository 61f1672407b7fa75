ghost use Rattle.std.specs.Prelude.{◌≡◌, ◌↔◌, ◌≤◌, ℕ, IsTrue, List, Option, length};
ghost use Rattle.wpds_base.specs.Limits.{most_rules, most_symbols};
ghost use Rattle.truth_tables.specs.Formulas.{Formula, is_over};
ghost use Rattle.pushdown_rules.specs.Pushdown.{Pushdown, IsSystem};
ghost use Rattle.pushdown_rules.specs.Answers.{HasFeasibleRun};
ghost use Rattle.config_patterns.specs.Membership.{has_member};
ghost use Rattle.relation_laws.specs.Building.{Parts};
ghost use Rattle.relation_laws.specs.Relations.{leads, relation_of};
ghost use Rattle.relation_weights.specs.declared.rel_map.RelMap.{RelMap};
ghost use Rattle.relation_weights.specs.Actions.{assumed, assigned, AreTargets};
ghost use Rattle.relation_weights.specs.Relations.{relation_operations};
ghost use Rattle.boolean_programs.specs.declared.point.Point.{Point};
ghost use Rattle.boolean_programs.specs.Programs.{Program};
ghost use Rattle.boolean_programs.specs.Structure.{IsRead};
ghost use Rattle.boolean_machine.specs.Machine.{IsReached};
ghost use Rattle.boolean_machine.specs.Lawful.{IsLawful};
ghost use Rattle.program_laws.specs.ReadPrograms.{IsPoint};
ghost use Rattle.setting_runs.specs.Relations.{Setting, MeansRelations};
ghost use Rattle.lowering_laws.specs.Lowering.{Means, Assumes, Assigns, plan, symbols, variables};
ghost use Rattle.lowering_laws.specs.Queries.{entry_pattern, point_pattern};
ghost use Rattle.lowering_laws.specs.Made.{lowering_of};
ghost use Rattle.lowering_laws.specs.Weights.{slots_of, targets_of, values_of};
ghost use Rattle.lowering_laws.specs.Weights.{IsDiagramLowering};

use boolean_machine::programs_are_lawful;
use relation_weights::{actions_are_sets_of_pairs, weights_are_sets_of_pairs};

/// The operations on diagrams are those on relations between settings.
pub fn relations_mean_pairs()
    ensures { (n : ℕ) → MeansRelations (relation_operations n) n leads slots_of }
{
    weights_are_sets_of_pairs();
}

/// The diagrams of assumptions and assignments mean what the lowering plans.
pub fn actions_mean_effects()
    ensures assume { (n : ℕ) (f : Formula ℕ) → IsTrue (is_over n f) → (x y : Setting)
        → IsTrue (leads (relation_of n (assumed n f)) x y) ↔ Means n (Assumes f) x y }
    ensures assign { (n : ℕ) (ts : List (ℕ × Option (Formula ℕ))) → AreTargets n ts
        → (x y : Setting) → IsTrue (leads (relation_of n (assigned n ts)) x y)
        ↔ Means n (Assigns (targets_of ts) (values_of ts)) x y }
{
    actions_are_sets_of_pairs();
}

/// For a program as it is read and its lowering over diagrams: a point is reached exactly where
/// some run to it is feasible.
pub fn programs_are_decided()
    ensures { (p : Program) (point : Point) (system : Pushdown ℕ Parts RelMap)
        → let s = relation_operations (variables p) in IsRead p → IsPoint p point
        → IsSystem relation_operations system → IsDiagramLowering p system
        → HasFeasibleRun s system (has_member (entry_pattern p))
        (has_member (point_pattern p point))
        ↔ IsReached p point }
{
    programs_are_lawful();
    relations_mean_pairs();
}

/// Each lawful program within the limits has a lowering over diagrams.
pub fn programs_have_lowerings()
    ensures system { (p : Program) → IsLawful p → symbols p ≤ most_symbols
        → length (plan p) ≤ most_rules → IsSystem relation_operations (lowering_of p) }
    ensures lowering { (p : Program) → IsLawful p → IsDiagramLowering p (lowering_of p) }
{}
