ghost use Rattle.std.specs.Prelude.{◌≡◌, ◌+◌, ◌≤◌, ℕ, Bool, List, [], ◌∷◌, ◌++◌, Some};
ghost use Rattle.std.specs.Prelude.{length, slice_get};
ghost use Rattle.pushdown_rules.specs.declared.rule.Rule.{Rule as RuleValue};
ghost use Rattle.pushdown_rules.specs.Pushdown.{Pushdown};
ghost use Rattle.relation_weights.specs.declared.rel_map.Slot.{Slot};
ghost use Rattle.boolean_programs.specs.declared.point.Point.{Point};
ghost use Rattle.boolean_programs.specs.Lines.{Instruction};
ghost use Rattle.boolean_programs.specs.Lists.{Each};
ghost use Rattle.boolean_programs.specs.Programs.{Program};
ghost use Rattle.boolean_programs.specs.Structure.{IsRead};
ghost use Rattle.boolean_machine.specs.Machine.{action};
ghost use Rattle.boolean_machine.specs.Lawful.{IsLawful};
ghost use Rattle.program_laws.specs.ReadPrograms.{points, rules, IsPoint};
ghost use Rattle.setting_runs.specs.Relations.{Setting};
ghost use Rattle.lowering_laws.specs.Lowering.{Planned, plan, line_rules, rules_from};
ghost use Rattle.lowering_laws.specs.Lowering.{first_local, variables, symbols};
ghost use Rattle.lowering_laws.specs.Lowering.{symbol, symbol_of, symbol_points, IsLowered};
ghost use Rattle.lowering_laws.specs.Lowering.{IsLowering};
ghost use Rattle.lowering_laws.specs.Plans.{IsWithin, IsNarrow, AreLowered};
ghost use Rattle.lowering_laws.specs.Queries.{entry_point};

use program_laws::rules_are_ways;
use semiring_laws::Semiring;

/// The planned rules are over the lowering's symbols and variables, and the targets of each differ.
/// The point of a symbol stands at its number. There are as many symbols and rules as the limits
/// of a program's text speak of.
pub fn plans_are_within()
    ensures rules { (p : Program) → IsLawful p → Each (IsWithin p) (plan p) }
    ensures points { (p : Program) (point : Point) (g : ℕ)
        → symbol_of p point ≡ Some g → slice_get (symbol_points p) g ≡ Some point }
    ensures symbols { (p : Program) (point : Point) (g : ℕ) → IsRead p
        → slice_get (symbol_points p) g ≡ Some point → symbol_of p point ≡ Some g }
    ensures variables { (p : Program) (n : ℕ)
        → first_local p ≤ n → IsNarrow n p → variables p ≤ n }
    ensures all_points { (p : Program) → symbols p ≡ points p }
    ensures all_rules { (p : Program) → length (plan p) ≡ rules p }
{
    rules_are_ways();
}

/// Rules that were made one by one as planned are the lowering. With a line more the plan has that
/// line's rules more.
pub fn plans_are_made<S: Semiring>()
    ensures lines { (p : Program) (base : ℕ) (is : List Instruction) (i : Instruction)
        → rules_from p base (is ++ i ∷ [])
        ≡ rules_from p base is ++ line_rules p (base + length is) i (action p i) }
    ensures rules { (n : ℕ) (relates : S.W → Setting → Setting → Bool) (slots : S.Ret → ℕ → Slot)
        (rs : List (RuleValue S S.W S.Ret)) (ts : List Planned) (r : RuleValue S S.W S.Ret)
        (t : Planned) → AreLowered n relates slots rs ts → IsLowered n relates slots r t
        → AreLowered n relates slots (rs ++ r ∷ []) (ts ++ t ∷ []) }
    ensures system { (p : Program) (system : Pushdown S S.W S.Ret)
        (relates : S.W → Setting → Setting → Bool) (slots : S.Ret → ℕ → Slot)
        → system.controls ≡ 1 → system.symbols ≡ symbols p
        → AreLowered (variables p) relates slots system.rules (plan p)
        → IsLowering relates slots p system }
{}

/// Each point of a program has a symbol. Main's first line is a point.
pub fn points_have_symbols()
    ensures symbols { (p : Program) (point : Point) → IsPoint p point
        → symbol_of p point ≡ Some (symbol p point) }
    ensures entry { (p : Program) → IsLawful p → IsPoint p (entry_point p) }
{}
