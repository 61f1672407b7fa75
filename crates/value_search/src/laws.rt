ghost use Rattle.std.specs.Prelude.{◌≡◌, ℕ};
ghost use Rattle.semiring_laws.specs.Semiring.{Operations};
ghost use Rattle.pushdown_rules.specs.Pushdown.{Pushdown, IsSystem};
ghost use Rattle.pushdown_rules.specs.Values.{value_of};
ghost use Rattle.config_patterns.specs.Membership.{PatternValue};
ghost use Rattle.config_patterns.specs.Edges.{edges_of};
ghost use Rattle.value_laws.specs.Runs.{Pops, Enters, IsSum};
ghost use Rattle.weight_tables.specs.Entries.{NoneWaits};
ghost use Rattle.weight_tables.specs.Tables.{TablesValue, AreTables};
ghost use Rattle.value_search.specs.Views.{weights};
ghost use Rattle.value_search.specs.Finds.{FindsPops, FindsEnters};

use semiring_laws::Semiring;

/// Between controls: once nothing waits, the weight of each place is the sum of all its runs.
pub fn closed_pops_are_sums<S: Semiring>()
    ensures { (p : Pushdown S S.W S.Ret) → let s = S.operations p.semiring in
        (v : TablesValue S S.W S.Ret) → IsSystem S.operations p → AreTables s v →
        FindsPops s p v → NoneWaits v.base → (from g to : ℕ) →
        IsSum s (value_of s p) (Pops p from g to) (weights s v.base from g to) }
{}

/// To a target: the same, once nothing waits between controls either.
pub fn closed_enters_are_sums<S: Semiring>()
    ensures { (p : Pushdown S S.W S.Ret) → let s = S.operations p.semiring in
        (target : PatternValue) (v : TablesValue S S.W S.Ret) →
        IsSystem S.operations p → AreTables s v →
        FindsPops s p v → NoneWaits v.base → FindsEnters s p target v → NoneWaits v.target →
        (from g to : ℕ) → IsSum s (value_of s p)
        (Enters p target.control (edges_of target.items) from g to)
        (weights s v.target from g to) }
{}
