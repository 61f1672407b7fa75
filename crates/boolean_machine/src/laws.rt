ghost use Rattle.std.specs.Prelude.{◌≡◌, ◌↔◌, ℕ, Bool, false, IsTrue, List, Some, slice_index_or};
ghost use Rattle.truth_tables.specs.Formulas.{Formula, value_under};
ghost use Rattle.boolean_programs.specs.Programs.{Program};
ghost use Rattle.boolean_machine.specs.Lawful.{IsLawful, is_lawful};
ghost use Rattle.boolean_programs.specs.Structure.{IsRead};
ghost use Rattle.boolean_machine.specs.Machine.{State, value_at, IsStart, Moves};
ghost use Rattle.boolean_machine.specs.States.{IsState};
ghost use Rattle.boolean_machine.specs.Picks.{step_of};
ghost use Rattle.boolean_machine.specs.StateTests.{is_state};
ghost use Rattle.boolean_machine.specs.Tests.{has_moved};

/// Where blocks nest and names and counts fit, each line leads to lines of its own procedure. A
/// program that passes the test is lawful too.
pub fn programs_are_lawful()
    ensures read { (p : Program) → IsRead p → IsLawful p }
    ensures test { (p : Program) → IsTrue (is_lawful p) → IsLawful p }
{}

/// Starting states are states of the program, and a move leads from one to another.
pub fn moves_keep_states()
    ensures start { (p : Program) (s : State) → IsLawful p → IsStart p s → IsState p s }
    ensures moves { (p : Program) (from to : State)
        → IsLawful p → IsState p from → Moves p from to → IsState p to }
{}

/// What a pick makes of a state is a move, and each move has a pick.
pub fn picks_make_moves()
    ensures step { (p : Program) (from to : State) (target : ℕ) (free : ℕ → Bool)
        → IsLawful p → IsState p from → step_of p from target free ≡ Some to → Moves p from to }
    ensures moves { (p : Program) (from to : State)
        → IsLawful p → IsState p from → Moves p from to
        → (target : ℕ) × (free : ℕ → Bool) × (step_of p from target free ≡ Some to) }
{}

/// The value of a formula under a list of bits is that in the state of the list.
pub fn lists_are_states()
    ensures { (bits : List Bool) (f : Formula ℕ)
        → value_under bits f ≡ value_at (λ k. slice_index_or bits k false) f }
{}

/// The test of moves is true exactly of the moves, and that of states of the states.
pub fn moves_are_tested()
    ensures moves { (p : Program) (from to : State)
        → IsTrue (has_moved p from to) ↔ Moves p from to }
    ensures states { (p : Program) (s : State) → IsTrue (is_state p s) ↔ IsState p s }
{}
