//! What the definitions say, as laws.

ghost use Rattle.std.specs.Prelude.{◌≡◌, ◌⊎◌, ℕ, List, Ok, Err};
ghost use Rattle.boolean_programs.specs.declared.program.Program.{Program};
ghost use Rattle.wpds_port.specs.declared.Refusal.{Refusal};
ghost use Rattle.program_forms.specs.Programs.{read_as};

/// Bytes are one program or have one first refusal, never both.
pub fn one_program_or_one_refusal()
    ensures one { (bytes : List ℕ) → ((p : Program) × (read_as bytes ≡ Ok p))
        ⊎ ((r : Refusal) × (read_as bytes ≡ Err r)) }
    ensures never_both { (bytes : List ℕ) (p : Program) (r : Refusal)
        → read_as bytes ≡ Ok p → read_as bytes ≡ Err r → ⊥ }
{}
