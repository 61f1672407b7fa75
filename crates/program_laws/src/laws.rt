ghost use Rattle.std.specs.Prelude.{◌≡◌, ◌↔◌, ◌⊎◌, ℕ, List, Ok, Err};
ghost use Rattle.boolean_programs.specs.declared.program.Program.{Program as ParsedProgram};
ghost use Rattle.wpds_port.specs.declared.Refusal.{Refusal};
ghost use Rattle.program_forms.specs.FirstRefusal.{FirstRefusal};
ghost use Rattle.program_forms.specs.Programs.{read_as};
ghost use Rattle.boolean_machine.specs.Machine.{action};
ghost use Rattle.boolean_programs.specs.Lines.{Instruction};
ghost use Rattle.boolean_programs.specs.Programs.{Program};
ghost use Rattle.program_laws.specs.ReadPrograms.{rules_by, ways, IsProgram};

use boolean_machine::programs_are_lawful;

/// A program that the definition of documents accepts is one that the machine and the lowering
/// take.
pub fn read_programs_are_lawful()
    ensures { (bytes : List ℕ) (p : ParsedProgram) → read_as bytes ≡ Ok p → IsProgram p }
{
    programs_are_lawful();
}

/// What the reading finds line by line is the first refusal, which is defined over whole lines and
/// the kinds that each has. Bytes are a program or have a first refusal, never both, and one refusal
/// at most.
pub fn programs_are_refused_by_lines()
    ensures refused { (bytes : List ℕ) (r : Refusal)
        → (read_as bytes ≡ Err r) ↔ FirstRefusal bytes r }
    ensures one { (bytes : List ℕ) → ((p : ParsedProgram) × (read_as bytes ≡ Ok p))
        ⊎ ((r : Refusal) × FirstRefusal bytes r) }
    ensures never_both { (bytes : List ℕ) (p : ParsedProgram) (r : Refusal)
        → read_as bytes ≡ Ok p → FirstRefusal bytes r → ⊥ }
    ensures one_refusal { (bytes : List ℕ) (r q : Refusal)
        → FirstRefusal bytes r → FirstRefusal bytes q → r ≡ q }
{}

/// A body line makes as many rules as its row of the table of moves has ways.
pub fn rules_are_ways()
    ensures { (p : Program) (i : Instruction) → rules_by i.statement ≡ ways (action p i) }
{}
