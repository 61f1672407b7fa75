//! Programs that are read and lowered.

ghost use Rattle.std.specs.Prelude.{◌≡◌, IfOk};
ghost use Rattle.boolean_programs.specs.Programs.{program_of};
ghost use Rattle.boolean_programs.specs.Structure.{IsRead};
ghost use Rattle.lowering_laws.specs.Lowering.{symbol_points};
ghost use Rattle.lowering_laws.specs.Weights.{IsDiagramLowering};

use boolean_lowering::{Lowering, lower};
use boolean_programs::Program;
use boolean_syntax::read_program;
use program_laws::read_programs_are_lawful;
use std::alloc::Global;
use wpds_base::OutOfMemory;
use wpds_port::ReadFault;

/// A program with its lowering.
#[derive(Drop)]
pub(crate) struct LoweredText {
    pub(crate) program: Program,
    pub(crate) lowering: Lowering,
}

/// The program of a text, and its lowering.
pub(crate) fn lowered(alloc: Global, text: &[u8]) -> Result<LoweredText, ReadFault>
    ensures read { IfOk result (λ l. IsRead (program_of l.program)) }
    ensures system { IfOk result (λ l.
        IsDiagramLowering (program_of l.program) l.lowering.system) }
    ensures points { IfOk result (λ l. l.lowering.points ≡ symbol_points (program_of l.program)) }
{
    read_programs_are_lawful();
    let program = read_program(alloc, text)?;
    let lowering = lower(alloc, &program)?;
    Ok(LoweredText { program, lowering })
}
