//! Texts that are read as programs, or refused.

ghost use Rattle.std.specs.Prelude.{IfOk};
ghost use Rattle.boolean_programs.specs.Programs.{program_of};
ghost use Rattle.boolean_programs.specs.Structure.{IsRead};

use boolean_programs::Program;
use boolean_syntax::read_program;
use program_laws::read_programs_are_lawful;
use std::alloc::Global;
use wpds_base::OutOfMemory;
use wpds_port::ReadFault;

/// The program of a text, which is one that the machine takes.
pub(crate) fn read(alloc: Global, text: &[u8]) -> Result<Program, ReadFault>
    ensures { IfOk result (λ p. IsRead (program_of p)) }
{
    read_programs_are_lawful();
    let program = read_program(alloc, text)?;
    Ok(program)
}

/// The line and the number of the kind by which a text is refused, and nothing where it is a program.
pub(crate) fn refusal(alloc: Global, text: &[u8]) -> Result<Option<(u64, u32)>, OutOfMemory> {
    match read_program(alloc, text) {
        Ok(_) => Ok(None),
        Err(ReadFault::Refused(refusal)) => Ok(Some((refusal.line, refusal.kind.number()))),
        Err(ReadFault::Memory) => Err(OutOfMemory),
    }
}
