//! The body lines of a program one after the other, with where they lead.

ghost use Rattle.std.specs.Prelude.{◌≡◌, ◌++◌, [], map, drop, IfOk, OnOk};
ghost use Rattle.line_jumps.specs.Jumps.{others};
ghost use Rattle.boolean_programs.specs.Programs.{program_of};
ghost use Rattle.boolean_programs.specs.Lines.{first_line, instructions, code};
ghost use Rattle.boolean_lowering.specs.private.Spots.{instruction_of};

use boolean_programs::{BodyLine, Program};
use line_jumps::other_lines;
use std::alloc::Global;
use wpds_base::OutOfMemory;

/// A body line, and the numbers of the lines to which it may lead.
#[derive(Clone, Copy)]
pub(crate) struct Spot<'p> {
    /// The place of its procedure in the program.
    pub(crate) procedure: usize,
    pub(crate) line: &'p BodyLine,
    /// The line below, and the other line.
    pub(crate) next: u32,
    pub(crate) other: u32,
}

/// The number of the line at a place of a body, and 0 behind its end.
pub(crate) fn line_at(body: &[BodyLine], place: usize) -> u32
    ensures { result ≡ first_line (drop place body.now) }
{
    match body.get(place) {
        Some(line) => line.line,
        None => 0,
    }
}

// Adds the lines of a body, with their other lines.
fn push_body<'p>(
    spots: &mut Vec<Spot<'p>>,
    procedure: usize,
    body: &'p [BodyLine],
    jumps: &[u32],
) -> Result<(), OutOfMemory>
    requires { jumps.now ≡ others [] body.now }
    ensures { OnOk result (map instruction_of spots.new.items
        ≡ map instruction_of spots.old.items ++ instructions procedure [] body.now) }
{
    for (place, line) in body.iter().enumerate() {
        spots.push(Spot {
            procedure,
            line,
            next: line_at(body, place + 1),
            other: jumps[place],
        })?;
    }
    Ok(())
}

/// All body lines of a program, in order.
pub(crate) fn spots_of(alloc: Global, program: &Program) -> Result<Vec<Spot<'_>>, OutOfMemory>
    ensures { IfOk result (λ v.
        map instruction_of v.items ≡ code (program_of program.now)) }
{
    let mut spots = Vec::new(alloc);
    for (procedure, owner) in program.procs.as_slice().iter().enumerate() {
        let body = owner.body.as_slice();
        let jumps = other_lines(alloc, body)?;
        push_body(&mut spots, procedure, body, &jumps)?;
    }
    Ok(spots)
}
