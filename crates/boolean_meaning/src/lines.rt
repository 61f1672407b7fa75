//! Where body lines stand, and where they lead.

ghost use Rattle.std.specs.Prelude.{◌≡◌, ◌+◌, ◌<◌, ◌^◌, ℕ, List, [], length, map, reverse, slice_get, Some, option_map, IfSome};
ghost use Rattle.boolean_programs.specs.declared.program.BodyLine.{BodyLine};
ghost use Rattle.boolean_programs.specs.Programs.{program_of};
ghost use Rattle.boolean_programs.specs.Lines.{Instruction, first_line, behind_end, behind_else, opened_at, instructions, instruction_at};
ghost use Rattle.boolean_programs.specs.Structure.{IsRead};
ghost use Rattle.boolean_meaning.specs.private.Depths.{one_less, depth_to_end, depth_to_else, depth_to_opening};
ghost use Rattle.boolean_meaning.specs.private.Spots.{instruction_of, found_in};
ghost use Rattle.boolean_meaning.specs.private.Outcomes.{IsSpotOf};

use boolean_programs::{BodyLine, Bracket, Proc, Program, Statement};

/// A body line, the lines of its body above and below it, and its procedure.
#[derive(Clone, Copy)]
pub(crate) struct Spot<'p> {
    /// The place of the procedure in the program.
    pub(crate) procedure: usize,
    pub(crate) owner: &'p Proc,
    pub(crate) above: &'p [BodyLine],
    pub(crate) line: &'p BodyLine,
    pub(crate) below: &'p [BodyLine],
}

impl<'p> Spot<'p> {
    /// The number of the line below.
    pub(crate) fn next(&self) -> u32
        ensures { result ≡ (instruction_of self.now).next }
    {
        first_line(self.below)
    }

    /// The number of the other line to which it may jump.
    pub(crate) fn other(&self) -> u32
        ensures { result ≡ (instruction_of self.now).other }
    {
        match &self.line.statement {
            Statement::If(_) => first_line(behind_else(self.below)),
            Statement::Else | Statement::While(_) => first_line(behind_end(self.below)),
            Statement::EndWhile => opened_at(self.above),
            _ => 0,
        }
    }
}

/// The number of the first of these lines.
pub(crate) fn first_line(lines: &[BodyLine]) -> u32
    ensures { result ≡ first_line lines.now }
{
    match lines.first() {
        Some(line) => line.line,
        None => 0,
    }
}

// One less, where there is one.
fn one_less(depth: usize) -> Option<usize>
    ensures { result ≡ one_less depth }
{
    if depth == 0 { None } else { Some(depth - 1) }
}

// How many further blocks are open behind a line, on the way down to the end of a block.
fn depth_to_end(depth: usize, bracket: Bracket) -> Option<usize>
    requires { depth + 1 < 2 ^ 64 }
    ensures { result ≡ depth_to_end depth bracket }
{
    match bracket {
        Bracket::Opens => Some(depth + 1),
        Bracket::Closes => one_less(depth),
        Bracket::Parts | Bracket::Inside => Some(depth),
    }
}

// What stands behind the `end` of a block, from the lines inside it.
fn behind_end(lines: &[BodyLine]) -> &[BodyLine]
    ensures { result.now ≡ behind_end 0 lines.now }
{
    let mut depth: usize = 0;
    let mut rest = lines;
    while let Some((line, after)) = rest.split_first() {
        let Some(inner) = depth_to_end(depth, line.statement.bracket()) else {
            return after;
        };
        depth = inner;
        rest = after;
    }
    rest
}

// The same on the way down to its `else`, or to its end.
fn depth_to_else(depth: usize, bracket: Bracket) -> Option<usize>
    requires { depth + 1 < 2 ^ 64 }
    ensures { result ≡ depth_to_else depth bracket }
{
    match bracket {
        Bracket::Opens => Some(depth + 1),
        Bracket::Parts => { if depth == 0 { None } else { Some(depth) } }
        Bracket::Closes => one_less(depth),
        Bracket::Inside => Some(depth),
    }
}

// What stands behind the `else` of a block, or behind its `end` where it has none.
fn behind_else(lines: &[BodyLine]) -> &[BodyLine]
    ensures { result.now ≡ behind_else 0 lines.now }
{
    let mut depth: usize = 0;
    let mut rest = lines;
    while let Some((line, after)) = rest.split_first() {
        let Some(inner) = depth_to_else(depth, line.statement.bracket()) else {
            return after;
        };
        depth = inner;
        rest = after;
    }
    rest
}

// The same on the way up to the line that opened it.
fn depth_to_opening(depth: usize, bracket: Bracket) -> Option<usize>
    requires { depth + 1 < 2 ^ 64 }
    ensures { result ≡ depth_to_opening depth bracket }
{
    match bracket {
        Bracket::Opens => one_less(depth),
        Bracket::Closes => Some(depth + 1),
        Bracket::Parts | Bracket::Inside => Some(depth),
    }
}

// The number of the line that opened a block, from the lines above inside it.
fn opened_at(lines: &[BodyLine]) -> u32
    ensures { result ≡ opened_at 0 (reverse lines.now) }
{
    let mut depth: usize = 0;
    let mut rest = lines;
    while let Some((line, before)) = rest.split_last() {
        let Some(inner) = depth_to_opening(depth, line.statement.bracket()) else {
            return line.line;
        };
        depth = inner;
        rest = before;
    }
    0
}

// The line of this number in the body of a procedure.
fn find_in(procedure: usize, owner: &Proc, number: u32) -> Option<Spot<'_>>
    ensures at { option_map instruction_of result
        ≡ found_in (instructions procedure [] owner.now.body) number }
    ensures owner { IfSome result (λ s. s.owner.now ≡ owner.now) }
    ensures procedure { IfSome result (λ s. s.procedure ≡ procedure) }
{
    let body = owner.body.as_slice();
    for (place, line) in body.iter().enumerate() {
        if line.line == number {
            return Some(Spot {
                procedure,
                owner,
                above: &body[..place],
                line,
                below: &body[place + 1..],
            });
        }
    }
    None
}

/// The body line of this number.
pub(crate) fn find(program: &Program, number: u32) -> Option<Spot<'_>>
    ensures at { option_map instruction_of result
        ≡ instruction_at (program_of program.now) number }
    ensures spot { IsRead (program_of program.now)
        → IfSome result (IsSpotOf (program_of program.now) number) }
{
    for (procedure, owner) in program.procs.as_slice().iter().enumerate() {
        match find_in(procedure, owner, number) {
            Some(spot) => return Some(spot),
            None => {}
        }
    }
    None
}
