//! States of a program: the one that it begins with, and which are states of it.

ghost use Rattle.std.specs.Prelude.{◌≡◌, ◌≤◌, ◌↔◌, ◌&&◌, ◌||◌, ◌^◌, not, nat_lt, IsTrue, [], ◌∷◌, map, drop, option_map, IfOk};
ghost use Rattle.wpds_base.specs.Limits.{most_related};
ghost use Rattle.boolean_programs.specs.Programs.{procedure_of, program_of, width};
ghost use Rattle.boolean_programs.specs.Structure.{IsRead};
ghost use Rattle.boolean_machine.specs.Lawful.{is_assert};
ghost use Rattle.boolean_machine.specs.Machine.{at_line, IsStart};
ghost use Rattle.boolean_machine.specs.Picks.{listed};
ghost use Rattle.boolean_machine.specs.StateTests.{calls};
ghost use Rattle.boolean_meaning.specs.Bits.{bit_of, number_of};
ghost use Rattle.boolean_meaning.specs.HeldStates.{state_of, held_frame, held, IsHeld};
ghost use Rattle.boolean_meaning.specs.Steps.{main_in, first_frames, start_of};
ghost use Rattle.boolean_meaning.specs.private.HeldTests.{are_held_waiting, are_held_frames, is_held_state};
ghost use Rattle.boolean_meaning.specs.private.Spots.{instruction_of};

use crate::lines::{Spot, find, first_line};
use crate::state::{Frame, FrameList, State};
use crate::valuation::{Valuation, fits, number_of};
use boolean_machine::{moves_are_tested, moves_keep_states, programs_are_lawful};
use boolean_programs::{Point, Proc, Program, Statement};
use std::alloc::Global;
use wpds_base::OutOfMemory;

/// How many names a procedure has.
pub(crate) fn width(owner: &Proc) -> usize
    requires { width (procedure_of owner.now) ≤ most_related }
    ensures { result ≡ width (procedure_of owner.now) }
{
    owner.params.len() + owner.locals.len()
}

/// A body line as a point.
pub(crate) fn at_line(line: u32) -> Point
    ensures { result ≡ at_line line }
{
    Point {
        line,
        failed: false,
    }
}

// The lowest bits of a number, the others being 0.
fn lowest(number: u32, count: usize) -> u32
    requires { count ≤ most_related }
    ensures { result ≡ number_of (listed count (bit_of number)) }
{
    let mut bits = Valuation::new();
    bits.push_bits(number, count);
    number_of(bits.as_slice())
}

// The first procedure that is called `main`.
fn main_of(program: &Program) -> Option<&Proc>
    ensures { option_map (λ q. procedure_of q.now) result
        ≡ main_in (program_of program.now) }
{
    for owner in program.procs.as_slice() {
        if owner.name.is(b"main") {
            return Some(owner);
        }
    }
    None
}

// The frame that a program begins with.
fn first_frame(program: &Program, locals: u32) -> Frame
    requires { IsRead (program_of program.now) }
    ensures { result ∷ []
        ≡ map held_frame (first_frames (main_in (program_of program.now)) (bit_of locals)) }
{
    match main_of(program) {
        Some(owner) => Frame {
            point: at_line(first_line(owner.body.as_slice())),
            locals: lowest(locals, width(owner)),
        },
        None => Frame {
            point: at_line(0),
            locals: 0,
        },
    }
}

// The state that a program begins with, as it is held.
fn start_held(
    alloc: Global,
    program: &Program,
    globals: u32,
    locals: u32,
) -> Result<State, OutOfMemory>
    requires { IsRead (program_of program.now) }
    ensures { IfOk result (λ s.
        s ≡ held (start_of (program_of program.now) (bit_of globals) (bit_of locals))) }
{
    let frames = vec![in alloc; first_frame(program, locals)]?;
    Ok(State {
        globals: lowest(globals, program.globals.len()),
        frames: FrameList::from_vec(frames),
    })
}

/// The state that a program begins with: one frame, at main's first body line. Bit `i` is the
/// `i`-th global, or main's `i`-th local, in order of declaration; further bits are not looked at.
pub fn start(
    alloc: Global,
    program: &Program,
    globals: u32,
    locals: u32,
) -> Result<State, OutOfMemory>
    requires { IsRead (program_of program.now) }
    ensures start { IfOk result (λ s.
        s ≡ held (start_of (program_of program.now) (bit_of globals) (bit_of locals))) }
    ensures begins { IfOk result (λ s.
        IsStart (program_of program.now) (state_of (program_of program.now) s)) }
    ensures state { IfOk result (IsHeld (program_of program.now)) }
{
    programs_are_lawful();
    moves_keep_states();
    let state = start_held(alloc, program, globals, locals)?;
    Ok(state)
}

// Whether a statement calls the procedure at this place.
fn calls(statement: &Statement, callee: usize) -> bool
    ensures { result ≡ calls statement.now callee }
{
    match statement {
        Statement::Call { callee: to, .. } => *to as usize == callee,
        _ => false,
    }
}

// Whether a frame on top may stand at a point of this line.
fn may_stand(spot: &Spot, point: Point) -> bool
    ensures { result ≡ (not point.failed || is_assert (instruction_of spot.now).statement) }
{
    match &spot.line.statement {
        Statement::Assert(_) => true,
        _ => !point.failed,
    }
}

// Whether a frame may wait at this line for the procedure at this place.
fn may_wait(spot: &Spot, frame: Frame, callee: usize) -> bool
    requires { width (procedure_of spot.now.owner.now) ≤ most_related }
    ensures { result
        ≡ ((not frame.point.failed && calls (instruction_of spot.now).statement callee)
        && nat_lt frame.locals (2 ^ width (procedure_of spot.now.owner.now))) }
{
    !frame.point.failed
        && calls(&spot.line.statement, callee)
        && fits(frame.locals, width(spot.owner))
}

// Whether the frames below the top wait, the first for the procedure at this place.
fn are_waiting(program: &Program, frames: &FrameList, callee: usize) -> bool
    requires { IsRead (program_of program.now) }
    ensures { result ≡ are_held_waiting (program_of program.now) callee (drop 1 frames.now) }
{
    let mut callee = callee;
    let mut place = 1;
    while place < frames.len() {
        let Some(frame) = frames.get(place) else {
            return false;
        };
        let Some(spot) = find(program, frame.point.line) else {
            return false;
        };
        if !may_wait(&spot, frame, callee) {
            return false;
        }
        callee = spot.procedure;
        place += 1;
    }
    true
}

// Whether these are frames of the program.
fn are_frames(program: &Program, frames: &FrameList) -> bool
    requires { IsRead (program_of program.now) }
    ensures { result ≡ are_held_frames (program_of program.now) frames.now }
{
    let Some(top) = frames.get(0) else {
        return true;
    };
    let Some(spot) = find(program, top.point.line) else {
        return false;
    };
    may_stand(&spot, top.point)
        && fits(top.locals, width(spot.owner))
        && are_waiting(program, frames, spot.procedure)
}

// Whether it is a state of the program, by the test.
fn is_held(program: &Program, state: &State) -> bool
    requires { IsRead (program_of program.now) }
    ensures { result ≡ is_held_state (program_of program.now) state.now }
{
    fits(state.globals, program.globals.len()) && are_frames(program, &state.frames)
}

/// Whether it is a state of the program. It takes no memory.
pub fn is_state(program: &Program, state: &State) -> bool
    requires { IsRead (program_of program.now) }
    ensures { IsTrue result ↔ IsHeld (program_of program.now) state.now }
{
    moves_are_tested();
    is_held(program, state)
}
