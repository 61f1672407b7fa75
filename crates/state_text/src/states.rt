//! States, line by line.

ghost use Rattle.std.specs.Prelude.{◌≡◌, ◌++◌, map, length, IfOk, OnOk};
ghost use Rattle.boolean_programs.specs.Programs.{program_of};
ghost use Rattle.boolean_programs.specs.Structure.{IsRead};
ghost use Rattle.boolean_machine.specs.Picks.{listed};
ghost use Rattle.boolean_meaning.specs.Bits.{bit_of};
ghost use Rattle.boolean_meaning.specs.HeldStates.{frame_of, state_of};
ghost use Rattle.lowering_laws.specs.Lowering.{symbol_points};
ghost use Rattle.state_text.specs.States.{bits_text, ended_line, frame_line, names_of, place_text, proc_at, state_line, trace_text as text_of_trace};
ghost use Rattle.state_text.specs.private.Owners.{owners_of as places_of_owners};

use crate::bits::{add_bits, add_locals};
use crate::owners::{owner_at, owners_of};
use boolean_lowering::PointTable;
use boolean_meaning::{Frame, State};
use boolean_programs::{Point, Program};
use std::alloc::Global;
use wpds_base::{OutOfMemory, Text};

// Adds where a frame stands.
fn add_place(alloc: Global, text: &mut Vec<u8>, point: Point) -> Result<(), OutOfMemory>
    ensures { OnOk result (text.new.items ≡ text.old.items ++ place_text point) }
{
    let line = point.line;
    text.extend_from_slice(if point.failed {
        b"    fail "
    } else {
        b"    line "
    })?;
    text.extend_from_slice(format!(in alloc; "{line}:")?.as_bytes())?;
    Ok(())
}

// Adds the globals with their bits.
fn add_globals(text: &mut Vec<u8>, program: &Program, globals: u32) -> Result<(), OutOfMemory>
    ensures { let bits = listed (length program.now.globals) (bit_of globals) in
        OnOk result (text.new.items ≡ text.old.items ++ bits_text program.now.globals bits) }
{
    add_bits(text, program.globals.as_slice(), globals)?;
    Ok(())
}

// Adds the names of a top frame with their bits.
fn add_frame(
    text: &mut Vec<u8>,
    program: &Program,
    points: &PointTable,
    owners: &[usize],
    frame: Frame,
) -> Result<(), OutOfMemory>
    requires read { IsRead (program_of program.now) }
    requires points { points.now ≡ symbol_points (program_of program.now) }
    requires owners { owners.now ≡ places_of_owners (program_of program.now) }
    ensures { let names = names_of (proc_at program.now frame.point.line) in
        let bits = (frame_of (program_of program.now) frame).locals in
        OnOk result (text.new.items ≡ text.old.items ++ bits_text names bits) }
{
    match owner_at(program, points, owners, frame.point.line) {
        Some(owner) => add_locals(text, owner, frame.locals),
        None => Ok(()),
    }
}

// Adds the line of a state without frames.
fn add_ended(text: &mut Vec<u8>, program: &Program, globals: u32) -> Result<(), OutOfMemory>
    ensures { let bits = listed (length program.now.globals) (bit_of globals) in
        let line = ended_line program.now bits in
        OnOk result (text.new.items ≡ text.old.items ++ line) }
{
    text.extend_from_slice(b"    ended:")?;
    add_globals(text, program, globals)?;
    text.push(b'\n')?;
    Ok(())
}

// Adds the line of a state with this frame on top.
fn add_standing(
    alloc: Global,
    text: &mut Vec<u8>,
    program: &Program,
    points: &PointTable,
    owners: &[usize],
    globals: u32,
    frame: Frame,
) -> Result<(), OutOfMemory>
    requires read { IsRead (program_of program.now) }
    requires points { points.now ≡ symbol_points (program_of program.now) }
    requires owners { owners.now ≡ places_of_owners (program_of program.now) }
    ensures { let bits = listed (length program.now.globals) (bit_of globals) in
        let line = frame_line program.now bits (frame_of (program_of program.now) frame) in
        OnOk result (text.new.items ≡ text.old.items ++ line) }
{
    add_place(alloc, text, frame.point)?;
    add_globals(text, program, globals)?;
    add_frame(text, program, points, owners, frame)?;
    text.push(b'\n')?;
    Ok(())
}

// Adds the line of a state.
fn add_state(
    alloc: Global,
    text: &mut Vec<u8>,
    program: &Program,
    points: &PointTable,
    owners: &[usize],
    state: &State,
) -> Result<(), OutOfMemory>
    requires read { IsRead (program_of program.now) }
    requires points { points.now ≡ symbol_points (program_of program.now) }
    requires owners { owners.now ≡ places_of_owners (program_of program.now) }
    ensures { let line = state_line program.now (state_of (program_of program.now) state.now) in
        OnOk result (text.new.items ≡ text.old.items ++ line) }
{
    match state.frames.get(0) {
        None => add_ended(text, program, state.globals),
        Some(frame) => add_standing(alloc, text, program, points, owners, state.globals, frame),
    }
}

/// The lines of states of a program, one for each: the place of its top frame, and each global and each
/// name of that frame's procedure with its bit. The points are those of the program's lowering. It takes
/// time linear in what is written, but for the look-ups of lines, which are binary searches.
pub fn trace_text(
    alloc: Global,
    program: &Program,
    points: &PointTable,
    states: &[State],
) -> Result<Text, OutOfMemory>
    requires read { IsRead (program_of program.now) }
    requires points { points.now ≡ symbol_points (program_of program.now) }
    ensures { let q = program_of program.now in
        IfOk result (λ t. t ≡ text_of_trace program.now (map (state_of q) states.now)) }
{
    let owners = owners_of(alloc, program)?;
    let mut text = Vec::new(alloc);
    text.extend_from_slice(b"  trace:\n")?;
    for state in states {
        add_state(alloc, &mut text, program, points, &owners, state)?;
    }
    Ok(Text::from_vec(text))
}
