//! Moves by picks.

ghost use Rattle.std.specs.Prelude.{◌≡◌, ◌+◌, ◌<◌, ◌≤◌, ◌++◌, length, drop, slice_get, IfOk, IfSome, OnErr};
ghost use Rattle.wpds_base.specs.Limits.{most_related};
ghost use Rattle.boolean_programs.specs.Lists.{Each};
ghost use Rattle.boolean_programs.specs.Programs.{program_of};
ghost use Rattle.boolean_programs.specs.Structure.{IsRead, IsValueOver};
ghost use Rattle.boolean_machine.specs.Picks.{listed, picked, stars};
ghost use Rattle.boolean_meaning.specs.Bits.{bit_of, number_of};
ghost use Rattle.boolean_meaning.specs.HeldStates.{IsHeld};
ghost use Rattle.boolean_meaning.specs.Steps.{IsStepped};
ghost use Rattle.boolean_meaning.specs.private.Spots.{instruction_of};
ghost use Rattle.boolean_meaning.specs.private.GivenValues.{values_of};
ghost use Rattle.boolean_meaning.specs.private.Outcomes.{bit_in, IsOutcome, IsJumpOver, IsSpot, chosen_point, target_point, held_at, held_call, held_ended, held_acted, held_step, names_in};

use crate::lines::{Spot, find, first_line};
use crate::picking::{Values, picked, value_in, written};
use crate::state::{Frame, State};
use crate::states::{at_line, width};
use crate::valuation::{Valuation, bits_of_names, number_of};
use boolean_machine::{moves_keep_states, picks_make_moves, programs_are_lawful};
use boolean_programs::{Choice, ChoiceList, Point, Program, Statement};
use std::alloc::Global;
use wpds_base::OutOfMemory;

// The point to which a condition leads: at `*` the first target is that of true.
fn chosen(choice: &Choice, spot: &Spot, target: u32, old: &[bool]) -> Option<Point>
    requires { IsValueOver (length old.now) choice.now }
    ensures { result
        ≡ chosen_point (instruction_of spot.now) target (bit_in old.now) choice.now }
{
    match choice {
        Choice::Is(e) => Some(at_line(if value_in(e, old) {
            spot.next()
        } else {
            spot.other()
        })),
        Choice::Star => match target {
            0 => Some(at_line(spot.next())),
            1 => Some(at_line(spot.other())),
            _ => None,
        },
    }
}

/// The point to which a line leads that only jumps, if there is one with this target.
pub(crate) fn point_taken(spot: &Spot, target: u32, old: &[bool]) -> Option<Point>
    requires { IsJumpOver (length old.now) (instruction_of spot.now).statement }
    ensures { let i = instruction_of spot.now in
        result ≡ target_point i target (bit_in old.now) i.statement }
{
    match &spot.line.statement {
        Statement::Skip | Statement::EndIf => Some(at_line(spot.next())),
        Statement::Goto { lines } => match lines.as_slice().get(target as usize) {
            Some(line) => Some(at_line(*line)),
            None => None,
        },
        Statement::Assume(e) => {
            if value_in(e, old) {
                Some(at_line(spot.next()))
            } else {
                None
            }
        }
        Statement::Assert(e) => Some(if value_in(e, old) {
            at_line(spot.next())
        } else {
            Point {
                line: spot.line.line,
                failed: true,
            }
        }),
        Statement::If(choice) | Statement::While(choice) => chosen(choice, spot, target, old),
        Statement::Else | Statement::EndWhile => Some(at_line(spot.other())),
        _ => None,
    }
}

// The top frame goes to a point with these bits of its names.
fn set_names(program: &Program, state: &mut State, point: Point, names: &Valuation)
    requires top { 0 < length state.old.frames }
    requires globals { length program.now.globals ≤ length names.now }
    requires small { length names.now ≤ most_related }
    ensures { state.new
        ≡ held_at (length program.now.globals) names.now point (drop 1 state.old.frames) }
{
    let (globals, locals) = names.as_slice().split_at(program.globals.len());
    state.globals = number_of(globals);
    state.frames.set_top(Frame {
        point,
        locals: number_of(locals),
    });
}

// A new frame for the callee: parameters as the arguments, other locals picked.
fn call(
    alloc: Global,
    program: &Program,
    state: &mut State,
    callee: u32,
    arguments: &ChoiceList,
    old: &[bool],
    bits: u32,
) -> Result<bool, OutOfMemory>
    requires read { IsRead (program_of program.now) }
    requires over { Each (IsValueOver (length old.now)) arguments.now }
    requires fits { IfSome (slice_get (program_of program.now).procs callee) (λ q.
        length arguments.now ≡ q.params) }
    ensures ok { IfOk result (λ moved. IsOutcome
        (held_call (program_of program.now) callee arguments.now (bit_in old.now) (bit_of bits)
        state.old)
        state.old moved state.new) }
    ensures err { OnErr result (state.new ≡ state.old) }
{
    let Some(owner) = program.procs.as_slice().get(callee as usize) else {
        return Ok(false);
    };
    let values = Values::Listed(arguments.as_slice());
    let locals = entered(alloc, values, old, bits, owner.locals.len())?;
    state.frames.push(Frame {
        point: at_line(first_line(owner.body.as_slice())),
        locals,
    })?;
    Ok(true)
}

// The locals of a call: the arguments, and behind them so many free bits.
fn entered(
    alloc: Global,
    arguments: Values<'_>,
    old: &[bool],
    bits: u32,
    others: usize,
) -> Result<u32, OutOfMemory>
    requires over { Each (IsValueOver (length old.now)) (values_of arguments) }
    requires small { length (values_of arguments) + others ≤ most_related }
    ensures { IfOk result (λ locals. locals
        ≡ number_of (picked (bit_in old.now) (bit_of bits) 0 (values_of arguments.entry)
        ++ listed others (λ j. bit_of bits (stars (values_of arguments.entry) + j)))) }
{
    let mut left = bits;
    let arguments = picked(alloc, arguments, old, &mut left)?;
    let mut locals = Valuation::from_slice(arguments.as_slice());
    locals.push_bits(left, others);
    Ok(number_of(locals.as_slice()))
}

// The frame goes with these values; where a frame is below, it goes on to the line below its call.
fn end(
    alloc: Global,
    program: &Program,
    state: &mut State,
    values: Values<'_>,
    old: &[bool],
    bits: u32,
) -> Result<bool, OutOfMemory>
    requires read { IsRead (program_of program.now) }
    requires over { Each (IsValueOver (length old.now)) (values_of values) }
    ensures ok { IfOk result (λ moved. IsOutcome
        (held_ended (program_of program.now)
        (picked (bit_in old.now) (bit_of bits) 0 (values_of values.entry))
        state.old (slice_get state.old.frames 1))
        state.old moved state.new) }
    ensures err { OnErr result (state.new ≡ state.old) }
{
    let Some(caller) = state.frames.get(1) else {
        state.frames.pop();
        return Ok(true);
    };
    let Some(spot) = find(program, caller.point.line) else {
        return Ok(false);
    };
    let Statement::Call { targets, .. } = &spot.line.statement else {
        return Ok(false);
    };
    let kept = bits_of_names(
        state.globals,
        program.globals.len(),
        caller.locals,
        width(spot.owner),
    );
    let waiting = kept.as_slice();
    let mut left = bits;
    let new = picked(alloc, values, old, &mut left)?;
    let names = written(targets.as_slice(), new.as_slice(), waiting);
    state.frames.pop();
    set_names(program, state, at_line(spot.next()), &names);
    Ok(true)
}

// What the line on top does, by a pick.
fn act(
    alloc: Global,
    program: &Program,
    state: &mut State,
    spot: &Spot,
    locals: u32,
    target: u32,
    bits: u32,
) -> Result<bool, OutOfMemory>
    requires read { IsRead (program_of program.now) }
    requires spot { IsSpot (program_of program.now) spot.now }
    requires top { 0 < length state.old.frames }
    ensures ok { let i = instruction_of spot.now in IfOk result (λ moved. IsOutcome
        (held_acted (program_of program.now) i i.statement state.old locals
        (names_in (program_of program.now) i.procedure state.old.globals locals)
        target (bit_of bits))
        state.old moved state.new) }
    ensures err { OnErr result (state.new ≡ state.old) }
{
    let names = bits_of_names(
        state.globals,
        program.globals.len(),
        locals,
        width(spot.owner),
    );
    let old = names.as_slice();
    match &spot.line.statement {
        Statement::Assign { targets, values } => {
            let mut left = bits;
            let new = picked(alloc, Values::Listed(values.as_slice()), old, &mut left)?;
            let names = written(targets.as_slice(), new.as_slice(), old);
            set_names(program, state, at_line(spot.next()), &names);
            Ok(true)
        }
        Statement::Call {
            callee,
            arguments,
            ..
        } => call(alloc, program, state, *callee, arguments, old, bits),
        Statement::Return { values } => {
            let values = Values::Listed(values.as_slice());
            end(alloc, program, state, values, old, bits)
        }
        Statement::EndProc => {
            let values = Values::AllFree(spot.owner.returns);
            end(alloc, program, state, values, old, bits)
        }
        _ => {
            let Some(point) = point_taken(spot, target, old) else {
                return Ok(false);
            };
            state.frames.set_top(Frame { point, locals });
            Ok(true)
        }
    }
}

// Moves a state by a pick, as it is held.
fn step_held(
    alloc: Global,
    program: &Program,
    state: &mut State,
    target: u32,
    bits: u32,
) -> Result<bool, OutOfMemory>
    requires { IsRead (program_of program.now) }
    ensures ok { IfOk result (λ moved. IsOutcome
        (held_step (program_of program.now) state.old target (bit_of bits))
        state.old moved state.new) }
    ensures err { OnErr result (state.new ≡ state.old) }
{
    let Some(top) = state.frames.get(0) else {
        return Ok(false);
    };
    if top.point.failed {
        return Ok(false);
    }
    let Some(spot) = find(program, top.point.line) else {
        return Ok(false);
    };
    act(alloc, program, state, &spot, top.locals, target, bits)
}

/// Moves a state by a pick, and returns whether there is a move with that pick.
///
/// At a `*` condition target 0 is true and target 1 is false; at a goto the target is the place in
/// its list, from 0; elsewhere it is not looked at. Bit `i` of `bits` is the `i`-th free value: the
/// `*` values of the line from left to right, at a call then the callee's other locals, and at the
/// `end` of a procedure its returned values. Further bits are not looked at.
///
/// Without a move, and where it answers out of memory, the state is as it was.
pub fn step(
    alloc: Global,
    program: &Program,
    state: &mut State,
    target: u32,
    bits: u32,
) -> Result<bool, OutOfMemory>
    requires read { IsRead (program_of program.now) }
    requires state { IsHeld (program_of program.now) state.old }
    ensures ok { IfOk result (λ moved.
        IsStepped (program_of program.now) target bits state.old moved state.new) }
    ensures state { IsHeld (program_of program.now) state.new }
    ensures err { OnErr result (state.new ≡ state.old) }
{
    programs_are_lawful();
    picks_make_moves();
    moves_keep_states();
    let moved = step_held(alloc, program, state, target, bits)?;
    Ok(moved)
}
