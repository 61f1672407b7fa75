//! Whether a state is a move of another, by the table of moves.

ghost use Rattle.std.specs.Prelude.{◌≡◌, ◌≤◌, ◌↔◌, ◌&&◌, nat_eq, Some, IsTrue, IfSome, length, drop, slice_get};
ghost use Rattle.wpds_base.specs.Limits.{most_related};
ghost use Rattle.boolean_programs.specs.Lists.{Each};
ghost use Rattle.boolean_programs.specs.Programs.{procedure_of, program_of, width};
ghost use Rattle.boolean_programs.specs.Structure.{IsRead, IsValueOver};
ghost use Rattle.boolean_machine.specs.Machine.{value_for};
ghost use Rattle.boolean_machine.specs.Tests.{same_point, may_be, becomes, are_arguments};
ghost use Rattle.boolean_meaning.specs.Steps.{IsHeldMove};
ghost use Rattle.boolean_meaning.specs.private.Spots.{instruction_of};
ghost use Rattle.boolean_meaning.specs.private.GivenValues.{values_of, choice_of};
ghost use Rattle.boolean_meaning.specs.private.HeldMoves.{same_held_frames, have_got, held_got, may_choose, may_lead, held_jumped, held_entered, held_returned, has_held_acted, has_held_moved};
ghost use Rattle.boolean_meaning.specs.private.Outcomes.{bit_in, names_in, IsJumpOver, IsSpotOf, IsSpot};

use crate::lines::{Spot, find, first_line};
use crate::picking::{Value, Values, place_in, value_in};
use crate::state::{Frame, FrameList, State};
use crate::states::{at_line, is_state, width};
use crate::stepping::point_taken;
use crate::valuation::{Valuation, bits_of_names};
use boolean_machine::{moves_are_tested, programs_are_lawful};
use boolean_programs::{Choice, ChoiceList, Point, Proc, Program, Statement};

// Whether two points are the same.
fn same_point(a: Point, b: Point) -> bool
    ensures { result ≡ same_point a b }
{
    a.line == b.line && a.failed == b.failed
}

// Whether two frames are the same.
fn same_frame(a: Frame, b: Frame) -> bool
    ensures { result ≡ (same_point a.point b.point && nat_eq a.locals b.locals) }
{
    same_point(a.point, b.point) && a.locals == b.locals
}

// Whether the frames from a place on are the other frames from another place on.
fn same_frames(a: &FrameList, from_a: usize, b: &FrameList, from_b: usize) -> bool
    ensures { result ≡ same_held_frames (drop from_a a.now) (drop from_b b.now) }
{
    let last = b.len();
    let mut at_a = from_a;
    let mut at_b = from_b;
    while at_a < a.len() {
        let Some(frame) = a.get(at_a) else {
            return false;
        };
        let Some(other) = b.get(at_b) else {
            return false;
        };
        if !same_frame(frame, other) {
            return false;
        }
        at_a += 1;
        at_b += 1;
    }
    last <= at_b
}

// Whether a value, taken in the old state, may be this bit.
fn may_be(value: Value<'_>, old: &[bool], bit: bool) -> bool
    requires { IsValueOver (length old.now) (choice_of value) }
    ensures { result ≡ may_be (bit_in old.now) (choice_of value.entry) bit }
{
    match value {
        Value::Free => true,
        Value::Of(e) => bit == value_in(e, old),
    }
}

/// Targets get values, which are taken in the old state.
#[derive(Clone, Copy)]
struct Assignment<'p> {
    targets: &'p [u32],
    values: Values<'p>,
    old: &'p [bool],
}

impl Assignment<'_> {
    // Whether a name that kept a bit, or is a target, may have this bit behind it.
    fn gives(&self, name: u32, kept: bool, bit: bool) -> bool
        requires { Each (IsValueOver (length self.now.old.now)) (values_of self.now.values) }
        ensures { result ≡ becomes
            (value_for self.now.targets.now (values_of self.now.values) name)
            (bit_in self.now.old.now) (λ _. kept) name bit }
    {
        let Some(place) = place_in(self.targets, name) else {
            return bit == kept;
        };
        match self.values.get(place) {
            Some(value) => may_be(value, self.old, bit),
            None => bit == kept,
        }
    }

    // Whether the names that had the bits `kept` get the bits `new`.
    fn gives_all(&self, kept: &[bool], new: &[bool]) -> bool
        requires over { Each (IsValueOver (length self.now.old.now)) (values_of self.now.values) }
        requires small { length kept.now ≤ most_related }
        requires alike { length new.now ≡ length kept.now }
        ensures { result ≡ have_got self.now.targets.now (values_of self.now.values)
            self.now.old.now kept.now new.now }
    {
        let mut name = kept.len();
        while name > 0 {
            name -= 1;
            if !self.gives(name as u32, kept[name], new[name]) {
                return false;
            }
        }
        true
    }
}

// The bits of the names of a procedure's frame in a state.
fn names_in(program: &Program, spot: &Spot, state: &State, locals: u32) -> Valuation
    requires { IsSpot (program_of program.now) spot.now }
    ensures { result ≡ names_in (program_of program.now) (instruction_of spot.now).procedure
        state.now.globals locals }
{
    bits_of_names(
        state.globals,
        program.globals.len(),
        locals,
        width(spot.owner),
    )
}

// Whether the frame at a place of the first state goes on below its line by an assignment.
fn goes_on(
    program: &Program,
    spot: &Spot,
    assignment: &Assignment<'_>,
    from: &State,
    place: usize,
    before: Frame,
    to: &State,
) -> bool
    requires spot { IsSpot (program_of program.now) spot.now }
    requires over { Each (IsValueOver (length assignment.now.old.now))
        (values_of assignment.now.values) }
    requires near { place ≤ 1 }
    ensures { result ≡ held_got (program_of program.now) (instruction_of spot.now)
        assignment.now.targets.now (values_of assignment.now.values) assignment.now.old.now
        from.now to.now before (drop 1 (drop place from.now.frames))
        (slice_get to.now.frames 0) }
{
    let Some(after) = to.frames.get(0) else {
        return false;
    };
    let kept = names_in(program, spot, from, before.locals);
    let new = names_in(program, spot, to, after.locals);
    same_point(after.point, at_line(spot.next()))
        && same_frames(&to.frames, 1, &from.frames, place + 1)
        && assignment.gives_all(kept.as_slice(), new.as_slice())
}

// Whether a condition may lead to a point.
fn may_choose(choice: &Choice, spot: &Spot, old: &[bool], point: Point) -> bool
    requires { IsValueOver (length old.now) choice.now }
    ensures { result ≡ may_choose (instruction_of spot.now) (bit_in old.now) point choice.now }
{
    let next = at_line(spot.next());
    let other = at_line(spot.other());
    match choice {
        Choice::Star => same_point(point, next) || same_point(point, other),
        Choice::Is(e) => same_point(point, if value_in(e, old) { next } else { other }),
    }
}

// Whether a line that only jumps may lead to a point.
fn may_lead(spot: &Spot, old: &[bool], point: Point) -> bool
    requires { IsJumpOver (length old.now) (instruction_of spot.now).statement }
    ensures { result ≡ may_lead (instruction_of spot.now) (bit_in old.now) point
        (instruction_of spot.now).statement }
{
    match &spot.line.statement {
        Statement::Goto { lines } => {
            !point.failed && place_in(lines.as_slice(), point.line).is_some()
        }
        Statement::If(choice) | Statement::While(choice) => may_choose(choice, spot, old, point),
        _ => match point_taken(spot, 0, old) {
            Some(target) => same_point(point, target),
            None => false,
        },
    }
}

// Whether only the point of the top frame changed, to one to which the line may lead.
fn jumps(spot: &Spot, old: &[bool], from: &State, locals: u32, to: &State) -> bool
    requires { IsJumpOver (length old.now) (instruction_of spot.now).statement }
    ensures { let i = instruction_of spot.now in result
        ≡ held_jumped i i.statement (bit_in old.now) from.now to.now locals
        (slice_get to.now.frames 0) }
{
    let Some(top) = to.frames.get(0) else {
        return false;
    };
    to.globals == from.globals
        && may_lead(spot, old, top.point)
        && top.locals == locals
        && same_frames(&to.frames, 1, &from.frames, 1)
}

// Whether the first names have the bits of the arguments.
fn are_arguments(arguments: &[Choice], old: &[bool], names: &[bool]) -> bool
    requires over { Each (IsValueOver (length old.now)) arguments.now }
    requires enough { length arguments.now ≤ length names.now }
    ensures { result ≡ are_arguments (bit_in old.now) arguments.now names.now }
{
    for (place, argument) in arguments.iter().enumerate() {
        if !may_be(Value::of(argument), old, names[place]) {
            return false;
        }
    }
    true
}

// Whether a new frame on top stands at the beginning of this procedure.
fn begins(
    owner: &Proc,
    arguments: &ChoiceList,
    old: &[bool],
    from: &State,
    top: Frame,
    to: &State,
) -> bool
    requires over { Each (IsValueOver (length old.now)) arguments.now }
    requires fits { length arguments.now ≤ width (procedure_of owner.now) }
    requires small { width (procedure_of owner.now) ≤ most_related }
    ensures { result ≡ held_entered (Some (procedure_of owner.now)) arguments.now
        (bit_in old.now) from.now to.now (Some top) }
{
    let mut names = Valuation::new();
    names.push_bits(top.locals, width(owner));
    to.globals == from.globals
        && same_point(top.point, at_line(first_line(owner.body.as_slice())))
        && same_frames(&to.frames, 1, &from.frames, 0)
        && are_arguments(arguments.as_slice(), old, names.as_slice())
}

// Whether a new frame stands at the beginning of a callee.
fn enters(
    program: &Program,
    callee: u32,
    arguments: &ChoiceList,
    old: &[bool],
    from: &State,
    to: &State,
) -> bool
    requires read { IsRead (program_of program.now) }
    requires over { Each (IsValueOver (length old.now)) arguments.now }
    requires fits { IfSome (slice_get (program_of program.now).procs callee) (λ q.
        length arguments.now ≡ q.params) }
    ensures { result ≡ held_entered (slice_get (program_of program.now).procs callee)
        arguments.now (bit_in old.now) from.now to.now (slice_get to.now.frames 0) }
{
    let Some(owner) = program.procs.as_slice().get(callee as usize) else {
        return false;
    };
    let Some(top) = to.frames.get(0) else {
        return false;
    };
    begins(owner, arguments, old, from, top, to)
}

// Whether the top frame went with these values.
fn returns(program: &Program, values: Values<'_>, old: &[bool], from: &State, to: &State) -> bool
    requires read { IsRead (program_of program.now) }
    requires over { Each (IsValueOver (length old.now)) (values_of values) }
    ensures { result ≡ held_returned (program_of program.now) (values_of values.entry) old.now
        from.now to.now (slice_get from.now.frames 1) }
{
    let Some(caller) = from.frames.get(1) else {
        return to.globals == from.globals && to.frames.get(0).is_none();
    };
    let Some(spot) = find(program, caller.point.line) else {
        return false;
    };
    let Statement::Call { targets, .. } = &spot.line.statement else {
        return false;
    };
    let assignment = Assignment {
        targets: targets.as_slice(),
        values,
        old,
    };
    goes_on(program, &spot, &assignment, from, 1, caller, to)
}

// Whether the line on top of the first state leads to the second.
fn acts(program: &Program, spot: &Spot, top: Frame, from: &State, to: &State) -> bool
    requires read { IsRead (program_of program.now) }
    requires spot { IsSpot (program_of program.now) spot.now }
    ensures { let i = instruction_of spot.now in result
        ≡ has_held_acted (program_of program.now) i i.statement
        (names_in (program_of program.now) i.procedure from.now.globals top.locals)
        top from.now to.now }
{
    let names = names_in(program, spot, from, top.locals);
    let old = names.as_slice();
    match &spot.line.statement {
        Statement::Assign { targets, values } => {
            let assignment = Assignment {
                targets: targets.as_slice(),
                values: Values::Listed(values.as_slice()),
                old,
            };
            goes_on(program, spot, &assignment, from, 0, top, to)
        }
        Statement::Call {
            callee,
            arguments,
            ..
        } => enters(program, *callee, arguments, old, from, to),
        Statement::Return { values } => {
            returns(program, Values::Listed(values.as_slice()), old, from, to)
        }
        Statement::EndProc => {
            returns(program, Values::AllFree(spot.owner.returns), old, from, to)
        }
        _ => jumps(spot, old, from, top.locals, to),
    }
}

// Whether the second is a move of the first, as they are held.
fn moves(program: &Program, from: &State, to: &State) -> bool
    requires { IsRead (program_of program.now) }
    ensures { result ≡ has_held_moved (program_of program.now) from.now to.now }
{
    let Some(top) = from.frames.get(0) else {
        return false;
    };
    if top.point.failed {
        return false;
    }
    let Some(spot) = find(program, top.point.line) else {
        return false;
    };
    acts(program, &spot, top, from, to)
}

/// Whether the second is a move of the first by the table of moves, both being states of the
/// program. Where one of them is none, as where a further bit is set, the answer is `false`. It
/// takes no memory.
pub fn is_move(program: &Program, from: &State, to: &State) -> bool
    requires { IsRead (program_of program.now) }
    ensures { IsTrue result ↔ IsHeldMove (program_of program.now) from.now to.now }
{
    programs_are_lawful();
    moves_are_tested();
    if !is_state(program, from) {
        return false;
    }
    if !is_state(program, to) {
        return false;
    }
    moves(program, from, to)
}
