//! The states that stacks and settings stand for.

ghost use Rattle.std.specs.Prelude.{◌≡◌, ◌<◌, ◌≤◌, ◌++◌, Some, map, drop, length, reverse, slice_get, unwrap_or, IfOk, OnOk};
ghost use Rattle.wpds_base.specs.Limits.{most_related};
ghost use Rattle.diagram_store.specs.Meaning.{bits_of};
ghost use Rattle.boolean_programs.specs.Programs.{program_of};
ghost use Rattle.boolean_programs.specs.Structure.{IsRead};
ghost use Rattle.boolean_machine.specs.Machine.{at_line};
ghost use Rattle.boolean_meaning.specs.HeldStates.{held, held_frame, width_at};
ghost use Rattle.lowering_laws.specs.Lowering.{symbol, symbol_points};
ghost use Rattle.lowering_laws.specs.States.{frame_of, point_at, waiting_of, state_of};
ghost use Rattle.program_traces.specs.private.Readers.{IsReader, program_in};

use crate::shown::number_at;
use crate::widths::widths_of;
use boolean_lowering::{PointTable, variables_of};
use boolean_meaning::{Frame, FrameList, State};
use boolean_programs::{Point, Program};
use diagram_ops::Bits;
use lowering_laws::plans_are_within;
use pushdown_rules::Config;
use std::alloc::Global;
use wpds_base::OutOfMemory;

/// What the settings of a program's variables are read by.
#[derive(Drop)]
pub(crate) struct Reader<'p> {
    program: &'p Program,
    points: &'p PointTable,
    first_local: usize,
    // for each body line, how many names its procedure has
    widths: Vec<usize>,
}

// A body line as a point.
fn at_line(line: u32) -> Point
    ensures { result ≡ at_line line }
{
    Point {
        line,
        failed: false,
    }
}

// The width at a place, 0 past the end.
fn width_of(widths: &[usize], place: usize) -> usize
    ensures { result ≡ unwrap_or (slice_get widths.now place) 0 }
{
    match widths.get(place) {
        Some(width) => *width,
        None => 0,
    }
}

// The setting at a place, counted from the newest, which is last.
fn saved_at(saved: &[Bits], place: usize) -> &Bits
    requires { place < length saved.now }
    ensures { slice_get (reverse saved.now) place ≡ Some result.now }
{
    &saved[saved.len() - 1 - place]
}

impl<'p> Reader<'p> {
    /// That of a program, whose symbols have these points.
    pub(crate) fn new(
        alloc: Global,
        program: &'p Program,
        points: &'p PointTable,
    ) -> Result<Reader<'p>, OutOfMemory>
        requires read { IsRead (program_of program.now) }
        requires points { points.now ≡ symbol_points (program_of program.now) }
        ensures reads { IfOk result IsReader }
        ensures program { IfOk result (λ r. program_in r ≡ program_of program.now) }
    {
        let widths = widths_of(alloc, program)?;
        let variables = variables_of(program);
        Ok(Reader {
            program,
            points,
            first_local: variables.first_local as usize,
            widths,
        })
    }

    // How many names the procedure of a line has.
    fn width_at(&self, line: u32) -> usize
        requires { IsReader self.now }
        ensures width { result ≡ width_at (program_in self.now) line }
        ensures few { result ≤ most_related }
    {
        plans_are_within();
        match self.points.symbol(at_line(line)) {
            Some(symbol) => width_of(&self.widths, symbol as usize),
            None => 0,
        }
    }

    /// The symbol of a point, 0 where it has none.
    pub(crate) fn symbol(&self, point: Point) -> u32
        requires { IsReader self.now }
        ensures { result ≡ symbol (program_in self.now) point }
    {
        plans_are_within();
        match self.points.symbol(point) {
            Some(symbol) => symbol,
            None => 0,
        }
    }

    // The point of a symbol.
    fn point_at(&self, symbol: u32) -> Point
        requires { IsReader self.now }
        ensures { result ≡ point_at (program_in self.now) symbol }
    {
        if (symbol as usize) < self.points.len() {
            self.points.point(symbol)
        } else {
            at_line(0)
        }
    }

    // The frame at a point, with its locals in a setting.
    fn frame_at(&self, point: Point, setting: &[bool]) -> Frame
        requires { IsReader self.now }
        ensures { result ≡ held_frame (frame_of (program_in self.now) point (bits_of setting.now)) }
    {
        let width = self.width_at(point.line);
        Frame {
            point,
            locals: number_at(setting, self.first_local, width),
        }
    }

    // Adds the frames that wait, each at the line above that of its symbol, with its locals in the
    // setting that was saved.
    fn push_waiting(
        &self,
        frames: &mut Vec<Frame>,
        stack: &Config,
        saved: &[Bits],
    ) -> Result<(), OutOfMemory>
        requires { IsReader self.now }
        ensures { OnOk result (frames.new.items ≡ frames.old.items ++ map held_frame
            (waiting_of (program_in self.now) (drop 1 stack.now.stack)
            (map bits_of (reverse saved.now)))) }
    {
        for place in 0..saved.len().min(stack.depth().saturating_sub(1)) {
            let point = self.point_at(stack.at(place + 1).saturating_sub(1));
            let setting = saved_at(saved, place);
            frames.push(self.frame_at(point, setting.as_slice()))?;
        }
        Ok(())
    }

    // The frames of a stack, the settings that were saved, of which the newest is last, and the
    // present one.
    fn frames_at(
        &self,
        alloc: Global,
        stack: &Config,
        saved: &[Bits],
        present: &[bool],
    ) -> Result<Vec<Frame>, OutOfMemory>
        requires { IsReader self.now }
        ensures { IfOk result (λ v. v.items ≡ (held (state_of (program_in self.now) stack.now.stack
            (map bits_of (reverse saved.now)) (bits_of present.now))).frames) }
    {
        let mut frames = Vec::new(alloc);
        if stack.depth() == 0 {
            return Ok(frames);
        }
        frames.push(self.frame_at(self.point_at(stack.at(0)), present))?;
        self.push_waiting(&mut frames, stack, saved)?;
        Ok(frames)
    }

    /// The state of a stack, the settings at its open calls, of which the newest is last, and the
    /// present one.
    pub(crate) fn state_at(
        &self,
        alloc: Global,
        stack: &Config,
        saved: &[Bits],
        present: &[bool],
    ) -> Result<State, OutOfMemory>
        requires { IsReader self.now }
        ensures { IfOk result (λ s. s ≡ held (state_of (program_in self.now) stack.now.stack
            (map bits_of (reverse saved.now)) (bits_of present.now))) }
    {
        let frames = self.frames_at(alloc, stack, saved, present)?;
        Ok(State {
            globals: number_at(present, 0, self.program.globals.len()),
            frames: FrameList::from_vec(frames),
        })
    }
}
