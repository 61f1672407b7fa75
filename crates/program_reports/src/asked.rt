//! A program with its lowering, and the patterns between which its queries ask.

ghost use Rattle.std.specs.Prelude.{◌≡◌, ◌<◌, IfOk};
ghost use Rattle.pattern_openings.specs.PatternOpenings.{IsOver};
ghost use Rattle.boolean_programs.specs.Lines.{first_line};
ghost use Rattle.boolean_programs.specs.Programs.{program_of};
ghost use Rattle.program_laws.specs.ReadPrograms.{IsProgram, IsPoint};
ghost use Rattle.lowering_laws.specs.Lowering.{symbol, callee_at};
ghost use Rattle.lowering_laws.specs.Queries.{entry_point, entry_pattern, point_pattern};
ghost use Rattle.program_reports.specs.private.Asked.{IsAsked, program_in, opened, summed};

use crate::patterns::{alone, on_top};
use boolean_lowering::{Lowering, lower};
use boolean_programs::{BodyLine, Point, Program};
use config_patterns::Pattern;
use lowering_laws::{plans_are_within, points_have_symbols};
use report_text::Options;
use std::alloc::Global;
use witness_graph::Side;
use wpds_base::OutOfMemory;

/// A program with its lowering, and how its queries are answered.
#[derive(Drop)]
pub(crate) struct Asked<'p> {
    pub(crate) program: &'p Program,
    pub(crate) lowering: Lowering,
    pub(crate) options: Options,
}

// The number of the first of some body lines, and 0 of none.
fn first_line(body: &[BodyLine]) -> u32
    ensures { result ≡ first_line body.now }
{
    match body.first() {
        Some(line) => line.line,
        None => 0,
    }
}

// The number of the first line of `main`.
fn main_line(program: &Program) -> u32
    ensures { let p = program_of program.now in
        result ≡ first_line (callee_at p p.main).body }
{
    for owner in program.procs.as_slice() {
        if owner.name.is(b"main") {
            return first_line(owner.body.as_slice());
        }
    }
    0
}

impl<'p> Asked<'p> {
    /// A program that is read, with its lowering.
    pub(crate) fn of(
        alloc: Global,
        program: &'p Program,
        options: Options,
    ) -> Result<Asked<'p>, OutOfMemory>
        requires { IsProgram program.now }
        ensures asked { IfOk result IsAsked }
        ensures program { IfOk result (λ a. a.program.now ≡ program.now) }
        ensures options { IfOk result (λ a. a.options ≡ options) }
    {
        let lowering = lower(alloc, program)?;
        let _semiring = lowering.system.semiring();
        Ok(Asked {
            program,
            lowering,
            options,
        })
    }

    // The symbol of a point.
    fn symbol(&self, point: Point) -> u32
        requires asked { IsAsked self.now }
        requires point { IsPoint (program_in self.now) point }
        ensures value { result ≡ symbol (program_in self.now) point }
        ensures within { result < self.now.lowering.system.symbols }
    {
        plans_are_within();
        points_have_symbols();
        match self.lowering.points.symbol(point) {
            Some(symbol) => symbol,
            None => unreachable!(),
        }
    }

    /// Main's first line.
    pub(crate) fn entry(&self) -> Point
        requires { IsAsked self.now }
        ensures value { result ≡ entry_point (program_in self.now) }
        ensures point { IsPoint (program_in self.now) result }
    {
        points_have_symbols();
        Point {
            line: main_line(self.program),
            failed: false,
        }
    }

    /// The stack of main's first line alone.
    pub(crate) fn entry_pattern(&self, alloc: Global) -> Result<Pattern, OutOfMemory>
        requires { IsAsked self.now }
        ensures value { IfOk result (λ x. x ≡ entry_pattern (program_in self.now)) }
        ensures over { let system = self.now.lowering.system in
            IfOk result (IsOver system.controls system.symbols) }
    {
        let symbol = self.symbol(self.entry());
        alone(alloc, self.lowering.system.symbols(), symbol)
    }

    /// The stacks with a point on top.
    pub(crate) fn point_pattern(&self, alloc: Global, point: Point) -> Result<Pattern, OutOfMemory>
        requires asked { IsAsked self.now }
        requires point { IsPoint (program_in self.now) point }
        ensures value { IfOk result (λ x. x ≡ point_pattern (program_in self.now) point) }
        ensures over { let system = self.now.lowering.system in
            IfOk result (IsOver system.controls system.symbols) }
    {
        let symbol = self.symbol(point);
        on_top(alloc, self.lowering.system.symbols(), symbol)
    }

    /// The pattern from which a saturation for a point starts.
    pub(crate) fn opened(&self, alloc: Global, point: Point) -> Result<Pattern, OutOfMemory>
        requires asked { IsAsked self.now }
        requires point { IsPoint (program_in self.now) point }
        ensures value { IfOk result (λ x. x ≡ opened self.now point) }
        ensures over { let system = self.now.lowering.system in
            IfOk result (IsOver system.controls system.symbols) }
    {
        match self.options.by {
            Side::Pre => self.point_pattern(alloc, point),
            Side::Post => self.entry_pattern(alloc),
        }
    }

    /// The pattern that is summed over for a point.
    pub(crate) fn summed(&self, alloc: Global, point: Point) -> Result<Pattern, OutOfMemory>
        requires asked { IsAsked self.now }
        requires point { IsPoint (program_in self.now) point }
        ensures value { IfOk result (λ x. x ≡ summed self.now point) }
        ensures over { let system = self.now.lowering.system in
            IfOk result (IsOver system.controls system.symbols) }
    {
        match self.options.by {
            Side::Pre => self.entry_pattern(alloc),
            Side::Post => self.point_pattern(alloc, point),
        }
    }
}
