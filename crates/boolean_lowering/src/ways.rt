//! The ways in which a line may go on that only jumps.

ghost use Rattle.std.specs.Prelude.{◌≡◌, ℕ, map, IfOk};
ghost use Rattle.boolean_programs.specs.declared.statement.Choice.TheVariants.{Is};
ghost use Rattle.boolean_machine.specs.Machine.{at_line, action_of, always, on_choice};
ghost use Rattle.lowering_laws.specs.Lowering.{failure_at};
ghost use Rattle.boolean_lowering.specs.private.Spots.{instruction_of};
ghost use Rattle.boolean_lowering.specs.private.Ways.{way_of, ways_of};

use crate::spot::Spot;
use boolean_programs::{Choice, Expression, Point, Statement};
use std::alloc::Global;
use wpds_base::OutOfMemory;

/// When a way may be taken.
#[derive(Clone, Copy)]
pub(crate) enum Condition<'p> {
    Always,
    Holds(&'p Expression),
    Fails(&'p Expression),
}

/// A way that a line may go on: to a point, where a condition holds.
#[derive(Clone, Copy)]
pub(crate) struct Way<'p> {
    pub(crate) condition: Condition<'p>,
    pub(crate) to: Point,
}

/// A body line as a point.
pub(crate) fn at_line(line: u32) -> Point
    ensures { result ≡ at_line line }
{
    Point {
        line,
        failed: false,
    }
}

// The failure of the assert of a line.
fn failure_at(line: u32) -> Point
    ensures { result ≡ failure_at line }
{
    Point { line, failed: true }
}

fn always<'p>(line: u32) -> Way<'p>
    ensures { way_of result ≡ always line }
{
    Way {
        condition: Condition::Always,
        to: at_line(line),
    }
}

// To one point where an expression is true, and to another where it is false.
fn by_value(e: &Expression, there: Point, elsewhere: Point) -> [Way<'_>; 2]
    ensures { map way_of result ≡ ways_of (on_choice (Is e.now) there elsewhere) }
{
    [
        Way {
            condition: Condition::Holds(e),
            to: there,
        },
        Way {
            condition: Condition::Fails(e),
            to: elsewhere,
        },
    ]
}

// By the value of a condition to one point or to another, to both at `*`.
fn by_choice(choice: &Choice, there: u32, elsewhere: u32) -> [Way<'_>; 2]
    ensures { map way_of result
        ≡ ways_of (on_choice choice.now (at_line there) (at_line elsewhere)) }
{
    match choice {
        Choice::Is(e) => by_value(e, at_line(there), at_line(elsewhere)),
        Choice::Star => [always(there), always(elsewhere)],
    }
}

// To any of these lines.
fn to_lines<'p>(alloc: Global, lines: &[u32]) -> Result<Vec<Way<'p>>, OutOfMemory>
    ensures { IfOk result (λ v. map way_of v.items ≡ map always lines.now) }
{
    let mut ways = Vec::with_capacity(alloc, lines.len())?;
    for line in lines {
        ways.push(always(*line))?;
    }
    Ok(ways)
}

/// The ways of a line, in their order. One that doesn't only jump has none.
pub(crate) fn ways_of<'p>(alloc: Global, spot: &Spot<'p>) -> Result<Vec<Way<'p>>, OutOfMemory>
    ensures { let i = instruction_of spot.now in (returns : ℕ) → IfOk result (λ v.
        map way_of v.items ≡ ways_of (action_of returns i i.statement)) }
{
    let line = spot.line;
    match &line.statement {
        Statement::Skip | Statement::EndIf => Ok(vec![in alloc; always(spot.next)]?),
        Statement::Else | Statement::EndWhile => Ok(vec![in alloc; always(spot.other)]?),
        Statement::Goto { lines } => to_lines(alloc, lines.as_slice()),
        Statement::Assume(e) => Ok(vec![in alloc;
            Way {
                condition: Condition::Holds(e),
                to: at_line(spot.next),
            },
        ]?),
        Statement::Assert(e) => {
            let ways = by_value(e, at_line(spot.next), failure_at(line.line));
            Ok(Vec::from_array(alloc, ways)?)
        }
        Statement::If(choice) | Statement::While(choice) => {
            let ways = by_choice(choice, spot.next, spot.other);
            Ok(Vec::from_array(alloc, ways)?)
        }
        Statement::Assign { .. }
        | Statement::Call { .. }
        | Statement::Return { .. }
        | Statement::EndProc => Ok(Vec::new(alloc)),
    }
}
