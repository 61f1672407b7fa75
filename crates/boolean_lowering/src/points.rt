ghost use Rattle.std.specs.Prelude.{◌≡◌, ◌≢◌, ◌+◌, ◌<◌, ◌≤◌, ℕ, IsTrue, Some, length, map, slice_get, IfOk, IfSome, IfNone};
ghost use Rattle.std.specs.List.{filter};
ghost use Rattle.wpds_base.specs.Limits.{most_symbols};
ghost use Rattle.boolean_programs.specs.Structure.{rises};
ghost use Rattle.boolean_machine.specs.Lawful.{is_assert};
ghost use Rattle.boolean_lowering.specs.private.Spots.{line_of, asserts_at};
ghost use Rattle.boolean_lowering.specs.private.Tables.{points_in};

use crate::spot::Spot;
use boolean_programs::{Point, Statement};
use std::alloc::Global;
use std::marker::Model;
use wpds_base::OutOfMemory;

/// The points of the symbols of a lowered program, in the order of the symbols: one for each body
/// line and, after these, one for each assert's failure. Contracts see the list of the points.
#[derive(Debug, Drop)]
pub struct PointTable {
    // The numbers of the body lines, and of those that assert. Both rise.
    lines: Vec<u32>,
    asserts: Vec<u32>,
}

impl Model for PointTable {
    ghost use Rattle.std.specs.Prelude.{◌+◌, ◌≤◌, ◌++◌, List, IsTrue, length, map};
    ghost use Rattle.wpds_base.specs.Limits.{most_symbols};
    ghost use Rattle.boolean_programs.specs.declared.point.Point.{Point};
    ghost use Rattle.boolean_programs.specs.Structure.{rises};
    ghost use Rattle.boolean_machine.specs.Machine.{at_line};
    ghost use Rattle.lowering_laws.specs.Lowering.{failure_at};

    ghost Value = { List Point };

    ghost view = { λ t. map at_line t.lines.items ++ map failure_at t.asserts.items };

    ghost invariant = { λ t. IsTrue (rises 0 t.lines.items) × IsTrue (rises 0 t.asserts.items)
        × (length t.lines.items + length t.asserts.items ≤ most_symbols) };
}

// The place of a number among numbers that rise.
fn place_of(numbers: &[u32], number: u32) -> Option<usize>
    requires { IsTrue (rises 0 numbers.now) }
    ensures bound { IfSome result (λ k. k < length numbers.now) }
    ensures some { IfSome result (λ k. slice_get numbers.now k ≡ Some number) }
    ensures none { IfNone result ((k : ℕ) → slice_get numbers.now k ≢ Some number) }
{
    match numbers.binary_search(&number) {
        Ok(place) => Some(place),
        Err(_) => None,
    }
}

// Whether a line asserts.
fn asserts_at(spot: &Spot<'_>) -> bool
    ensures { result ≡ asserts_at spot.now }
{
    match &spot.line.statement {
        Statement::Assert(_) => true,
        _ => false,
    }
}

// The numbers of lines.
fn lines_of(alloc: Global, spots: &[Spot<'_>]) -> Result<Vec<u32>, OutOfMemory>
    ensures { IfOk result (λ v. v.items ≡ map line_of spots.now) }
{
    Ok(spots.iter().map(|spot| spot.line.line).collect(alloc)?)
}

// The numbers of the lines that assert.
fn assert_lines_of(alloc: Global, spots: &[Spot<'_>]) -> Result<Vec<u32>, OutOfMemory>
    ensures { IfOk result (λ v. v.items ≡ map line_of (filter asserts_at spots.now)) }
{
    Ok(
        spots
            .iter()
            .filter(|spot| asserts_at(spot))
            .map(|spot| spot.line.line)
            .collect(alloc)?,
    )
}

impl PointTable {
    /// The points of these lines, whose numbers rise.
    pub(crate) fn of(alloc: Global, spots: &[Spot<'_>]) -> Result<PointTable, OutOfMemory>
        requires rising { IsTrue (rises 0 (map line_of spots.now)) }
        requires few { length spots.now + length (filter asserts_at spots.now) ≤ most_symbols }
        ensures { IfOk result (λ t. t
            ≡ points_in (map line_of spots.now) (map line_of (filter asserts_at spots.now))) }
    {
        let lines = lines_of(alloc, spots)?;
        let asserts = assert_lines_of(alloc, spots)?;
        Ok(PointTable { lines, asserts })
    }

    /// How many symbols there are.
    pub fn len(&self) -> usize
        ensures value { result ≡ length self.now }
        ensures limit { result ≤ most_symbols }
    {
        self.lines.len() + self.asserts.len()
    }

    /// The point of a symbol. It takes no memory.
    pub fn point(&self, symbol: u32) -> Point
        requires { symbol < length self.now }
        ensures { slice_get self.now symbol ≡ Some result }
    {
        let place = symbol as usize;
        if place < self.lines.len() {
            Point {
                line: self.lines[place],
                failed: false,
            }
        } else {
            Point {
                line: self.asserts[place - self.lines.len()],
                failed: true,
            }
        }
    }

    /// The symbol of a point, and `None` exactly where no symbol has it. It takes no memory, and
    /// looks at few of the lines.
    pub fn symbol(&self, point: Point) -> Option<u32>
        ensures some { IfSome result (λ g. slice_get self.now g ≡ Some point) }
        ensures none { IfNone result ((g : ℕ) → slice_get self.now g ≢ Some point) }
    {
        if point.failed {
            let place = place_of(&self.asserts, point.line)?;
            Some((self.lines.len() + place) as u32)
        } else {
            let place = place_of(&self.lines, point.line)?;
            Some(place as u32)
        }
    }
}
