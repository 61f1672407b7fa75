ghost use Rattle.std.specs.Prelude.{◌≡◌, ◌≤◌, length, map, IfOk};
ghost use Rattle.wpds_base.specs.Limits.{most_rules, most_symbols};
ghost use Rattle.boolean_programs.specs.Lines.{code};
ghost use Rattle.boolean_programs.specs.Programs.{program_of};
ghost use Rattle.boolean_programs.specs.Structure.{IsRead};
ghost use Rattle.program_laws.specs.ReadPrograms.{points, rules};
ghost use Rattle.lowering_laws.specs.Lowering.{symbol_points};
ghost use Rattle.lowering_laws.specs.Weights.{IsDiagramLowering};
ghost use Rattle.boolean_lowering.specs.private.Spots.{instruction_of};

use crate::lines::add_lines;
use crate::making::Making;
use crate::points::PointTable;
use crate::spot::{Spot, spots_of};
use boolean_programs::Program;
use lowering_laws::{plans_are_made, plans_are_within};
use pushdown_rules::System;
use relation_weights::Relations;
use std::alloc::Global;
use wpds_base::OutOfMemory;

/// A lowered program.
#[derive(Drop)]
pub struct Lowering {
    pub system: System<Relations>,
    /// The points of the symbols.
    pub points: PointTable,
}

// The system of a program, whose body lines and points these are.
fn system_of<'p>(
    alloc: Global,
    program: &'p Program,
    table: &'p PointTable,
    spots: &[Spot<'p>],
) -> Result<System<Relations>, OutOfMemory>
    requires read { IsRead (program_of program.now) }
    requires table { table.now ≡ symbol_points (program_of program.now) }
    requires spots { map instruction_of spots.now ≡ code (program_of program.now) }
    requires few_points { points (program_of program.now) ≤ most_symbols }
    requires few_rules { rules (program_of program.now) ≤ most_rules }
    ensures { IfOk result (IsDiagramLowering (program_of program.now)) }
{
    plans_are_within();
    plans_are_made::<Relations>();
    let making = Making::new(alloc, program, table)?;
    let symbols = table.len() as u32;
    let relations = Relations::keeping_results(alloc, making.layout.variables());
    let mut system = System::new(alloc, relations, 1, symbols);
    add_lines(alloc, &making, &mut system, spots)?;
    Ok(system)
}

/// The lowering of a program: a pushdown system with one control, whose weights are relations
/// between old and new values of the program's variables, and whose feasible runs are the runs of
/// the program (Ball, Rajamani 2000; Schwoon 2002). It takes time by the number of lines, but for
/// the look-ups of points, which are binary searches. Rules that say the same share a weight, as
/// long as there is room to keep it.
///
/// A program that is read has few enough lines and rules.
pub fn lower(alloc: Global, program: &Program) -> Result<Lowering, OutOfMemory>
    requires read { IsRead (program_of program.now) }
    requires few_points { points (program_of program.now) ≤ most_symbols }
    requires few_rules { rules (program_of program.now) ≤ most_rules }
    ensures system { IfOk result (λ l. IsDiagramLowering (program_of program.now) l.system) }
    ensures points { IfOk result (λ l. l.points ≡ symbol_points (program_of program.now)) }
    ensures symbols { IfOk result (λ l. length l.points ≡ l.system.symbols) }
{
    plans_are_within();
    let spots = spots_of(alloc, program)?;
    let points = PointTable::of(alloc, &spots)?;
    let system = system_of(alloc, program, &points, &spots)?;
    Ok(Lowering { system, points })
}
