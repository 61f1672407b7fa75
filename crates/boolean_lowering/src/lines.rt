//! The rules of body lines.

ghost use Rattle.std.specs.Prelude.{◌≡◌, ◌+◌, ◌≤◌, [], Some, length, map, slice_get, OnOk};
ghost use Rattle.wpds_base.specs.Limits.{most_rules, most_symbols};
ghost use Rattle.boolean_programs.specs.Lines.{code};
ghost use Rattle.boolean_programs.specs.Lists.{Each};
ghost use Rattle.boolean_programs.specs.Programs.{program_of};
ghost use Rattle.boolean_machine.specs.Machine.{action, returns_of};
ghost use Rattle.lowering_laws.specs.Lowering.{line_rules, plan};
ghost use Rattle.lowering_laws.specs.Plans.{IsWithin};
ghost use Rattle.boolean_lowering.specs.private.Spots.{instruction_of};
ghost use Rattle.boolean_lowering.specs.private.Made.{IsMaking, IsFor, AreAdded, program_in};

use crate::making::Making;
use crate::rules::{add_assignment, add_call, add_return, add_ways};
use crate::spot::Spot;
use crate::ways::ways_of;
use boolean_machine::programs_are_lawful;
use boolean_programs::{Program, Statement};
use lowering_laws::plans_are_within;
use pushdown_rules::System;
use relation_weights::Relations;
use std::alloc::Global;
use wpds_base::OutOfMemory;

// How many values a procedure returns.
fn returns_of(program: &Program, procedure: usize) -> u32
    ensures { result ≡ returns_of (program_of program.now) procedure }
{
    match program.procs.as_slice().get(procedure) {
        Some(owner) => owner.returns,
        None => 0,
    }
}

// Adds the rules of a line, whose symbol is their head.
fn add_line<'p>(
    alloc: Global,
    making: &Making<'p>,
    system: &mut System<Relations>,
    head: u32,
    spot: &Spot<'p>,
) -> Result<(), OutOfMemory>
    requires making { IsMaking making.now }
    requires system { IsFor (program_in making.now) system.old }
    requires there { slice_get (code (program_in making.now)) head
        ≡ Some (instruction_of spot.now) }
    requires within { let p = program_in making.now in let i = instruction_of spot.now in
        Each (IsWithin p) (line_rules p head i (action p i)) }
    requires room { let p = program_in making.now in let i = instruction_of spot.now in
        length system.old.rules + length (line_rules p head i (action p i)) ≤ most_rules }
    ensures { let p = program_in making.now in let i = instruction_of spot.now in OnOk result (
        AreAdded p system.old system.new (line_rules p head i (action p i))) }
{
    let line = spot.line;
    match &line.statement {
        Statement::Assign { targets, values } => {
            let targets = targets.as_slice();
            add_assignment(
                alloc,
                making,
                system,
                head,
                spot.next,
                targets,
                values.as_slice(),
            )
        }
        Statement::Call {
            targets,
            callee,
            arguments,
        } => {
            let callee = &making.program.procs.as_slice()[*callee as usize];
            let targets = targets.as_slice();
            add_call(
                alloc,
                making,
                system,
                head,
                spot,
                targets,
                callee,
                arguments.as_slice(),
            )
        }
        Statement::Return { values } => {
            add_return(alloc, making, system, head, values.as_slice(), 0)
        }
        Statement::EndProc => {
            let free = returns_of(making.program, spot.procedure);
            add_return(alloc, making, system, head, &[], free)
        }
        _ => {
            let ways = ways_of(alloc, spot)?;
            add_ways(alloc, making, system, head, &ways)
        }
    }
}

/// Adds the rules of all lines.
pub(crate) fn add_lines<'p>(
    alloc: Global,
    making: &Making<'p>,
    system: &mut System<Relations>,
    spots: &[Spot<'p>],
) -> Result<(), OutOfMemory>
    requires making { IsMaking making.now }
    requires system { IsFor (program_in making.now) system.old }
    requires spots { map instruction_of spots.now ≡ code (program_in making.now) }
    requires none { system.old.rules ≡ [] }
    requires few { length spots.now ≤ most_symbols }
    requires few_rules { length (plan (program_in making.now)) ≤ most_rules }
    ensures { OnOk result (AreAdded (program_in making.now) system.old system.new
        (plan (program_in making.now))) }
{
    programs_are_lawful();
    plans_are_within();
    for (head, spot) in spots.iter().enumerate() {
        add_line(alloc, making, system, head as u32, spot)?;
    }
    Ok(())
}
