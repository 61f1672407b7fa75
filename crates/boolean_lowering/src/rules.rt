//! Rules of the lowering, as they are planned.

ghost use Rattle.std.specs.Prelude.{◌≡◌, ◌+◌, ◌<◌, ◌≤◌, ◌++◌, ◌∷◌, [], None, is_some, length, map, replicate, slice_get, Some, IfSome, OnOk};
ghost use Rattle.wpds_base.specs.Limits.{most_rules};
ghost use Rattle.pushdown_rules.specs.Fault.{rule_fault};
ghost use Rattle.pushdown_rules.specs.InSystem.{FitsIn, FitsMapIn, map_in};
ghost use Rattle.relation_weights.specs.Relations.{relation_operations};
ghost use Rattle.boolean_programs.specs.declared.statement.Choice.TheVariants.{Star};
ghost use Rattle.boolean_programs.specs.Lists.{Each};
ghost use Rattle.boolean_programs.specs.Programs.{procedure_of};
ghost use Rattle.boolean_machine.specs.Machine.{at_line};
ghost use Rattle.lowering_laws.specs.Lowering.{Assigns, symbol, slot_of, in_slots, step_rule, jump_rule, call_rule, return_rule};
ghost use Rattle.lowering_laws.specs.Plans.{IsWithin};
ghost use Rattle.boolean_lowering.specs.private.Spots.{instruction_of};
ghost use Rattle.boolean_lowering.specs.private.Ways.{way_of};
ghost use Rattle.boolean_lowering.specs.private.Made.{IsMaking, IsFor, AreAdded, program_in};

use crate::making::Making;
use crate::source::Source;
use crate::spot::{Spot, line_at};
use crate::ways::{Way, at_line};
use boolean_programs::{Choice, Proc};
use pushdown_rules::{RuleFault, System};
use relation_weights::{RelMap, Relation, Relations};
use std::alloc::Global;
use wpds_base::OutOfMemory;

// Adds a rule that is not refused.
fn add(
    alloc: Global,
    system: &mut System<Relations>,
    head: u32,
    right: &[u32],
    weight: Relation,
    map: Option<RelMap>,
) -> Result<(), OutOfMemory>
    requires weight { FitsIn relation_operations system.old weight }
    requires map { IfSome map (FitsMapIn relation_operations system.old) }
    requires accepted { rule_fault system.old 0 head 0 right.now (is_some map) ≡ None }
    ensures { OnOk result (system.new ≡ record system.old {
      rules = system.old.rules ++
          record {
            control = 0;
            symbol = head;
            to = 0;
            right = right.now;
            weight = weight;
            map = map_in relation_operations system.old right.now map;
          } ∷ [];
    }) }
{
    match system.add_rule(alloc, 0, head, 0, right, weight, map) {
        Ok(_) => Ok(()),
        Err(RuleFault::Memory) => Err(OutOfMemory),
        Err(_) => unreachable!(),
    }
}

// Adds the rule of a way.
fn add_way<'p>(
    alloc: Global,
    making: &Making<'p>,
    system: &mut System<Relations>,
    head: u32,
    way: Way<'p>,
) -> Result<(), OutOfMemory>
    requires making { IsMaking making.now }
    requires system { IsFor (program_in making.now) system.old }
    requires within { IsWithin (program_in making.now)
        (jump_rule (program_in making.now) head (way_of way)) }
    requires room { length system.old.rules < most_rules }
    ensures { let p = program_in making.now in OnOk result (
        AreAdded p system.old system.new (jump_rule p head (way_of way.entry) ∷ [])) }
{
    let weight = making.weight(alloc, Source::Assumption(way.condition))?;
    let to = making.symbol(way.to);
    add(alloc, system, head, &[to], weight, None)
}

/// Adds the rules of ways.
pub(crate) fn add_ways<'p>(
    alloc: Global,
    making: &Making<'p>,
    system: &mut System<Relations>,
    head: u32,
    ways: &[Way<'p>],
) -> Result<(), OutOfMemory>
    requires making { IsMaking making.now }
    requires system { IsFor (program_in making.now) system.old }
    requires within { let p = program_in making.now in
        Each (IsWithin p) (map (jump_rule p head) (map way_of ways.now)) }
    requires room { length system.old.rules + length ways.now ≤ most_rules }
    ensures { let p = program_in making.now in OnOk result (
        AreAdded p system.old system.new (map (jump_rule p head) (map way_of ways.now))) }
{
    for way in ways {
        add_way(alloc, making, system, head, *way)?;
    }
    Ok(())
}

/// Adds the rule of an assignment, behind which this line stands.
pub(crate) fn add_assignment<'p>(
    alloc: Global,
    making: &Making<'p>,
    system: &mut System<Relations>,
    head: u32,
    next: u32,
    targets: &'p [u32],
    values: &'p [Choice],
) -> Result<(), OutOfMemory>
    requires making { IsMaking making.now }
    requires system { IsFor (program_in making.now) system.old }
    requires within { let p = program_in making.now in
        IsWithin p (step_rule head (symbol p (at_line next))
        (Assigns (map (slot_of p) targets.now) (in_slots p values.now))) }
    requires room { length system.old.rules < most_rules }
    ensures { let p = program_in making.now in OnOk result (
        AreAdded p system.old system.new (step_rule head (symbol p (at_line next))
        (Assigns (map (slot_of p) targets.now) (in_slots p values.now)) ∷ [])) }
{
    let weight = making.weight(alloc, Source::Assignment { targets, values })?;
    let to = making.symbol(at_line(next));
    add(alloc, system, head, &[to], weight, None)
}

/// Adds the rule of a call of a procedure, below which this line stands.
pub(crate) fn add_call<'p>(
    alloc: Global,
    making: &Making<'p>,
    system: &mut System<Relations>,
    head: u32,
    spot: &Spot<'_>,
    targets: &[u32],
    callee: &Proc,
    arguments: &'p [Choice],
) -> Result<(), OutOfMemory>
    requires making { IsMaking making.now }
    requires system { IsFor (program_in making.now) system.old }
    requires within { let p = program_in making.now in IsWithin p (call_rule p head
        (instruction_of spot.now) targets.now (procedure_of callee.now) arguments.now) }
    requires room { length system.old.rules < most_rules }
    ensures { let p = program_in making.now in OnOk result (
        AreAdded p system.old system.new (call_rule p head
        (instruction_of spot.now) targets.now (procedure_of callee.now) arguments.now ∷ [])) }
{
    let first = making.layout.first_local();
    let free = callee.locals.len() as u32;
    let source = Source::Filling {
        first,
        values: arguments,
        free,
    };
    let weight = making.weight(alloc, source)?;
    let to = making.symbol(at_line(line_at(callee.body.as_slice(), 0)));
    let back = making.symbol(at_line(spot.next));
    let map = making.map(targets);
    add(alloc, system, head, &[to, back], weight, Some(map))
}

/// Adds the rule of a return of values, and of as many free ones behind them.
pub(crate) fn add_return<'p>(
    alloc: Global,
    making: &Making<'p>,
    system: &mut System<Relations>,
    head: u32,
    values: &'p [Choice],
    free: u32,
) -> Result<(), OutOfMemory>
    requires making { IsMaking making.now }
    requires system { IsFor (program_in making.now) system.old }
    requires within { let p = program_in making.now in
        IsWithin p (return_rule p head (values.now ++ replicate free Star)) }
    requires room { length system.old.rules < most_rules }
    ensures { let p = program_in making.now in OnOk result (
        AreAdded p system.old system.new
        (return_rule p head (values.now ++ replicate free Star) ∷ [])) }
{
    let source = Source::Filling {
        first: making.layout.globals,
        values,
        free,
    };
    let weight = making.weight(alloc, source)?;
    add(alloc, system, head, &[], weight, None)
}
