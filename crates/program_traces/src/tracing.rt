ghost use Rattle.std.specs.Prelude.{◌≡◌, ◌≤◌, ◌<◌, ◌↔◌, [], None, reverse, map, length, All, IfOk, IfSome, OnOk};
ghost use Rattle.pushdown_rules.specs.InSystem.{value_in, zero_in};
ghost use Rattle.pushdown_rules.specs.Values.{rules_of};
ghost use Rattle.relation_weights.specs.Relations.{relation_operations};
ghost use Rattle.boolean_programs.specs.Programs.{program_of};
ghost use Rattle.boolean_programs.specs.Structure.{IsRead};
ghost use Rattle.boolean_meaning.specs.HeldStates.{held};
ghost use Rattle.lowering_laws.specs.Lowering.{symbol, symbol_points};
ghost use Rattle.lowering_laws.specs.Queries.{entry_point};
ghost use Rattle.lowering_laws.specs.Weights.{IsDiagramLowering};
ghost use Rattle.run_settings.specs.Settings.{AreSettings};
ghost use Rattle.program_traces.specs.Traces.{entry_of, FiresFromEntry, IsRunTrace};
ghost use Rattle.program_traces.specs.private.Readers.{IsReader, program_in, saved_after};
ghost use Rattle.program_traces.specs.private.Ways.{states_on};

use crate::reader::Reader;
use boolean_lowering::{Lowering, variables_of};
use boolean_machine::{moves_keep_states, programs_are_lawful};
use boolean_meaning::{State, start};
use boolean_programs::Program;
use diagram_ops::Bits;
use lowering_laws::{moments_are_runs, relations_mean_pairs};
use pushdown_rules::{Config, Rule, System};
use relation_weights::Relations;
use run_settings::{RunSettings, settings_along, settings_are_moments};
use std::alloc::Global;
use wpds_base::{OutOfMemory, Sequence};

/// States of a program's machine, each a move of the one before.
pub type Trace = Sequence<State>;

// The symbol of main's first line.
fn entry_symbol(alloc: Global, program: &Program, reader: &Reader<'_>) -> Result<u32, OutOfMemory>
    requires reader { IsReader reader.now }
    requires program { program_in reader.now ≡ program_of program.now }
    ensures { let p = program_of program.now in
        IfOk result (λ g. g ≡ symbol p (entry_point p)) }
{
    let first = start(alloc, program, 0, 0)?;
    match first.frames.get(0) {
        Some(frame) => Ok(reader.symbol(frame.point)),
        None => Ok(0),
    }
}

// Goes over a rule with the settings at the open calls, of which the newest is last.
fn pass(saved: &mut Vec<Bits>, rule: &Rule<Relations>, before: Bits) -> Result<(), OutOfMemory>
    requires { length rule.now.right ≤ 2 }
    ensures { OnOk result (reverse saved.new.items
        ≡ saved_after rule.now.right (reverse saved.old.items) before) }
{
    match rule.right.as_slice() {
        [] => {
            saved.pop();
        }
        [_] => {}
        _ => saved.push(before)?,
    }
    Ok(())
}

// The states along a run, from settings that lead along it.
fn states_of(
    alloc: Global,
    reader: &Reader<'_>,
    system: &System<Relations>,
    entry: u32,
    run: &[u32],
    settings: RunSettings,
) -> Result<Vec<State>, OutOfMemory>
    requires reader { IsReader reader.now }
    requires entry { let p = program_in reader.now in entry ≡ symbol p (entry_point p) }
    requires rules { All (λ k. k < length system.now.rules) run.now }
    requires runs { FiresFromEntry (program_in reader.now) system.now run.now }
    requires lead { AreSettings system.now.semiring
        (rules_of (relation_operations system.now.semiring) system.now run.now) settings }
    ensures { let p = program_in reader.now in IfOk result (λ v.
        v.items ≡ map held (states_on p system.now run.now (entry_of p) [] settings)) }
{
    let mut here = Config::new(alloc, 0, &[entry])?;
    let mut settings = settings;
    let mut saved = Vec::new(alloc);
    let mut states = Vec::new(alloc);
    for k in run {
        states.push(reader.state_at(alloc, &here, &saved, settings.first())?)?;
        let before = settings.advance();
        pass(&mut saved, system.rule(*k), before)?;
        system.fire(alloc, &mut here, *k)?;
    }
    states.push(reader.state_at(alloc, &here, &saved, settings.first())?)?;
    Ok(states)
}

/// The states of the program's machine that a run of its lowering from main's first point stands
/// for: one for each configuration of the run, at the points of its stack, each a move of the one
/// before. `None` exactly where the run's value is the empty relation. Which of several such lists
/// it gives is not said.
///
/// The settings of the variables are picked backwards along the run (`settings_along`); the states
/// are read off from them. Nothing is searched.
pub fn concrete(
    alloc: Global,
    program: &Program,
    lowering: &Lowering,
    run: &[u32],
) -> Result<Option<Trace>, OutOfMemory>
    requires read { IsRead (program_of program.now) }
    requires system { IsDiagramLowering (program_of program.now) lowering.now.system }
    requires points { lowering.now.points ≡ symbol_points (program_of program.now) }
    requires runs { FiresFromEntry (program_of program.now) lowering.now.system run.now }
    ensures none { IfOk result (λ t. (t ≡ None)
        ↔ (value_in relation_operations lowering.now.system run.now
        ≡ zero_in relation_operations lowering.now.system)) }
    ensures some { IfOk result (λ t. IfSome t
        (IsRunTrace (program_of program.now) lowering.now.system run.now)) }
{
    // the laws by which the states are a run of the machine
    programs_are_lawful();
    moves_keep_states();
    relations_mean_pairs();
    settings_are_moments::<Relations>();
    moments_are_runs::<Relations>();
    let system = &lowering.system;
    // a system keeps its rules over its own symbols and weights
    let _relations = system.semiring();
    let n = variables_of(program).count;
    let Some(settings) = settings_along(alloc, n, system, run)? else {
        return Ok(None);
    };
    let reader = Reader::new(alloc, program, &lowering.points)?;
    let entry = entry_symbol(alloc, program, &reader)?;
    let states = states_of(alloc, &reader, system, entry, run, settings)?;
    Ok(Some(Trace::from_vec(states)))
}
