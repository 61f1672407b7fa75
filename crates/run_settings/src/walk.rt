//! The machine along a whole run.

ghost use Rattle.std.specs.Prelude.{◌≡◌, ◌<◌, All, IfOk, length};
ghost use Rattle.run_settings.specs.private.Walks.{machine_at, ArePast};

use crate::machine::{Machine, Past};
use pushdown_rules::System;
use relation_weights::Relations;
use std::alloc::Global;
use wpds_base::OutOfMemory;

/// The machine after a run, and what is kept of each moment before a rule, in order.
#[derive(Drop)]
pub(crate) struct WalkedRun<'a> {
    pub(crate) machine: Machine<'a>,
    pub(crate) past: Vec<Past<'a>>,
}

/// Goes along a run.
pub(crate) fn walk<'a>(
    alloc: Global,
    system: &'a System<Relations>,
    run: &[u32],
) -> Result<WalkedRun<'a>, OutOfMemory>
    requires { All (λ k. k < length system.now.rules) run.now }
    ensures machine { IfOk result (λ w.
        w.machine ≡ machine_at system.now run.now (length run.now)) }
    ensures past { IfOk result (λ w.
        ArePast system.now run.now (length run.now) w.past.items) }
{
    let relations = system.semiring();
    let mut machine = Machine::new(alloc, relations)?;
    let mut past = Vec::new(alloc);
    for k in run {
        past.push(machine.past(alloc, relations)?)?;
        machine.step(alloc, relations, system.rule(*k))?;
    }
    Ok(WalkedRun { machine, past })
}
