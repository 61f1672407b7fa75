ghost use Rattle.std.specs.Prelude.{◌≡◌, ◌≤◌, ◌<◌, ◌↔◌, All, None, IfOk, IfSome, length};
ghost use Rattle.wpds_base.specs.Limits.{most_related};
ghost use Rattle.pushdown_rules.specs.Values.{rules_of};
ghost use Rattle.pushdown_rules.specs.InSystem.{value_in, zero_in};
ghost use Rattle.relation_weights.specs.Relations.{relation_operations};
ghost use Rattle.run_settings.specs.Settings.{AreSettings, first_of, rest_of};
ghost use Rattle.run_settings.specs.private.Links.{IsLinked};
ghost use Rattle.run_settings.specs.private.Walks.{machine_at, ArePast};

use crate::ends::settings_at_end;
use crate::machine::Past;
use crate::moment::Moment;
use crate::walk::walk;
use diagram_ops::Bits;
use pushdown_rules::System;
use relation_weights::{Relations, weights_are_sets_of_pairs};
use std::alloc::Global;
use std::marker::Model;
use std::mem;
use wpds_base::OutOfMemory;

/// Settings along a run: the first, and one behind each rule, each a bit for each variable.
#[derive(Drop)]
pub struct RunSettings {
    first: Bits,
    // the last one first
    later: Vec<Bits>,
}

impl Model for RunSettings {
    ghost use Rattle.std.specs.Prelude.{reverse};
    ghost use Rattle.run_settings.specs.Settings.{Along};

    ghost Value = { Along };

    ghost view = { λ s. record { first = s.first; later = reverse s.later.items } };
}

impl RunSettings {
    /// The first setting.
    pub fn first(&self) -> &[bool]
        ensures { result.now ≡ self.now.first }
    {
        self.first.as_slice()
    }

    /// Takes the first setting away, so that the one behind its rule is the first. It takes no memory.
    pub fn advance(&mut self) -> Bits
        requires { 0 < length self.old.later }
        ensures first { result ≡ self.old.first }
        ensures rest { self.new ≡ record {
          first = first_of self.old.later;
          later = rest_of self.old.later;
        } }
    {
        match self.later.pop() {
            Some(next) => mem::replace(&mut self.first, next),
            None => unreachable!(),
        }
    }
}

// Settings along a run, from those at its end.
fn walk_back(
    alloc: Global,
    n: u32,
    system: &System<Relations>,
    run: &[u32],
    past: Vec<Past<'_>>,
    moment: Moment,
) -> Result<RunSettings, OutOfMemory>
    requires n { system.now.semiring ≡ n }
    requires few { n ≤ 24 }
    requires run { All (λ k. k < length system.now.rules) run.now }
    requires past { ArePast system.now run.now (length run.now) past.items }
    requires linked { IsLinked n (machine_at system.now run.now (length run.now)) moment }
    ensures { IfOk result (AreSettings n
        (rules_of (relation_operations n) system.now run.now)) }
{
    let relations = system.semiring();
    let mut past = past;
    let mut moment = moment;
    let mut later = Vec::new(alloc);
    'back: while let Some(before) = past.pop() {
        let rule = system.rule(run[past.len()]);
        let behind = moment.go_back(alloc, n, relations, rule, &before)?;
        later.push(behind)?;
    }
    Ok(RunSettings {
        first: moment.present,
        later,
    })
}

/// Settings of the `n` variables of a system's relations that lead along a run: a first one, and
/// one behind each rule; `None` exactly where the run's value is the empty relation. Which of
/// several it gives is not said.
///
/// It goes along the run once with the values that `System::run_value` has, and then back,
/// picking the setting before each rule from what its weight and the value before it share: a few
/// operations on diagrams for each rule. It takes memory for each rule.
pub fn settings_along(
    alloc: Global,
    n: u32,
    system: &System<Relations>,
    run: &[u32],
) -> Result<Option<RunSettings>, OutOfMemory>
    requires n { system.now.semiring ≡ n }
    requires few { n ≤ most_related }
    requires run { All (λ k. k < length system.now.rules) run.now }
    ensures none { IfOk result (λ o. (o ≡ None) ↔ (value_in relation_operations system.now run.now
        ≡ zero_in relation_operations system.now)) }
    ensures some { IfOk result (λ o. IfSome o (AreSettings n
        (rules_of (relation_operations n) system.now run.now))) }
{
    // the law by which the empty relation is the only one without a pair
    weights_are_sets_of_pairs();
    let walked = walk(alloc, system, run)?;
    let end = settings_at_end(alloc, n, system.semiring(), &walked.machine)?;
    match end {
        None => Ok(None),
        Some(moment) => {
            let settings = walk_back(alloc, n, system, run, walked.past, moment)?;
            Ok(Some(settings))
        }
    }
}
