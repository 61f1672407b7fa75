//! The machine that gives a run its value, as far as it has come.

ghost use Rattle.std.specs.Prelude.{◌≡◌, ◌<◌, Some, IfOk, OnOk, length, slice_get};
ghost use Rattle.semiring_laws.specs.Semiring.{Fits};
ghost use Rattle.pushdown_rules.specs.Pushdown.{FitsRule};
ghost use Rattle.pushdown_rules.specs.RunValue.{FitsFrame, FitsMachine, starting, called, returned, machine_after};
ghost use Rattle.relation_weights.specs.Relations.{relation_operations};
ghost use Rattle.run_settings.specs.private.Walks.{IsPast, newest_call};

use pushdown_rules::Rule;
use relation_weights::{RelMap, Relation, Relations};
use semiring_laws::Semiring;
use std::alloc::Global;
use std::marker::Model;
use std::mem;
use wpds_base::OutOfMemory;

/// A call that has not returned: the value before it, and what its return does.
#[derive(Drop)]
pub(crate) struct Call<'a> {
    pub(crate) saved: Relation,
    pub(crate) map: &'a RelMap,
}

impl<'a> Model for Call<'a> {
    ghost use Rattle.pushdown_rules.specs.RunValue.{Frame};
    ghost use Rattle.relation_laws.specs.Building.{Parts};
    ghost use Rattle.relation_weights.specs.declared.rel_map.RelMap.{RelMap};

    ghost Value = { Frame Parts RelMap };

    ghost view = { λ c. record { saved = c.saved; map = c.map.now } };
}

impl<'a> Call<'a> {
    /// The same call, which shares its value.
    fn copy(&self, alloc: Global, relations: &Relations) -> Result<Call<'a>, OutOfMemory>
        requires { Fits (relation_operations relations.now) self.now.saved }
        ensures { IfOk result (λ c. c ≡ self.now) }
    {
        let saved = relations.copy(alloc, &self.saved)?;
        Ok(Call {
            saved,
            map: self.map,
        })
    }
}

impl<'a> Call<'a> {
    // The value before the call, and then what its return makes of this value.
    fn returned(
        &self,
        alloc: Global,
        relations: &Relations,
        value: &Relation,
    ) -> Result<Relation, OutOfMemory>
        requires call { FitsFrame (relation_operations relations.now) self.now }
        requires value { Fits (relation_operations relations.now) value.now }
        ensures { let s = relation_operations relations.now in IfOk result (λ w.
            w ≡ s.extend self.now.saved (s.after self.now.map value.now)) }
    {
        let returned = relations.after(alloc, self.map, value)?;
        relations.extend(alloc, &self.saved, &returned)
    }
}

/// What is kept of a moment: the value since the newest open call, and that call.
#[derive(Drop)]
pub(crate) struct Past<'a> {
    pub(crate) accumulator: Relation,
    pub(crate) newest: Option<Call<'a>>,
}

/// The values of a run so far.
#[derive(Drop)]
pub(crate) struct Machine<'a> {
    accumulator: Relation,
    // the newest last
    frames: Vec<Call<'a>>,
}

impl<'a> Model for Machine<'a> {
    ghost use Rattle.std.specs.Prelude.{reverse};
    ghost use Rattle.pushdown_rules.specs.RunValue.{Machine as MachineValue};
    ghost use Rattle.relation_laws.specs.Building.{Parts};
    ghost use Rattle.relation_weights.specs.declared.rel_map.RelMap.{RelMap};

    ghost Value = { MachineValue Parts RelMap };

    ghost view = { λ m. record { accumulator = m.accumulator; frames = reverse m.frames.items } };
}

impl<'a> Machine<'a> {
    /// The machine before the first rule.
    pub(crate) fn new(alloc: Global, relations: &Relations) -> Result<Machine<'a>, OutOfMemory>
        ensures { IfOk result (λ m. m ≡ starting (relation_operations relations.now)) }
    {
        let accumulator = relations.one(alloc)?;
        Ok(Machine {
            accumulator,
            frames: Vec::new(alloc),
        })
    }

    /// Goes on by one rule.
    pub(crate) fn step(
        &mut self,
        alloc: Global,
        relations: &Relations,
        rule: &'a Rule<Relations>,
    ) -> Result<(), OutOfMemory>
        requires machine { FitsMachine (relation_operations relations.now) self.old }
        requires rule { FitsRule (relation_operations relations.now) rule.now }
        ensures { OnOk result (
            self.new ≡ machine_after (relation_operations relations.now) rule.now self.old) }
    {
        if let Some(map) = &rule.map {
            self.call(alloc, relations, &rule.weight, map)
        } else if rule.right.as_slice().is_empty() {
            self.give_back(alloc, relations, &rule.weight)
        } else {
            self.go_on(alloc, relations, &rule.weight)
        }
    }

    fn call(
        &mut self,
        alloc: Global,
        relations: &Relations,
        weight: &Relation,
        map: &'a RelMap,
    ) -> Result<(), OutOfMemory>
        requires { Fits (relation_operations relations.now) weight.now }
        ensures { OnOk result (self.new ≡ called self.old weight.now map.now) }
    {
        let weight = relations.copy(alloc, weight)?;
        let saved = mem::replace(&mut self.accumulator, weight);
        self.frames.push(Call { saved, map })?;
        Ok(())
    }

    fn go_on(
        &mut self,
        alloc: Global,
        relations: &Relations,
        weight: &Relation,
    ) -> Result<(), OutOfMemory>
        requires machine { FitsMachine (relation_operations relations.now) self.old }
        requires weight { Fits (relation_operations relations.now) weight.now }
        ensures { OnOk result (self.new ≡ record self.old {
          accumulator = (relation_operations relations.now).extend self.old.accumulator weight.now;
        }) }
    {
        self.accumulator = relations.extend(alloc, &self.accumulator, weight)?;
        Ok(())
    }

    fn give_back(
        &mut self,
        alloc: Global,
        relations: &Relations,
        weight: &Relation,
    ) -> Result<(), OutOfMemory>
        requires machine { FitsMachine (relation_operations relations.now) self.old }
        requires weight { Fits (relation_operations relations.now) weight.now }
        ensures { let s = relation_operations relations.now in OnOk result (
            self.new ≡ returned s (s.extend self.old.accumulator weight.now) self.old.frames) }
    {
        let value = relations.extend(alloc, &self.accumulator, weight)?;
        match self.frames.pop() {
            None => self.accumulator = value,
            Some(call) => self.accumulator = call.returned(alloc, relations, &value)?,
        }
        Ok(())
    }

    // The newest open call, shared.
    fn newest(&self, alloc: Global, relations: &Relations) -> Result<Option<Call<'a>>, OutOfMemory>
        requires { FitsMachine (relation_operations relations.now) self.now }
        ensures { IfOk result (λ c. c ≡ newest_call self.now.frames) }
    {
        match self.frames.last() {
            None => Ok(None),
            Some(call) => Ok(Some(call.copy(alloc, relations)?)),
        }
    }

    /// The value since the newest open call.
    pub(crate) fn accumulator(&self) -> &Relation
        ensures { result.now ≡ self.now.accumulator }
    {
        &self.accumulator
    }

    /// How many calls are open.
    pub(crate) fn depth(&self) -> usize
        ensures { result ≡ length self.now.frames }
    {
        self.frames.len()
    }

    /// The open call at a place, counted from the newest.
    pub(crate) fn call_at(&self, k: usize) -> &Call<'a>
        requires { k < length self.now.frames }
        ensures { slice_get self.now.frames k ≡ Some result.now }
    {
        &self.frames[self.frames.len() - 1 - k]
    }

    /// What is kept of the present moment.
    pub(crate) fn past(&self, alloc: Global, relations: &Relations) -> Result<Past<'a>, OutOfMemory>
        requires { FitsMachine (relation_operations relations.now) self.now }
        ensures { IfOk result (IsPast self.now) }
    {
        let accumulator = relations.copy(alloc, &self.accumulator)?;
        let newest = self.newest(alloc, relations)?;
        Ok(Past {
            accumulator,
            newest,
        })
    }
}
