//! From the moment behind a rule to the one before it.

ghost use Rattle.std.specs.Prelude.{◌≡◌, ◌≤◌, ◌<◌, ◌∷◌, Bool, List, IfOk, OnOk, length};
ghost use Rattle.semiring_laws.specs.Semiring.{Fits, FitsMap};
ghost use Rattle.pushdown_rules.specs.Pushdown.{FitsRule};
ghost use Rattle.pushdown_rules.specs.RunValue.{Machine as MachineValue, FitsMachine, machine_after};
ghost use Rattle.relation_laws.specs.Building.{Parts};
ghost use Rattle.relation_weights.specs.declared.rel_map.RelMap.{RelMap};
ghost use Rattle.relation_weights.specs.Relations.{relation_operations};
ghost use Rattle.run_settings.specs.Settings.{rest_of};
ghost use Rattle.run_settings.specs.private.Links.{Joins, IsLinked, IsReturn, IsBefore};
ghost use Rattle.run_settings.specs.private.Moments.{newest_of, IsWide};
ghost use Rattle.run_settings.specs.private.Walks.{IsPast};

use crate::machine::{Call, Past};
use crate::moment::Moment;
use crate::returns::before_return;
use diagram_ops::Bits;
use pushdown_rules::Rule;
use relation_picks::pick_middle;
use relation_weights::{Relation, Relations};
use std::alloc::Global;
use std::mem;
use wpds_base::OutOfMemory;

impl Moment {
    /// Adds the setting at a call that is newer than the others, before which there was this value.
    pub(crate) fn link(
        &mut self,
        alloc: Global,
        n: u32,
        call: &Call<'_>,
        value: &Relation,
    ) -> Result<(), OutOfMemory>
        requires n { n ≤ 24 }
        requires saved { Fits (relation_operations n) call.now.saved }
        requires value { Fits (relation_operations n) value.now }
        requires wide { IsWide n self.old }
        requires joins { Joins ((relation_operations n).extend call.now.saved value.now)
            (newest_of self.old.start self.old.saved) self.old.present }
        ensures { OnOk result ((setting : List Bool)
            × (self.new ≡ record self.old { saved = setting ∷ self.old.saved })
            × Joins call.now.saved (newest_of self.old.start self.old.saved) setting
            × Joins value.now setting self.old.present × (length setting ≡ n)) }
    {
        let setting = pick_middle(
            alloc,
            n,
            &call.saved,
            value,
            self.newest(),
            self.present.as_slice(),
        )?;
        self.saved.push(setting)?;
        Ok(())
    }

    // Goes back over a call, and answers the setting behind it.
    fn before_call(&mut self) -> Bits
        requires { 0 < length self.old.saved }
        ensures behind { result ≡ self.old.present }
        ensures before { self.new ≡ record {
          start = self.old.start;
          saved = rest_of self.old.saved;
          present = newest_of self.old.start self.old.saved;
        } }
    {
        match self.saved.pop() {
            Some(setting) => mem::replace(&mut self.present, setting),
            None => unreachable!(),
        }
    }

    // Goes back over a rule with this weight that leaves the open calls, and answers the setting
    // behind it.
    fn before_step(
        &mut self,
        alloc: Global,
        n: u32,
        value: &Relation,
        weight: &Relation,
    ) -> Result<Bits, OutOfMemory>
        requires n { n ≤ 24 }
        requires value { Fits (relation_operations n) value.now }
        requires weight { Fits (relation_operations n) weight.now }
        requires wide { IsWide n self.old }
        requires joins { Joins ((relation_operations n).extend value.now weight.now)
            (newest_of self.old.start self.old.saved) self.old.present }
        ensures behind { IfOk result (λ b. b ≡ self.old.present) }
        ensures same { OnOk result (
            self.new ≡ record self.old { present = self.new.present }) }
        ensures value { OnOk result (
            Joins value.now (newest_of self.old.start self.old.saved) self.new.present) }
        ensures weight { OnOk result (Joins weight.now self.new.present self.old.present) }
        ensures long { OnOk result (length self.new.present ≡ n) }
    {
        let setting = pick_middle(
            alloc,
            n,
            value,
            weight,
            self.newest(),
            self.present.as_slice(),
        )?;
        Ok(mem::replace(&mut self.present, setting))
    }

    // Goes back over a return from a call, and answers the setting behind it.
    fn before_return(
        &mut self,
        alloc: Global,
        n: u32,
        relations: &Relations,
        call: &Call<'_>,
        value: &Relation,
        weight: &Relation,
    ) -> Result<Bits, OutOfMemory>
        requires n { relations.now ≡ n }
        requires few { n ≤ 24 }
        requires saved { Fits (relation_operations n) call.now.saved }
        requires map { FitsMap (relation_operations n) call.now.map }
        requires value { Fits (relation_operations n) value.now }
        requires weight { Fits (relation_operations n) weight.now }
        requires wide { IsWide n self.old }
        requires joins { let s = relation_operations n in Joins (s.extend call.now.saved
            (s.after call.now.map (s.extend value.now weight.now)))
            (newest_of self.old.start self.old.saved) self.old.present }
        ensures behind { IfOk result (λ b. b ≡ self.old.present) }
        ensures same { OnOk result ((caller : List Bool)
            × (self.new ≡ record {
              start = self.old.start;
              saved = caller ∷ self.old.saved;
              present = self.new.present;
            }) × IsReturn n call.now value.now weight.now
            (newest_of self.old.start self.old.saved) self.old.present caller self.new.present) }
    {
        let before = before_return(
            alloc,
            n,
            relations,
            call,
            value,
            weight,
            self.newest(),
            self.present.as_slice(),
        )?;
        self.saved.push(before.caller)?;
        Ok(mem::replace(&mut self.present, before.last))
    }

    /// Goes back over a rule, by what is kept of the moment before it, and answers the setting
    /// behind it.
    pub(crate) fn go_back(
        &mut self,
        alloc: Global,
        n: u32,
        relations: &Relations,
        rule: &Rule<Relations>,
        past: &Past<'_>,
    ) -> Result<Bits, OutOfMemory>
        requires n { relations.now ≡ n }
        requires few { n ≤ 24 }
        requires rule { FitsRule (relation_operations n) rule.now }
        requires there { (m : MachineValue Parts RelMap) × FitsMachine (relation_operations n) m
            × IsPast m past.now × IsLinked n (machine_after (relation_operations n) rule.now m)
            self.old }
        ensures behind { IfOk result (λ b. b ≡ self.old.present) }
        ensures before { (m : MachineValue Parts RelMap) → FitsMachine (relation_operations n) m
            → IsPast m past.now → IsLinked n (machine_after (relation_operations n) rule.now m)
            self.old → OnOk result (IsBefore n rule.now m self.old self.new) }
    {
        if rule.map.is_some() {
            return Ok(self.before_call());
        }
        match &past.newest {
            Some(call) if rule.right.as_slice().is_empty() => self.before_return(
                alloc,
                n,
                relations,
                call,
                &past.accumulator,
                &rule.weight,
            ),
            _ => self.before_step(alloc, n, &past.accumulator, &rule.weight),
        }
    }
}
