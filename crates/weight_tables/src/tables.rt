ghost use Rattle.std.specs.Prelude.{◌≡◌, ◌↔◌, ◌+◌, ◌<◌, [], length, None, Some, IsTrue, IsFalse, IfNone, IfSome, IfOk, OnOk, slice_get, true, unwrap_or};
ghost use Rattle.pushdown_rules.specs.Pushdown.{IsSystem};
ghost use Rattle.pushdown_rules.specs.declared.rule.Rule.{Rule as RuleValue};
ghost use Rattle.weighted_automata.specs.Places.{same_label};
ghost use Rattle.weighted_automata.specs.declared.place.Label.TheVariants.{Empty};
ghost use Rattle.weight_tables.specs.Entries.{TableEntry, NoneWaits, index_at, index_where, index_from, is_from, is_out_of, is_empty_into, lowered_in, taken, weight_in};
ghost use Rattle.weight_tables.specs.Tables.{AreTables, entries_of, no_tables, with_entries, with_hand};

use crate::layers::Layers;
use crate::lowering::{lower, lower_by};
use crate::renewal::renew;
use crate::{Layer, Weigher};
use pushdown_rules::System;
use semiring_laws::Semiring;
use std::alloc::Global;
use std::marker::Model;
use weighted_automata::{Label, Place};
use wpds_base::OutOfMemory;

/// The tables of a search: in each layer weights by place, of which some wait, and one weight in hand. An entry keeps its number as
/// long as its layer is not renewed.
#[derive(Drop)]
pub struct Tables<'s, S: Semiring, M: Weigher<S>> {
    alloc: Global,
    system: &'s System<S>,
    // Of the same system.
    weigher: M,
    // None is zero.
    hand: Option<M::W>,
    layers: Layers<M::W>,
}

impl<'s, S: Semiring, M: Weigher<S>> Model for Tables<'s, S, M> {
    ghost use Rattle.weight_tables.specs.Tables.{TablesValue};
    ghost use Rattle.weight_tables.specs.private.Kept.{AreKept, tables_of, valued_layers, worth_or};

    ghost Value = { TablesValue S S.W S.Ret };

    ghost view = { λ t. let zero = (S.operations t.system.now.semiring).zero in
        tables_of t.system.now (worth_or zero (M.worth t.weigher) t.hand)
        (valued_layers (M.worth t.weigher) t.layers) };

    ghost invariant = { λ t.
        AreKept M.pushdown M.Knows t.system.now t.weigher t.hand t.layers };
}

impl<'s, S: Semiring, M: Weigher<S>> Tables<'s, S, M> {
    /// No entries, and zero in hand. It takes no memory.
    pub fn new(alloc: Global, system: &'s System<S>, weigher: M) -> Tables<'s, S, M>
        requires { M.pushdown weigher ≡ system.now }
        ensures { result ≡ no_tables (S.operations system.now.semiring).zero system.now }
    {
        Tables {
            alloc,
            system,
            weigher,
            hand: None,
            layers: Layers::new(alloc),
        }
    }

    /// The system that the weights are of.
    pub fn system(&self) -> &'s System<S>
        ensures value { result.now ≡ self.now.system }
        ensures valid { IsSystem S.operations result.now }
    {
        let _semiring = self.system.semiring();
        self.system
    }

    /// Tells what holds of all tables: it does nothing.
    pub fn valid(&self)
        ensures system { IsSystem S.operations self.now.system }
        ensures tables { AreTables (S.operations self.now.system.semiring) self.now }
    {
        let _semiring = self.system().semiring();
        let _base = self.layers.base.len();
        let _target = self.layers.target.len();
        let _walk = self.layers.walk.len();
    }

    /// Takes the weight of the empty run in hand.
    pub fn hold_one(&mut self) -> Result<(), OutOfMemory>
        ensures ok { OnOk result (let s = S.operations self.old.system.semiring in
            self.new ≡ with_hand s.one self.old) }
        ensures system { self.new.system ≡ self.old.system }
    {
        let w = self.weigher.one()?;
        self.hand = Some(w);
        Ok(())
    }

    /// Takes the weight of an entry in hand.
    pub fn hold(&mut self, layer: Layer, t: u32) -> Result<(), OutOfMemory>
        requires { t < length (entries_of layer self.old) }
        ensures ok { OnOk result ((e : TableEntry S.W)
            → slice_get (entries_of layer self.old) t ≡ Some e
            → self.new ≡ with_hand e.weight self.old) }
        ensures system { self.new.system ≡ self.old.system }
    {
        let w = self.weigher.copy(self.layers.weight(layer, t))?;
        self.hand = Some(w);
        Ok(())
    }

    /// Takes the weight of a rule in hand.
    pub fn hold_rule(&mut self, k: u32) -> Result<(), OutOfMemory>
        requires { k < length self.old.system.rules }
        ensures ok { OnOk result ((r : RuleValue S S.W S.Ret)
            → slice_get self.old.system.rules k ≡ Some r
            → self.new ≡ with_hand r.weight self.old) }
        ensures system { self.new.system ≡ self.old.system }
    {
        let w = self.weigher.rule(k)?;
        self.hand = Some(w);
        Ok(())
    }

    /// Takes the weight of a rule in hand, and then that of an entry.
    pub fn hold_rule_then(&mut self, k: u32, layer: Layer, t: u32) -> Result<(), OutOfMemory>
        requires rule { k < length self.old.system.rules }
        requires entry { t < length (entries_of layer self.old) }
        ensures ok { OnOk result (let s = S.operations self.old.system.semiring in
            (r : RuleValue S S.W S.Ret) → slice_get self.old.system.rules k ≡ Some r
            → (e : TableEntry S.W) → slice_get (entries_of layer self.old) t ≡ Some e
            → self.new ≡ with_hand (s.extend r.weight e.weight) self.old) }
        ensures system { self.new.system ≡ self.old.system }
    {
        let w = self.weigher.rule_then(k, self.layers.weight(layer, t))?;
        self.hand = Some(w);
        Ok(())
    }

    /// Takes the weight of an entry in hand, and then that of a rule.
    pub fn hold_then_rule(&mut self, layer: Layer, t: u32, k: u32) -> Result<(), OutOfMemory>
        requires entry { t < length (entries_of layer self.old) }
        requires rule { k < length self.old.system.rules }
        ensures ok { OnOk result (let s = S.operations self.old.system.semiring in
            (r : RuleValue S S.W S.Ret) → slice_get self.old.system.rules k ≡ Some r
            → (e : TableEntry S.W) → slice_get (entries_of layer self.old) t ≡ Some e
            → self.new ≡ with_hand (s.extend e.weight r.weight) self.old) }
        ensures system { self.new.system ≡ self.old.system }
    {
        let w = self.weigher.then_rule(self.layers.weight(layer, t), k)?;
        self.hand = Some(w);
        Ok(())
    }

    /// Has the return map of a rule change the weight in hand. A rule without a map leaves it.
    pub fn return_hand(&mut self, k: u32) -> Result<(), OutOfMemory>
        requires { k < length self.old.system.rules }
        ensures ok { OnOk result (let s = S.operations self.old.system.semiring in
            (r : RuleValue S S.W S.Ret) → slice_get self.old.system.rules k ≡ Some r
            → self.new ≡ with_hand
            (s.after (unwrap_or r.map s.plain) self.old.hand) self.old) }
        ensures system { self.new.system ≡ self.old.system }
    {
        let _rule = self.system.rule(k);
        match &self.hand {
            Some(hand) => {
                let w = self.weigher.returned(k, hand)?;
                self.hand = Some(w);
                Ok(())
            }
            None => Ok(()),
        }
    }

    /// Whether the weight in hand is zero.
    pub fn is_hand_zero(&self) -> bool
        ensures { let s = S.operations self.now.system.semiring in
            IsTrue result ↔ (self.now.hand ≡ s.zero) }
    {
        match &self.hand {
            Some(w) => self.weigher.is_zero(w),
            None => true,
        }
    }

    /// Lowers the weight of a place by the one in hand, which stays there.
    pub fn lower(&mut self, layer: Layer, place: Place) -> Result<(), OutOfMemory>
        ensures ok { OnOk result (let s = S.operations self.old.system.semiring in
            let es = entries_of layer self.old in
            self.new ≡ with_entries layer (lowered_in s place self.old.hand es) self.old) }
        ensures system { self.new.system ≡ self.old.system }
    {
        match &self.hand {
            Some(hand) => lower_by(&mut self.weigher, &mut self.layers, layer, place, hand),
            None => Ok(()),
        }
    }

    /// Lowers the weight of a place by the one in hand, which is given away: zero is in hand then.
    pub fn put(&mut self, layer: Layer, place: Place) -> Result<(), OutOfMemory>
        ensures ok { OnOk result (let s = S.operations self.old.system.semiring in
            let es = entries_of layer self.old in
            self.new ≡ with_hand s.zero
            (with_entries layer (lowered_in s place self.old.hand es) self.old)) }
        ensures system { self.new.system ≡ self.old.system }
    {
        match self.hand.take() {
            Some(hand) => lower(&mut self.weigher, &mut self.layers, layer, place, hand),
            None => Ok(()),
        }
    }

    /// Lowers the weight of a place by the one in hand, and then that of an entry. The hand stays.
    pub fn lower_then(
        &mut self,
        layer: Layer,
        place: Place,
        of: Layer,
        t: u32,
    ) -> Result<(), OutOfMemory>
        requires { t < length (entries_of of self.old) }
        ensures ok { OnOk result (let s = S.operations self.old.system.semiring in
            let es = entries_of layer self.old in
            (e : TableEntry S.W) → slice_get (entries_of of self.old) t ≡ Some e
            → self.new ≡ with_entries layer
            (lowered_in s place (s.extend self.old.hand e.weight) es) self.old) }
        ensures system { self.new.system ≡ self.old.system }
    {
        match &self.hand {
            Some(hand) => {
                let w = self.weigher.extend(hand, self.layers.weight(of, t))?;
                lower(&mut self.weigher, &mut self.layers, layer, place, w)
            }
            None => Ok(()),
        }
    }

    /// Lowers the weight of a place by that of an entry, and then the one in hand. The hand stays.
    pub fn lower_after(
        &mut self,
        layer: Layer,
        place: Place,
        of: Layer,
        t: u32,
    ) -> Result<(), OutOfMemory>
        requires { t < length (entries_of of self.old) }
        ensures ok { OnOk result (let s = S.operations self.old.system.semiring in
            let es = entries_of layer self.old in
            (e : TableEntry S.W) → slice_get (entries_of of self.old) t ≡ Some e
            → self.new ≡ with_entries layer
            (lowered_in s place (s.extend e.weight self.old.hand) es) self.old) }
        ensures system { self.new.system ≡ self.old.system }
    {
        match &self.hand {
            Some(hand) => {
                let w = self.weigher.extend(self.layers.weight(of, t), hand)?;
                lower(&mut self.weigher, &mut self.layers, layer, place, w)
            }
            None => Ok(()),
        }
    }

    // Has another object keep the weights in use, where the one that does is full. What they stand for stays, and where memory is
    // refused all stays as it was.
    fn renew_weigher(&mut self)
        ensures { self.new ≡ self.old }
    {
        if !self.weigher.is_full() {
            return;
        }
        match renew(self.alloc, &self.weigher, &self.hand, &self.layers) {
            Ok(new) => {
                self.weigher = new.weigher;
                self.hand = new.hand;
                self.layers.put_cells(new.cells);
            }
            Err(_) => {}
        }
    }

    /// Takes an entry that waits, which waits no more, and says its number.
    pub fn pop(&mut self, layer: Layer) -> Option<u32>
        ensures none { IfNone result (NoneWaits (entries_of layer self.old)) }
        ensures stays { IfNone result (self.new ≡ self.old) }
        ensures entry { IfSome result (λ t. (e : TableEntry S.W)
            × (slice_get (entries_of layer self.old) t ≡ Some e) × (e.waits ≡ true)) }
        ensures within { IfSome result (λ t. t < length (entries_of layer self.new)) }
        ensures taken { IfSome result (λ t.
            self.new ≡ with_entries layer (taken t (entries_of layer self.old)) self.old) }
    {
        self.renew_weigher();
        self.layers.pop(layer)
    }

    /// Takes all entries out of a layer. It takes no memory.
    pub fn renew(&mut self, layer: Layer)
        ensures { self.new ≡ with_entries layer [] self.old }
    {
        self.layers.renew(self.alloc, layer);
    }

    /// The weight of a place, zero where it has no entry.
    pub fn value(&self, layer: Layer, place: Place) -> Result<S::W, OutOfMemory>
        ensures { let s = S.operations self.now.system.semiring in
            IfOk result (λ w. w ≡ weight_in s (entries_of layer self.now) place) }
    {
        let list = self.layers.list(layer);
        match list.find(place) {
            Some(t) => self.weigher.value(list.weight(t)),
            None => self.weigher.no_value(),
        }
    }

    /// How many entries a layer has.
    pub fn len(&self, layer: Layer) -> u32
        ensures { result ≡ length (entries_of layer self.now) }
    {
        self.layers.list(layer).len()
    }

    /// The place of an entry.
    pub fn place(&self, layer: Layer, t: u32) -> Place
        requires { t < length (entries_of layer self.now) }
        ensures { (e : TableEntry S.W) → slice_get (entries_of layer self.now) t ≡ Some e
            → result ≡ e.place }
    {
        self.layers.list(layer).place(t)
    }

    /// Whether an entry waits.
    pub fn waits(&self, layer: Layer, t: u32) -> bool
        requires { t < length (entries_of layer self.now) }
        ensures { (e : TableEntry S.W) → slice_get (entries_of layer self.now) t ≡ Some e
            → result ≡ e.waits }
    {
        self.layers.list(layer).waits(t)
    }

    /// The number of the entry of a place.
    pub fn find(&self, layer: Layer, place: Place) -> Option<u32>
        ensures number { result ≡ index_at place (entries_of layer self.now) }
        ensures within { IfSome result (λ t. t < length (entries_of layer self.now)) }
    {
        self.layers.list(layer).find(place)
    }

    /// The first entry that goes from a state and reads a label.
    pub fn first_from(&self, layer: Layer, state: u32, label: Label) -> Option<u32>
        ensures number { result ≡ index_where (is_from state label) (entries_of layer self.now) }
        ensures within { IfSome result (λ t. t < length (entries_of layer self.now)) }
    {
        self.layers.list(layer).first_from(state, label)
    }

    /// The next entry that goes from the state of this one and reads its label.
    pub fn next_from(&self, layer: Layer, t: u32) -> Option<u32>
        ensures row { let es = entries_of layer self.now in
            (e : TableEntry S.W) → slice_get es t ≡ Some e
            → result ≡ index_from (is_from e.place.from e.place.label) (t + 1) es }
        ensures within { IfSome result (λ n. n < length (entries_of layer self.now)) }
    {
        self.layers.list(layer).next_from(t)
    }

    /// The first entry that goes from a state, whatever it reads.
    pub fn first_out_of(&self, layer: Layer, state: u32) -> Option<u32>
        ensures number { result ≡ index_where (is_out_of state) (entries_of layer self.now) }
        ensures within { IfSome result (λ t. t < length (entries_of layer self.now)) }
    {
        self.layers.list(layer).first_out_of(state)
    }

    /// The next entry that goes from the state of this one.
    pub fn next_out_of(&self, layer: Layer, t: u32) -> Option<u32>
        ensures row { let es = entries_of layer self.now in
            (e : TableEntry S.W) → slice_get es t ≡ Some e
            → result ≡ index_from (is_out_of e.place.from) (t + 1) es }
        ensures within { IfSome result (λ n. n < length (entries_of layer self.now)) }
    {
        self.layers.list(layer).next_out_of(t)
    }

    /// The first entry that goes to a state and reads nothing.
    pub fn first_empty_into(&self, layer: Layer, state: u32) -> Option<u32>
        ensures number { result ≡ index_where (is_empty_into state) (entries_of layer self.now) }
        ensures within { IfSome result (λ t. t < length (entries_of layer self.now)) }
    {
        self.layers.list(layer).first_empty_into(state)
    }

    /// The next entry that goes to the state of this one and reads nothing, if this one reads nothing.
    pub fn next_empty_into(&self, layer: Layer, t: u32) -> Option<u32>
        ensures row { let es = entries_of layer self.now in
            (e : TableEntry S.W) → slice_get es t ≡ Some e → e.place.label ≡ Empty
            → result ≡ index_from (is_empty_into e.place.to) (t + 1) es }
        ensures others { let es = entries_of layer self.now in
            (e : TableEntry S.W) → slice_get es t ≡ Some e
            → IsFalse (same_label e.place.label Empty) → result ≡ None }
        ensures within { IfSome result (λ n. n < length (entries_of layer self.now)) }
    {
        self.layers.list(layer).next_empty_into(t)
    }
}
