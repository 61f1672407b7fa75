ghost use Rattle.std.specs.Prelude.{◌≡◌, ◌↔◌, ◌<◌, ℕ, Some, IfOk, IfSome, IsTrue, length, slice_get};
ghost use Rattle.pushdown_rules.specs.declared.rule.Rule.{Rule as RuleValue};
ghost use Rattle.relation_laws.specs.Building.{Parts};
ghost use Rattle.semiring_laws.specs.Semiring.{Fits, FitsMap};
ghost use Rattle.relation_weights.specs.Relations.{after_of, relation_operations};
ghost use Rattle.relation_weights.specs.RelationNodes.{IsReturnBy};
ghost use Rattle.relation_weights.specs.declared.rel_map.RelMap.{RelMap as RelMapValue};
ghost use Rattle.weight_tables.specs.Growth.{Grows};
ghost use Rattle.node_weigher.specs.NodeWeighers as spec;
ghost use Rattle.node_weigher.specs.NodeWeighers.{nodes_of};
ghost use Rattle.node_weigher.specs.private.KnownRules.{IsRuleReturn, IsRuleWeight};
ghost use Rattle.node_weigher.specs.WeigherLaws.{fits_known};

use crate::rules::{RuleReturn, RuleWeight};
use key_rows::KeyedList;
use pushdown_rules::System;
use relation_weights::{RelMap, Relation, RelationNodes, Relations, ReturnNodes};
use semiring_laws::Semiring;
use std::alloc::Global;
use std::marker::Model;
use weight_tables::Weigher;
use wpds_base::OutOfMemory;

// How many references are enough, so that what is in use is kept anew by another object.
const ENOUGH: usize = 2_097_152;

/// Makes weights of relations by references into one table of nodes. Weights and return maps of rules get theirs when they are first
/// asked for.
#[derive(Drop)]
pub struct NodeWeigher<'s> {
    alloc: Global,
    system: &'s System<Relations>,
    nodes: RelationNodes,
    weights: KeyedList<u32, RuleWeight>,
    returns: KeyedList<u32, RuleReturn>,
    // How many references are enough.
    enough: usize,
}

impl<'s> Model for NodeWeigher<'s> {
    ghost use Rattle.std.specs.Prelude.{◌≡◌};
    ghost use Rattle.node_weigher.specs.NodeWeighers.{WeigherOf};
    ghost use Rattle.node_weigher.specs.private.KnownRules.{AreKnownRules};

    ghost Value = { WeigherOf };

    ghost view = { λ m. record { system = m.system.now; nodes = m.nodes.nodes } };

    ghost invariant = { λ m. (m.nodes.bits ≡ m.system.now.semiring) × AreKnownRules
        (record { system = m.system.now; nodes = m.nodes.nodes })
        m.weights.members m.returns.members };
}

impl<'s> NodeWeigher<'s> {
    /// The weights of a system.
    pub fn new(alloc: Global, system: &'s System<Relations>) -> Result<NodeWeigher<'s>, OutOfMemory>
        ensures { IfOk result (λ m. m.system ≡ system.now) }
    {
        NodeWeigher::with_enough(alloc, system, ENOUGH)
    }

    /// The weights of a system; past so many references what is in use is kept anew.
    pub fn with_enough(
        alloc: Global,
        system: &'s System<Relations>,
        enough: usize,
    ) -> Result<NodeWeigher<'s>, OutOfMemory>
        ensures { IfOk result (λ m. m.system ≡ system.now) }
    {
        let nodes = RelationNodes::new(alloc, system.semiring().bits())?;
        Ok(NodeWeigher {
            alloc,
            system,
            nodes,
            weights: KeyedList::new(alloc),
            returns: KeyedList::new(alloc),
            enough,
        })
    }

    // The composition, the first relation first.
    fn composed(&mut self, a: u32, b: u32) -> Result<u32, OutOfMemory>
        requires left { spec.Knows self.old a }
        requires right { spec.Knows self.old b }
        ensures grows { Grows (λ m. m.system) spec.Knows spec.worth self.old self.new }
        ensures known { IfOk result (spec.Knows self.new) }
        ensures worth { let s = relation_operations self.old.system.semiring in IfOk result (λ r.
            spec.worth self.new r ≡ s.extend (spec.worth self.old a) (spec.worth self.old b)) }
    {
        self.nodes.composition(a, b)
    }

    // The union.
    fn united(&mut self, a: u32, b: u32) -> Result<u32, OutOfMemory>
        requires left { spec.Knows self.old a }
        requires right { spec.Knows self.old b }
        ensures grows { Grows (λ m. m.system) spec.Knows spec.worth self.old self.new }
        ensures known { IfOk result (spec.Knows self.new) }
        ensures worth { let s = relation_operations self.old.system.semiring in IfOk result (λ r.
            spec.worth self.new r ≡ s.combine (spec.worth self.old a) (spec.worth self.old b)) }
    {
        self.nodes.union(a, b)
    }

    // Whether two relations are equal.
    fn same(&self, a: u32, b: u32) -> bool
        requires left { spec.Knows self.now a }
        requires right { spec.Knows self.now b }
        ensures { IsTrue result ↔ (spec.worth self.now a ≡ spec.worth self.now b) }
    {
        self.nodes.is_same(a, b)
    }

    // The reference of a relation.
    fn loaded(&mut self, w: &Relation) -> Result<u32, OutOfMemory>
        requires { Fits (relation_operations self.old.system.semiring) w.now }
        ensures grows { Grows (λ m. m.system) spec.Knows spec.worth self.old self.new }
        ensures known { IfOk result (spec.Knows self.new) }
        ensures worth { IfOk result (λ r. spec.worth self.new r ≡ w.now) }
    {
        self.nodes.reference(self.alloc, w)
    }

    // The references by which a return map is applied.
    fn mapped(&mut self, map: &RelMap) -> Result<ReturnNodes, OutOfMemory>
        requires { FitsMap (relation_operations self.old.system.semiring) map.now }
        ensures grows { Grows (λ m. m.system) spec.Knows spec.worth self.old self.new }
        ensures by { IfOk result (IsReturnBy (nodes_of self.new) map.now) }
    {
        self.nodes.return_nodes(self.alloc, map)
    }

    // What a return map makes of a relation.
    fn returned_by(&mut self, by: ReturnNodes, a: u32) -> Result<u32, OutOfMemory>
        requires by { (map : RelMapValue) × IsReturnBy (nodes_of self.old) map by }
        requires relation { spec.Knows self.old a }
        ensures grows { Grows (λ m. m.system) spec.Knows spec.worth self.old self.new }
        ensures known { IfOk result (spec.Knows self.new) }
        ensures worth { let n = self.old.system.semiring in
            (map : RelMapValue) → IsReturnBy (nodes_of self.old) map by → IfOk result (λ r.
            spec.worth self.new r ≡ after_of n map (spec.worth self.old a)) }
    {
        self.nodes.returned(by, a)
    }

    // Keeps the reference of the weight of a rule.
    fn keep_weight(&mut self, known: RuleWeight) -> Result<(), OutOfMemory>
        requires { IsRuleWeight self.old known }
        ensures { self.new ≡ self.old }
    {
        self.weights.append(known, 0)?;
        Ok(())
    }

    // Keeps the references of the return map of a rule.
    fn keep_return(&mut self, known: RuleReturn) -> Result<(), OutOfMemory>
        requires { IsRuleReturn self.old known }
        ensures { self.new ≡ self.old }
    {
        self.returns.append(known, 0)?;
        Ok(())
    }

    // The reference of the weight of a rule, if it is known already.
    fn known_weight(&self, k: u32) -> Option<u32>
        ensures within { IfSome result (spec.Knows self.now) }
        ensures worth { (r : RuleValue ℕ Parts RelMapValue)
            → slice_get self.now.system.rules k ≡ Some r
            → IfSome result (λ w. spec.worth self.now w ≡ r.weight) }
    {
        let place = self.weights.find(k)?;
        let known = *self.weights.get(place as usize);
        if known.rule == k {
            Some(known.weight)
        } else {
            None
        }
    }

    // The references of the return map of a rule, if they are known already.
    fn known_return(&self, k: u32) -> Option<ReturnNodes>
        ensures some { IfSome result (λ by.
            (map : RelMapValue) × IsReturnBy (nodes_of self.now) map by) }
        ensures by { (r : RuleValue ℕ Parts RelMapValue) (map : RelMapValue)
            → slice_get self.now.system.rules k ≡ Some r → r.map ≡ Some map
            → IfSome result (IsReturnBy (nodes_of self.now) map) }
    {
        let place = self.returns.find(k)?;
        let known = *self.returns.get(place as usize);
        if known.rule == k {
            Some(known.by)
        } else {
            None
        }
    }

    // The reference of the weight of a rule.
    fn weight_of(&mut self, k: u32) -> Result<u32, OutOfMemory>
        requires { k < length self.old.system.rules }
        ensures grows { Grows (λ m. m.system) spec.Knows spec.worth self.old self.new }
        ensures known { IfOk result (spec.Knows self.new) }
        ensures worth { (r : RuleValue ℕ Parts RelMapValue)
            → slice_get self.old.system.rules k ≡ Some r
            → IfOk result (λ w. spec.worth self.new w ≡ r.weight) }
    {
        if let Some(weight) = self.known_weight(k) {
            return Ok(weight);
        }
        let system = self.system;
        let weight = self.loaded(&system.rule(k).weight)?;
        self.keep_weight(RuleWeight { rule: k, weight })?;
        Ok(weight)
    }

    // The references by which the return map of a rule is applied.
    fn return_of(&mut self, k: u32, map: &RelMap) -> Result<ReturnNodes, OutOfMemory>
        requires map { (r : RuleValue ℕ Parts RelMapValue)
            × (slice_get self.old.system.rules k ≡ Some r) × (r.map ≡ Some map.now) }
        requires fits { FitsMap (relation_operations self.old.system.semiring) map.now }
        ensures grows { Grows (λ m. m.system) spec.Knows spec.worth self.old self.new }
        ensures by { IfOk result (IsReturnBy (nodes_of self.new) map.now) }
    {
        if let Some(by) = self.known_return(k) {
            return Ok(by);
        }
        let by = self.mapped(map)?;
        self.keep_return(RuleReturn { rule: k, by })?;
        Ok(by)
    }
}

impl<'s> Weigher<Relations> for NodeWeigher<'s> {
    type W = u32;

    ghost pushdown = { λ m. m.system };

    ghost Knows = { spec.Knows };

    ghost worth = { spec.worth };

    fn one(&mut self) -> Result<u32, OutOfMemory> {
        Ok(self.nodes.identity())
    }

    fn copy(&mut self, a: &u32) -> Result<u32, OutOfMemory> {
        Ok(*a)
    }

    fn is_zero(&self, a: &u32) -> bool {
        self.nodes.is_empty(*a)
    }

    fn extend(&mut self, a: &u32, b: &u32) -> Result<u32, OutOfMemory> {
        self.composed(*a, *b)
    }

    fn rule(&mut self, k: u32) -> Result<u32, OutOfMemory> {
        self.weight_of(k)
    }

    fn rule_then(&mut self, k: u32, a: &u32) -> Result<u32, OutOfMemory> {
        let weight = self.weight_of(k)?;
        self.composed(weight, *a)
    }

    fn then_rule(&mut self, a: &u32, k: u32) -> Result<u32, OutOfMemory> {
        let weight = self.weight_of(k)?;
        self.composed(*a, weight)
    }

    fn returned(&mut self, k: u32, a: &u32) -> Result<u32, OutOfMemory> {
        let system = self.system;
        match &system.rule(k).map {
            Some(map) => {
                let by = self.return_of(k, map)?;
                self.returned_by(by, *a)
            }
            None => Ok(*a),
        }
    }

    fn lowered(&mut self, old: &u32, weight: &u32) -> Result<Option<u32>, OutOfMemory> {
        let sum = self.united(*old, *weight)?;
        if self.same(sum, *old) {
            return Ok(None);
        }
        Ok(Some(sum))
    }

    fn value(&self, a: &u32) -> Result<Relation, OutOfMemory> {
        self.nodes.relation(self.alloc, *a)
    }

    fn no_value(&self) -> Result<Relation, OutOfMemory> {
        self.system.semiring().zero(self.alloc)
    }

    fn is_full(&self) -> bool {
        self.nodes.references() > self.enough
    }

    fn renewed(&self) -> Result<NodeWeigher<'s>, OutOfMemory> {
        NodeWeigher::with_enough(self.alloc, self.system, self.enough)
    }

    fn known(&mut self, w: &Relation) -> Result<u32, OutOfMemory> {
        let made = self.loaded(w)?;
        self.enough = self.enough.max(self.nodes.references().saturating_mul(4));
        Ok(made)
    }

    ghost fits = { fits_known };
}
