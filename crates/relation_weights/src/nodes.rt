//! Relations as references into one table of nodes, which stays as long as they are in use.

ghost use Rattle.std.specs.Prelude.{◌≡◌, ◌↔◌, ◌≤◌, ◌+◌, ◌*◌, ◌&&◌, ◌||◌, ℕ, Bool, List, IsTrue, IfOk, length};
ghost use Rattle.wpds_base.specs.Limits.{most_related};
ghost use Rattle.diagram_store.specs.Diagrams.{IsOver};
ghost use Rattle.diagram_ops.specs.NodeTables.{leads_at, LeadsThrough};
ghost use Rattle.diagram_ops.specs.Relations.{relates};
ghost use Rattle.semiring_laws.specs.Semiring.{Fits, FitsMap};
ghost use Rattle.relation_weights.specs.Relations.{after_of, relation_operations};
ghost use Rattle.relation_weights.specs.RelationNodes.{AreRelations, HasMore, HasReturnParts, IsReference, IsReturnBy, relation_at};
ghost use Rattle.relation_weights.specs.private.KeptNodes.{AreKept};
ghost use Rattle.relation_weights.specs.declared.rel_map.RelMap.{RelMap as RelMapValue};
ghost use Rattle.relation_weights.specs.declared.rel_map.Slot.{Slot as SlotValue};
ghost use Rattle.relation_weights.specs.declared.rel_map.RelMap.TheVariants.{Slots};

use crate::frames::frame;
use crate::returns::{moves, others_than_own, stays};
use crate::{RelMap, Relation, Slot};
use diagram_ops::NodeTable;
use diagram_store::Diagram;
use std::alloc::Global;
use std::marker::Model;
use wpds_base::OutOfMemory;

/// A return map, by references into one table.
#[derive(Clone, Copy, Debug, PartialEq, Eq)]
pub enum ReturnNodes {
    /// It leaves each relation as it is.
    Same,
    /// Each relation is composed with the moves of the callee's bits, and then the caller's bits stay.
    Both { moves: u32, stays: u32 },
}

/// Relations between states of so many bits, as references into one table of nodes, which stays (Bryant 1986). Two references are one
/// exactly where their relations are, and what an operation makes is kept for when it comes again.
///
/// Contracts see the number of bits and the nodes.
#[derive(Drop)]
pub struct RelationNodes {
    n: u32,
    table: NodeTable,
    // The identity.
    identity: u32,
}

impl Model for RelationNodes {
    ghost use Rattle.relation_weights.specs.RelationNodes.{NodesOf};
    ghost use Rattle.relation_weights.specs.private.KeptNodes.{AreKept};

    ghost Value = { NodesOf };

    ghost view = { λ r. record { bits = r.n; nodes = r.table } };

    ghost invariant = { λ r. AreKept (record { bits = r.n; nodes = r.table }) r.identity };
}

// The table of the identity alone, and its reference.
fn first_table(alloc: Global, n: u32) -> Result<(NodeTable, u32), OutOfMemory>
    requires { n ≤ most_related }
    ensures { IfOk result (λ t. AreKept (record { bits = n; nodes = t.0 }) t.1) }
{
    let mut table = NodeTable::new(alloc);
    let diagram = frame(alloc, n, &[])?;
    let identity = table.load(alloc, &diagram)?;
    table.valid();
    Ok((table, identity))
}

impl RelationNodes {
    /// The relations between states of `n` bits.
    pub fn new(alloc: Global, n: u32) -> Result<RelationNodes, OutOfMemory>
        requires { n ≤ most_related }
        ensures { IfOk result (λ r. r.bits ≡ n) }
    {
        let (table, identity) = first_table(alloc, n)?;
        Ok(RelationNodes { n, table, identity })
    }

    /// How many bits a state has.
    pub fn bits(&self) -> u32
        ensures bits { result ≡ self.now.bits }
        ensures valid { AreRelations self.now }
    {
        self.table.valid();
        self.n
    }

    /// How many references there are.
    pub fn references(&self) -> usize
        ensures { result ≡ length self.now.nodes + 2 }
    {
        self.table.references()
    }

    /// The identity.
    pub fn identity(&self) -> u32
        ensures within { IsReference self.now result }
        ensures value { let s = relation_operations self.now.bits in
            relation_at self.now result ≡ s.one }
    {
        self.table.valid();
        self.identity
    }

    /// Whether there is no pair.
    pub fn is_empty(&self, a: u32) -> bool
        requires { IsReference self.now a }
        ensures { let s = relation_operations self.now.bits in
            IsTrue result ↔ (relation_at self.now a ≡ s.zero) }
    {
        self.table.valid();
        a == 0
    }

    /// Whether two relations are equal.
    pub fn is_same(&self, a: u32, b: u32) -> bool
        requires left { IsReference self.now a }
        requires right { IsReference self.now b }
        ensures { IsTrue result ↔ (relation_at self.now a ≡ relation_at self.now b) }
    {
        self.table.valid();
        a == b
    }

    // The union, as its reference leads.
    fn united(&mut self, a: u32, b: u32) -> Result<u32, OutOfMemory>
        requires left { IsReference self.old a }
        requires right { IsReference self.old b }
        ensures more { HasMore self.old self.new }
        ensures within { IfOk result (IsReference self.new) }
        ensures leads { let nodes = self.new.nodes in IfOk result (λ r. (x y : ℕ → Bool) →
            leads_at nodes r x y ≡ (leads_at nodes a x y || leads_at nodes b x y)) }
    {
        self.table.valid();
        let made = self.table.union(a, b);
        self.table.valid();
        made
    }

    // The intersection, as its reference leads.
    fn met(&mut self, a: u32, b: u32) -> Result<u32, OutOfMemory>
        requires left { IsReference self.old a }
        requires right { IsReference self.old b }
        ensures more { HasMore self.old self.new }
        ensures within { IfOk result (IsReference self.new) }
        ensures leads { let nodes = self.new.nodes in IfOk result (λ r. (x y : ℕ → Bool) →
            leads_at nodes r x y ≡ (leads_at nodes a x y && leads_at nodes b x y)) }
    {
        self.table.valid();
        let made = self.table.intersection(a, b);
        self.table.valid();
        made
    }

    // The composition, as its reference leads.
    fn composed(&mut self, a: u32, b: u32) -> Result<u32, OutOfMemory>
        requires left { IsReference self.old a }
        requires right { IsReference self.old b }
        ensures more { HasMore self.old self.new }
        ensures within { IfOk result (IsReference self.new) }
        ensures leads { let nodes = self.new.nodes in IfOk result (λ r. (x z : ℕ → Bool) →
            IsTrue (leads_at nodes r x z) ↔ LeadsThrough nodes a b x z) }
    {
        self.table.valid();
        let made = self.table.composition(a, b);
        self.table.valid();
        made
    }

    /// The union.
    pub fn union(&mut self, a: u32, b: u32) -> Result<u32, OutOfMemory>
        requires left { IsReference self.old a }
        requires right { IsReference self.old b }
        ensures more { HasMore self.old self.new }
        ensures within { IfOk result (IsReference self.new) }
        ensures value { let s = relation_operations self.old.bits in IfOk result (λ r.
            relation_at self.new r ≡ s.combine (relation_at self.old a) (relation_at self.old b)) }
    {
        let made = self.united(a, b);
        let _bits = self.bits();
        made
    }

    /// The composition, the first relation first.
    pub fn composition(&mut self, a: u32, b: u32) -> Result<u32, OutOfMemory>
        requires left { IsReference self.old a }
        requires right { IsReference self.old b }
        ensures more { HasMore self.old self.new }
        ensures within { IfOk result (IsReference self.new) }
        ensures value { let s = relation_operations self.old.bits in IfOk result (λ r.
            relation_at self.new r ≡ s.extend (relation_at self.old a) (relation_at self.old b)) }
    {
        if a == self.identity() {
            return Ok(b);
        }
        if b == self.identity() {
            return Ok(a);
        }
        let made = self.composed(a, b);
        let _bits = self.bits();
        made
    }

    // What is returned by the parts of a return map.
    fn moved(&mut self, moves: u32, stays: u32, a: u32) -> Result<u32, OutOfMemory>
        requires parts { (slots : List SlotValue) × HasReturnParts self.old slots moves stays }
        requires relation { IsReference self.old a }
        ensures more { HasMore self.old self.new }
        ensures within { IfOk result (IsReference self.new) }
        ensures value { (slots : List SlotValue) → FitsMap (relation_operations self.old.bits)
            (Slots slots) → HasReturnParts self.old slots moves stays → IfOk result (λ r.
            relation_at self.new r
            ≡ after_of self.old.bits (Slots slots) (relation_at self.old a)) }
    {
        let _bits = self.bits();
        let led = self.composed(a, moves)?;
        self.met(led, stays)
    }

    /// What a return map makes of a relation.
    pub fn returned(&mut self, by: ReturnNodes, a: u32) -> Result<u32, OutOfMemory>
        requires by { (map : RelMapValue) × IsReturnBy self.old map by }
        requires relation { IsReference self.old a }
        ensures more { HasMore self.old self.new }
        ensures within { IfOk result (IsReference self.new) }
        ensures value { (map : RelMapValue) → IsReturnBy self.old map by → IfOk result (λ r.
            relation_at self.new r ≡ after_of self.old.bits map (relation_at self.old a)) }
    {
        let _bits = self.bits();
        match by {
            ReturnNodes::Same => Ok(a),
            ReturnNodes::Both { moves, stays } => self.moved(moves, stays, a),
        }
    }

    /// The references by which a return map is applied.
    pub fn return_nodes(&mut self, alloc: Global, map: &RelMap) -> Result<ReturnNodes, OutOfMemory>
        requires { FitsMap (relation_operations self.old.bits) map.now }
        ensures more { HasMore self.old self.new }
        ensures by { IfOk result (IsReturnBy self.new map.now) }
    {
        match map {
            RelMap::Plain => Ok(ReturnNodes::Same),
            RelMap::Slots(slots) => self.nodes_of_slots(alloc, slots),
        }
    }

    // The same, by the slots of a map.
    fn nodes_of_slots(
        &mut self,
        alloc: Global,
        slots: &[Slot; 24],
    ) -> Result<ReturnNodes, OutOfMemory>
        requires { FitsMap (relation_operations self.old.bits) (Slots slots.now) }
        ensures more { HasMore self.old self.new }
        ensures by { IfOk result (IsReturnBy self.new (Slots slots.now)) }
    {
        let n = self.bits();
        let freed = others_than_own(alloc, n, slots)?;
        if freed.is_empty() {
            return Ok(ReturnNodes::Same);
        }
        let moves = moves(alloc, n, slots, &freed)?;
        let stays = stays(alloc, n, slots)?;
        let moves = self.load(alloc, &moves)?;
        let stays = self.load(alloc, &stays)?;
        Ok(ReturnNodes::Both { moves, stays })
    }

    // The reference of a diagram over the bits of states.
    fn load(&mut self, alloc: Global, diagram: &Diagram) -> Result<u32, OutOfMemory>
        requires { IsOver (2 * self.old.bits) diagram.now }
        ensures more { HasMore self.old self.new }
        ensures within { IfOk result (IsReference self.new) }
        ensures leads { IfOk result (λ r. (x y : ℕ → Bool) →
            leads_at self.new.nodes r x y ≡ relates diagram.now x y) }
    {
        self.table.valid();
        let made = self.table.load(alloc, diagram);
        self.table.valid();
        made
    }

    /// The reference of a relation.
    pub fn reference(&mut self, alloc: Global, w: &Relation) -> Result<u32, OutOfMemory>
        requires { Fits (relation_operations self.old.bits) w.now }
        ensures more { HasMore self.old self.new }
        ensures within { IfOk result (IsReference self.new) }
        ensures value { IfOk result (λ r. relation_at self.new r ≡ w.now) }
    {
        self.load(alloc, w.diagram())
    }

    /// The relation of a reference.
    pub fn relation(&self, alloc: Global, a: u32) -> Result<Relation, OutOfMemory>
        requires { IsReference self.now a }
        ensures { IfOk result (λ w. w ≡ relation_at self.now a) }
    {
        let made = self.table.diagram(alloc, a)?;
        Relation::new(alloc, made)
    }
}
