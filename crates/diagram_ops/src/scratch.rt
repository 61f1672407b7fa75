ghost use Rattle.std.specs.Prelude.{◌≡◌, ◌+◌, ◌<◌, ◌^◌, ◌++◌, ℕ, [], ◌∷◌, Some, IfOk, OnOk, length};
ghost use Rattle.diagram_store.specs.Nodes.{node_at, IsAbove, IsReduced, HasVariablesBelow};
ghost use Rattle.diagram_ops.specs.private.Scratch.{Keeps, Stands, IsChoice, IsNext};

use bumpalo::Bump;
use diagram_store::{Branch, TripleTable, node};
use std::alloc::Global;
use std::marker::Model;
use wpds_base::OutOfMemory;

/// Reduced nodes in an arena, and a table that finds each by its parts.
#[derive(Drop)]
pub(crate) struct Scratch<'a> {
    nodes: Vec<Branch, &'a Bump>,
    places: TripleTable,
}

impl<'a> Model for Scratch<'a> {
    ghost use Rattle.std.specs.Prelude.{List};
    ghost use Rattle.diagram_store.specs.declared.branch.Branch.{Branch as BranchValue};
    ghost use Rattle.diagram_ops.specs.private.Scratch.{IsScratch};
    ghost use Rattle.diagram_store.specs.TripleTables.{known};

    ghost Value = { List BranchValue };

    ghost view = { λ s. s.nodes.items };

    ghost invariant = { λ s. IsScratch (known s.places) s.nodes.items };
}

impl<'a> Scratch<'a> {
    /// No nodes yet. The nodes lie in the arena.
    pub(crate) fn new(alloc: Global, arena: &'a Bump) -> Scratch<'a>
        ensures empty { result ≡ [] }
        ensures reduced { IsReduced result }
    {
        Scratch {
            nodes: Vec::new(arena),
            places: TripleTable::new(alloc),
        }
    }

    /// No nodes yet, with room for so many. The nodes lie in the arena.
    pub(crate) fn with_room(
        alloc: Global,
        arena: &'a Bump,
        room: usize,
    ) -> Result<Scratch<'a>, OutOfMemory>
        ensures empty { IfOk result (λ s. s ≡ []) }
        ensures reduced { IfOk result (λ s. IsReduced s) }
    {
        let nodes = Vec::with_capacity(arena, room)?;
        let places = TripleTable::with_room(alloc, room)?;
        Ok(Scratch { nodes, places })
    }

    /// The nodes of a diagram, with room for so many. They lie in the arena, and keep their references.
    pub(crate) fn of_nodes(
        alloc: Global,
        arena: &'a Bump,
        room: usize,
        nodes: &[Branch],
    ) -> Result<Scratch<'a>, OutOfMemory>
        requires { IsReduced nodes.now }
        ensures { IfOk result (λ s. s ≡ nodes.now) }
    {
        let mut scratch = Scratch::with_room(alloc, arena, room)?;
        for k in 0..nodes.len() {
            scratch.add(nodes[k])?;
        }
        Ok(scratch)
    }

    // Adds a node that is not there, without looking for it.
    fn add(&mut self, node: Branch) -> Result<(), OutOfMemory>
        requires { IsNext self.old node }
        ensures { OnOk result (self.new ≡ self.old ++ node ∷ []) }
    {
        let reference = self.nodes.len() as u64 + 2;
        self.nodes.reserve(1)?;
        self.places
            .insert(u64::from(node.var), node.low, node.high, reference)?;
        self.nodes.push(node)?;
        Ok(())
    }

    /// How many references there are: one for each constant, and one for each node.
    pub(crate) fn references(&self) -> usize
        ensures { result ≡ length self.now + 2 }
    {
        self.nodes.len() + 2
    }

    /// The node that a reference names.
    pub(crate) fn node(&self, reference: u64) -> Option<Branch>
        ensures found { result ≡ node_at self.now reference }
        ensures reduced { IsReduced self.now }
    {
        node(&self.nodes, reference)
    }

    /// The choice by a variable that comes before those of both branches.
    pub(crate) fn branch(&mut self, var: u32, low: u64, high: u64) -> Result<u64, OutOfMemory>
        requires low { low < length self.old + 2 }
        requires high { high < length self.old + 2 }
        requires low_above { IsAbove self.old var low }
        requires high_above { IsAbove self.old var high }
        ensures reduced { IsReduced self.new }
        ensures keeps { Keeps self.old self.new }
        ensures stands { IfOk result (λ r.
            Stands self.new r (IsChoice self.new var low high) (λ v. v < var)) }
    {
        let reference = self.nodes.len() as u64 + 2;
        if low == high {
            return Ok(low);
        }
        if let Some(known) = self.places.get(u64::from(var), low, high) {
            return Ok(known);
        }
        self.nodes.reserve(1)?;
        self.places.insert(u64::from(var), low, high, reference)?;
        self.nodes.push(Branch { var, low, high })?;
        Ok(reference)
    }
}
