ghost use Rattle.std.specs.Prelude.{◌≡◌, ◌+◌, ◌<◌, ◌++◌, [], ◌∷◌, ℕ, Bool, Some, IfOk, OnOk, length, cond, nat_eq};
ghost use Rattle.diagram_store.specs.Diagrams.{IsOver, meaning};
ghost use Rattle.diagram_store.specs.Meaning.{value_at};
ghost use Rattle.diagram_store.specs.Nodes.{IsReduced, HasVariablesBelow};
ghost use Rattle.diagram_ops.specs.private.Copying.{IsCopy, Copies};
ghost use Rattle.diagram_ops.specs.private.TableCopying.{reference_of, copied_at};

use crate::node_table::NodeTable;
use diagram_store::{Branch, Diagram, independent_variables, one_reference};
use key_rows::{Keyed, KeyedList};
use std::alloc::Global;
use wpds_base::OutOfMemory;

/// A reference whose node is copied.
#[derive(Clone, Copy)]
pub(crate) struct Copied {
    pub(crate) reference: u32,
}

impl Keyed<u32> for Copied {
    ghost key_of = { reference_of };

    fn key(&self) -> u32 {
        self.reference
    }
}

// Nodes in canonical order, and the reference of each.
#[derive(Drop)]
struct TableCopy {
    nodes: Vec<Branch>,
    references: KeyedList<u32, Copied>,
}

// The place of a reference that is copied.
fn place_of(references: &KeyedList<u32, Copied>, reference: u32) -> Option<u64>
    ensures { result ≡ copied_at references.now.members reference }
{
    match references.find(reference) {
        Some(k) => Some(u64::from(k) + 2),
        None => None,
    }
}

// Copies what a reference reaches, low first, and returns its place.
fn copy_from(table: &NodeTable, copy: &mut TableCopy, reference: u32) -> Result<u64, OutOfMemory>
    requires reduced { IsReduced table.now }
    requires within { reference < length table.now + 2 }
    requires count { length copy.old.references.members ≡ length copy.old.nodes.items }
    requires copy { IsCopy table.now (copied_at copy.old.references.members) copy.old.nodes.items }
    ensures count { OnOk result
        (length copy.new.references.members ≡ length copy.new.nodes.items) }
    ensures copies { IfOk result (λ p. Copies table.now
        (copied_at copy.old.references.members) copy.old.nodes.items
        (copied_at copy.new.references.members) copy.new.nodes.items reference p) }
{
    // the law by which no node is copied twice
    one_reference();
    let Some(found) = table.found(reference) else {
        return Ok(u64::from(reference));
    };
    if let Some(place) = place_of(&copy.references, reference) {
        return Ok(place);
    }
    let low = copy_from(table, copy, found.low)?;
    let high = copy_from(table, copy, found.high)?;
    let var = found.var;
    let place = place_node(copy, reference, Branch { var, low, high })?;
    Ok(place)
}

// Adds the node of a reference, and returns its place.
fn place_node(copy: &mut TableCopy, reference: u32, node: Branch) -> Result<u64, OutOfMemory>
    requires count { length copy.old.references.members ≡ length copy.old.nodes.items }
    ensures count { OnOk result
        (length copy.new.references.members ≡ length copy.new.nodes.items) }
    ensures place { IfOk result (λ p. p ≡ length copy.old.nodes.items + 2) }
    ensures nodes { OnOk result (copy.new.nodes.items ≡ copy.old.nodes.items ++ node ∷ []) }
    ensures places { IfOk result (λ p. (k : ℕ) → copied_at copy.new.references.members k
        ≡ cond (nat_eq reference k) (Some p) (copied_at copy.old.references.members k)) }
{
    let place = copy.nodes.len() as u64 + 2;
    copy.references.append(Copied { reference }, 0)?;
    copy.nodes.push(node)?;
    Ok(place)
}

// The diagram with the meaning of a reference.
fn copy_out(alloc: Global, table: &NodeTable, root: u32) -> Result<Diagram, OutOfMemory>
    requires reduced { IsReduced table.now }
    requires root { root < length table.now + 2 }
    ensures { IfOk result (λ d. (bits : ℕ → Bool) → meaning d bits ≡ value_at table.now root bits) }
{
    let mut copy = TableCopy {
        nodes: Vec::new(alloc),
        references: KeyedList::new(alloc),
    };
    let place = copy_from(table, &mut copy, root)?;
    let made = Diagram::of_nodes(alloc, &copy.nodes, place)?;
    Ok(made)
}

impl NodeTable {
    /// The diagram with the meaning of a reference. It takes time and memory for the nodes that the reference reaches alone.
    pub fn diagram(&self, alloc: Global, r: u32) -> Result<Diagram, OutOfMemory>
        requires { r < length self.now + 2 }
        ensures value { IfOk result (λ d. (bits : ℕ → Bool) → meaning d bits
            ≡ value_at self.now r bits) }
        ensures variables { IfOk result (λ d. (limit : ℕ) → HasVariablesBelow limit self.now
            → IsOver limit d) }
    {
        // the law that gives the variables of the result
        independent_variables();
        self.valid();
        let made = copy_out(alloc, self, r)?;
        Ok(made)
    }
}
