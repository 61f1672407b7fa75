ghost use Rattle.std.specs.Prelude.{◌≡◌, ◌+◌, ◌<◌, [], ◌∷◌, ℕ, Bool, IfOk, length, slice_index_or};
ghost use Rattle.diagram_store.specs.Diagrams.{IsOver, meaning};
ghost use Rattle.diagram_store.specs.Meaning.{value_at};
ghost use Rattle.diagram_store.specs.Nodes.{IsReduced, HasVariablesBelow};
ghost use Rattle.diagram_ops.specs.NodeTables.{Keeps};
ghost use Rattle.diagram_ops.specs.private.Images.{IsImage, IsPlaceOf, IsValue};

use crate::node_table::NodeTable;
use diagram_store::{Branch, Diagram};
use std::alloc::Global;
use wpds_base::OutOfMemory;

// The places of the constants, with room for those of these nodes.
fn first_places(alloc: Global, nodes: &[Branch]) -> Result<Vec<u32>, OutOfMemory>
    ensures { IfOk result (λ p. p.items ≡ 0 ∷ 1 ∷ []) }
{
    let mut places = Vec::with_capacity(alloc, nodes.len() + 2)?;
    places.push(0)?;
    places.push(1)?;
    Ok(places)
}

// The place of a reference.
fn place_at(places: &[u32], reference: u64) -> u32
    requires { reference < length places.now }
    ensures { result ≡ slice_index_or places.now reference 0 }
{
    places[reference as usize]
}

// The place of a node, after those of its branches.
fn load_node(
    table: &mut NodeTable,
    nodes: &[Branch],
    places: &[u32],
    k: usize,
) -> Result<u32, OutOfMemory>
    requires nodes { IsReduced nodes.now }
    requires k { k < length nodes.now }
    requires places { length places.now ≡ k + 2 }
    requires image { IsImage nodes.now (IsValue nodes.now) table.old places.now }
    ensures reduced { IsReduced table.new }
    ensures keeps { Keeps table.old table.new }
    ensures limits { (limit : ℕ) → HasVariablesBelow limit table.old
        → HasVariablesBelow limit nodes.now → HasVariablesBelow limit table.new }
    ensures stands { IfOk result (λ p.
        IsPlaceOf table.new p (IsValue nodes.now) nodes.now (k + 2)) }
{
    let node = nodes[k];
    let low = place_at(places, node.low);
    let high = place_at(places, node.high);
    let place = table.branch(node.var, low, high)?;
    Ok(place)
}

// Adds the nodes of a diagram, and returns the place of its root.
fn load(alloc: Global, table: &mut NodeTable, diagram: &Diagram) -> Result<u32, OutOfMemory>
    requires { IsReduced table.old }
    ensures keeps { Keeps table.old table.new }
    ensures limits { (limit : ℕ) → HasVariablesBelow limit table.old
        → IsOver limit diagram.now → HasVariablesBelow limit table.new }
    ensures stands { IfOk result (λ p.
        IsPlaceOf table.new p (IsValue diagram.now.nodes) diagram.now.nodes diagram.now.root) }
{
    let nodes = diagram.nodes();
    let mut places = first_places(alloc, nodes)?;
    for k in 0..nodes.len() {
        let place = load_node(table, nodes, &places, k)?;
        places.push(place)?;
    }
    Ok(place_at(&places, diagram.root))
}

impl NodeTable {
    /// The reference with the meaning of a diagram, whose nodes are added where they are not there yet.
    pub fn load(&mut self, alloc: Global, d: &Diagram) -> Result<u32, OutOfMemory>
        ensures keeps { Keeps self.old self.new }
        ensures limits { (limit : ℕ) → HasVariablesBelow limit self.old
            → IsOver limit d.now → HasVariablesBelow limit self.new }
        ensures within { IfOk result (λ r. r < length self.new + 2) }
        ensures value { IfOk result (λ r. (bits : ℕ → Bool) → value_at self.new r bits
            ≡ meaning d.now bits) }
    {
        self.valid();
        let place = load(alloc, self, d)?;
        Ok(place)
    }
}
