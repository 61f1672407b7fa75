ghost use Rattle.std.specs.Prelude.{◌≡◌, ◌+◌, ◌<◌, [], ◌∷◌, ℕ, IfOk, length, slice_index_or};
ghost use Rattle.diagram_store.specs.Nodes.{IsReduced};
ghost use Rattle.diagram_ops.specs.private.Images.{IsImage, IsPlaceOf, IsValue};
ghost use Rattle.diagram_ops.specs.private.Scratch.{Keeps};

use crate::scratch::Scratch;
use diagram_store::{Branch, Diagram};
use std::alloc::Global;
use wpds_base::OutOfMemory;

/// The places of the constants, with room for those of these nodes.
pub(crate) fn first_places(alloc: Global, nodes: &[Branch]) -> Result<Vec<u64>, OutOfMemory>
    ensures { IfOk result (λ p. p.items ≡ 0 ∷ 1 ∷ []) }
{
    let mut places = Vec::with_capacity(alloc, nodes.len() + 2)?;
    places.push(0)?;
    places.push(1)?;
    Ok(places)
}

/// Adds the nodes of a diagram, and returns the place of its root.
pub(crate) fn load(
    alloc: Global,
    scratch: &mut Scratch,
    diagram: &Diagram,
) -> Result<u64, OutOfMemory>
    requires { IsReduced scratch.old }
    ensures reduced { IfOk result (λ _. IsReduced scratch.new) }
    ensures keeps { IfOk result (λ _. Keeps scratch.old scratch.new) }
    ensures stands { IfOk result (λ p.
        IsPlaceOf scratch.new p (IsValue diagram.now.nodes) diagram.now.nodes diagram.now.root) }
{
    let nodes = diagram.nodes();
    let mut places = first_places(alloc, nodes)?;
    for k in 0..nodes.len() {
        let place = load_node(scratch, nodes, &places, k)?;
        places.push(place)?;
    }
    Ok(place_at(&places, diagram.root))
}

// The place of a node, after those of its branches.
fn load_node(
    scratch: &mut Scratch,
    nodes: &[Branch],
    places: &[u64],
    k: usize,
) -> Result<u64, OutOfMemory>
    requires nodes { IsReduced nodes.now }
    requires k { k < length nodes.now }
    requires places { length places.now ≡ k + 2 }
    requires image { IsImage nodes.now (IsValue nodes.now) scratch.old places.now }
    ensures reduced { IfOk result (λ _. IsReduced scratch.new) }
    ensures keeps { IfOk result (λ _. Keeps scratch.old scratch.new) }
    ensures stands { IfOk result (λ p.
        IsPlaceOf scratch.new p (IsValue nodes.now) nodes.now (k + 2)) }
{
    let node = nodes[k];
    let low = place_at(places, node.low);
    let high = place_at(places, node.high);
    let place = scratch.branch(node.var, low, high)?;
    Ok(place)
}

/// The place of a reference.
pub(crate) fn place_at(places: &[u64], reference: u64) -> u64
    requires { reference < length places.now }
    ensures { result ≡ slice_index_or places.now reference 0 }
{
    places[reference as usize]
}
