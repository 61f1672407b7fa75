ghost use Rattle.std.specs.Prelude.{◌≡◌, ◌+◌, ◌<◌, ℕ, Bool, IfOk, length};
ghost use Rattle.diagram_store.specs.Diagrams.{IsOver, meaning};
ghost use Rattle.diagram_store.specs.Meaning.{set_bit};
ghost use Rattle.diagram_store.specs.Nodes.{IsReduced};
ghost use Rattle.diagram_ops.specs.private.Images.{IsImage, IsPlaceOf, IsRestricted};
ghost use Rattle.diagram_ops.specs.private.Scratch.{Keeps};

use crate::copying::copy_out;
use crate::loading::{first_places, place_at};
use crate::scratch::Scratch;
use bumpalo::Bump;
use diagram_store::{Branch, Diagram, independent_variables};
use std::alloc::Global;
use wpds_base::OutOfMemory;

/// The diagram whose value on all bits is that of `a` on the bits with `var` set to `value`.
pub fn restrict(alloc: Global, a: &Diagram, var: u32, value: bool) -> Result<Diagram, OutOfMemory>
    ensures value { IfOk result (λ d. (bits : ℕ → Bool) → meaning d bits
        ≡ meaning a.now (set_bit bits var value)) }
    ensures variables { IfOk result (λ d. (limit : ℕ) → IsOver limit a.now → IsOver limit d) }
{
    // the law that gives the variables of the result
    independent_variables();
    let arena = Bump::new(alloc);
    let mut scratch = Scratch::new(alloc, &arena);
    let root = load_restricted(alloc, &mut scratch, a, var, value)?;
    let made = copy_out(alloc, &arena, &scratch, root)?;
    Ok(made)
}

// Adds the nodes of a diagram with a bit set, and returns the place of its root.
fn load_restricted(
    alloc: Global,
    scratch: &mut Scratch,
    diagram: &Diagram,
    var: u32,
    value: bool,
) -> Result<u64, OutOfMemory>
    requires { IsReduced scratch.old }
    ensures reduced { IfOk result (λ _. IsReduced scratch.new) }
    ensures keeps { IfOk result (λ _. Keeps scratch.old scratch.new) }
    ensures stands { IfOk result (λ p. IsPlaceOf scratch.new p
        (IsRestricted diagram.now.nodes var value) diagram.now.nodes diagram.now.root) }
{
    let nodes = diagram.nodes();
    let mut places = first_places(alloc, nodes)?;
    for k in 0..nodes.len() {
        let place = restrict_node(scratch, nodes, &places, k, var, value)?;
        places.push(place)?;
    }
    Ok(place_at(&places, diagram.root))
}

// The place of a node, after those of its branches.
fn restrict_node(
    scratch: &mut Scratch,
    nodes: &[Branch],
    places: &[u64],
    k: usize,
    var: u32,
    value: bool,
) -> Result<u64, OutOfMemory>
    requires nodes { IsReduced nodes.now }
    requires k { k < length nodes.now }
    requires places { length places.now ≡ k + 2 }
    requires image { IsImage nodes.now (IsRestricted nodes.now var value) scratch.old places.now }
    ensures reduced { IfOk result (λ _. IsReduced scratch.new) }
    ensures keeps { IfOk result (λ _. Keeps scratch.old scratch.new) }
    ensures stands { IfOk result (λ p.
        IsPlaceOf scratch.new p (IsRestricted nodes.now var value) nodes.now (k + 2)) }
{
    let node = nodes[k];
    let low = place_at(places, node.low);
    let high = place_at(places, node.high);
    if node.var == var {
        if value {
            return Ok(high);
        }
        return Ok(low);
    }
    let place = scratch.branch(node.var, low, high)?;
    Ok(place)
}
