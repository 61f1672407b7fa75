ghost use Rattle.std.specs.Prelude.{◌≡◌, ◌↔◌, ◌+◌, ◌<◌, ℕ, Bool, IsTrue, IfOk, length};
ghost use Rattle.diagram_store.specs.Diagrams.{IsOver, meaning};
ghost use Rattle.diagram_store.specs.Nodes.{IsReduced};
ghost use Rattle.diagram_ops.specs.Quantifying.{IsTrueOnSome};
ghost use Rattle.diagram_ops.specs.private.Applying.{AreApplied};
ghost use Rattle.diagram_ops.specs.private.Images.{IsImage, IsPlaceOf, IsQuantified};
ghost use Rattle.diagram_ops.specs.private.Scratch.{Keeps};
ghost use Rattle.diagram_store.specs.TripleTables.{known};

use crate::applying::{OR, apply};
use crate::copying::copy_out;
use crate::loading::{first_places, place_at};
use crate::scratch::Scratch;
use bumpalo::Bump;
use diagram_store::{Branch, Diagram, TripleTable, independent_variables};
use std::alloc::Global;
use wpds_base::OutOfMemory;

/// The diagram that is true on exactly those bits for which `a` is true on some bits that differ from them
/// in `vars` at most.
///
/// It is one pass: a node of a variable of `vars` becomes the disjunction of its branches.
pub fn exists(alloc: Global, a: &Diagram, vars: &[u32]) -> Result<Diagram, OutOfMemory>
    ensures value { IfOk result (λ d. (bits : ℕ → Bool) → IsTrue (meaning d bits)
        ↔ IsTrueOnSome a.now vars.now bits) }
    ensures variables { IfOk result (λ d. (limit : ℕ) → IsOver limit a.now → IsOver limit d) }
{
    // the law that gives the variables of the result
    independent_variables();
    let arena = Bump::new(alloc);
    let mut scratch = Scratch::new(alloc, &arena);
    let root = load_quantified(alloc, &mut scratch, a, vars)?;
    let made = copy_out(alloc, &arena, &scratch, root)?;
    Ok(made)
}

// Adds the nodes of a diagram with the variables quantified, and returns the place of its root.
fn load_quantified(
    alloc: Global,
    scratch: &mut Scratch,
    diagram: &Diagram,
    vars: &[u32],
) -> Result<u64, OutOfMemory>
    requires { IsReduced scratch.old }
    ensures reduced { IfOk result (λ _. IsReduced scratch.new) }
    ensures keeps { IfOk result (λ _. Keeps scratch.old scratch.new) }
    ensures stands { IfOk result (λ p. IsPlaceOf scratch.new p
        (IsQuantified diagram.now.nodes vars.now) diagram.now.nodes diagram.now.root) }
{
    let nodes = diagram.nodes();
    let mut places = first_places(alloc, nodes)?;
    let mut results = TripleTable::new(alloc);
    for k in 0..nodes.len() {
        let place = quantify_node(scratch, &mut results, nodes, &places, k, vars)?;
        places.push(place)?;
    }
    Ok(place_at(&places, diagram.root))
}

// The place of a node, after those of its branches.
fn quantify_node(
    scratch: &mut Scratch,
    results: &mut TripleTable,
    nodes: &[Branch],
    places: &[u64],
    k: usize,
    vars: &[u32],
) -> Result<u64, OutOfMemory>
    requires nodes { IsReduced nodes.now }
    requires k { k < length nodes.now }
    requires places { length places.now ≡ k + 2 }
    requires image { IsImage nodes.now (IsQuantified nodes.now vars.now) scratch.old places.now }
    requires results { AreApplied 252 scratch.old (known results.old) }
    ensures results { IfOk result (λ _. AreApplied 252 scratch.new (known results.new)) }
    ensures reduced { IfOk result (λ _. IsReduced scratch.new) }
    ensures keeps { IfOk result (λ _. Keeps scratch.old scratch.new) }
    ensures stands { IfOk result (λ p.
        IsPlaceOf scratch.new p (IsQuantified nodes.now vars.now) nodes.now (k + 2)) }
{
    let node = nodes[k];
    let low = place_at(places, node.low);
    let high = place_at(places, node.high);
    if vars.contains(&node.var) {
        let joined = apply(scratch, results, OR, low, high, 0)?;
        return Ok(joined);
    }
    let place = scratch.branch(node.var, low, high)?;
    Ok(place)
}
