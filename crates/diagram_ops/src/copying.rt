ghost use Rattle.std.specs.Prelude.{◌≡◌, ◌+◌, ◌<◌, ◌++◌, [], ◌∷◌, ℕ, Bool, Some, IfOk, OnOk, length, cond, nat_eq};
ghost use Rattle.diagram_store.specs.Diagrams.{meaning};
ghost use Rattle.diagram_store.specs.Meaning.{value_at};
ghost use Rattle.diagram_ops.specs.private.Copying.{IsCopy, Copies};
ghost use Rattle.diagram_ops.specs.private.Places.{placed};

use crate::places::Places;
use crate::scratch::Scratch;
use bumpalo::Bump;
use diagram_store::{Branch, Diagram, one_reference};
use std::alloc::Global;
use wpds_base::OutOfMemory;

// Nodes in canonical order, in an arena, and the place of each scratch reference that has one.
#[derive(Drop)]
struct Copy<'a> {
    nodes: Vec<Branch, &'a Bump>,
    places: Places,
}

/// The diagram with the meaning of a scratch reference. Its nodes are gathered in the arena, and take no more room than they
/// need in the diagram.
pub(crate) fn copy_out(
    alloc: Global,
    arena: &Bump,
    scratch: &Scratch,
    root: u64,
) -> Result<Diagram, OutOfMemory>
    requires { root < length scratch.now + 2 }
    ensures { IfOk result (λ d. (bits : ℕ → Bool) → meaning d bits
        ≡ value_at scratch.now root bits) }
{
    let mut copy = Copy {
        nodes: Vec::new(arena),
        places: Places::new(alloc, scratch.references())?,
    };
    let place = copy_from(scratch, &mut copy, root)?;
    let made = Diagram::of_nodes(alloc, &copy.nodes, place)?;
    Ok(made)
}

// Copies what a reference reaches, low first, and returns its place.
fn copy_from(scratch: &Scratch, copy: &mut Copy, reference: u64) -> Result<u64, OutOfMemory>
    requires within { reference < length scratch.now + 2 }
    requires room { length copy.old.places ≡ length scratch.now + 2 }
    requires copy { IsCopy scratch.now (placed copy.old.places) copy.old.nodes.items }
    ensures room { length copy.new.places ≡ length copy.old.places }
    ensures copies { IfOk result (λ p. Copies scratch.now
        (placed copy.old.places) copy.old.nodes.items
        (placed copy.new.places) copy.new.nodes.items reference p) }
{
    // the law by which no node is copied twice
    one_reference();
    if let Some(place) = copy.places.get(reference) {
        return Ok(place);
    }
    match scratch.node(reference) {
        None => Ok(reference),
        Some(found) => {
            let low = copy_from(scratch, copy, found.low)?;
            let high = copy_from(scratch, copy, found.high)?;
            let var = found.var;
            let place = place_node(copy, reference, Branch { var, low, high })?;
            Ok(place)
        }
    }
}

// Adds the node of a reference, and returns its place.
fn place_node(copy: &mut Copy, reference: u64, node: Branch) -> Result<u64, OutOfMemory>
    requires { reference < length copy.old.places }
    ensures room { length copy.new.places ≡ length copy.old.places }
    ensures place { IfOk result (λ p. p ≡ length copy.old.nodes.items + 2) }
    ensures nodes { OnOk result (copy.new.nodes.items ≡ copy.old.nodes.items ++ node ∷ []) }
    ensures places { IfOk result (λ p. (k : ℕ) → placed copy.new.places k
        ≡ cond (nat_eq reference k) (Some p) (placed copy.old.places k)) }
{
    let place = copy.nodes.len() as u64 + 2;
    copy.nodes.push(node)?;
    copy.places.put(reference, place);
    Ok(place)
}
