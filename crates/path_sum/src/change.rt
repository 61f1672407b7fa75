ghost use Rattle.std.specs.Prelude.{◌≡◌, ◌<◌, None, Some, IfSome, OnOk, length};
ghost use Rattle.semiring_laws.specs.Semiring.{Fits};
ghost use Rattle.saturation_laws.specs.States.{apply};
ghost use Rattle.path_sum.specs.private.Growing.{given};
ghost use Rattle.saturation_laws.specs.Openings.{AreKept, found_so_far};

use saturation_core::{QueuedTransitions, changed_at, node_at};
use semiring_laws::Semiring;
use std::alloc::Global;
use weighted_automata::Place;
use witness_graph::{Node, Overlay};
use wpds_base::OutOfMemory;

/// Combines a weight into a place, whose runs get those of the first node, each followed by those of the second, if it is
/// there. The place is looked up once, and the weight that is there is not copied. On an error the arguments are left in an
/// unspecified state.
pub(crate) fn apply_parts<S: Semiring>(
    alloc: Global,
    semiring: &S,
    pairs: &mut QueuedTransitions<S>,
    nodes: &mut Overlay,
    place: Place,
    weight: &S::W,
    first: u64,
    second: Option<u64>,
) -> Result<(), OutOfMemory>
    requires kept { AreKept (S.operations semiring.now) pairs.old.transitions
        (length nodes.old.nodes) }
    requires weight { Fits (S.operations semiring.now) weight.now }
    requires first { first < length nodes.old.nodes }
    requires second { IfSome second (λ k. k < length nodes.old.nodes) }
    ensures state { OnOk result (
        found_so_far pairs.new.transitions nodes.new.nodes pairs.new.queue
        ≡ apply (S.operations semiring.now) (given place weight.now first second)
        (found_so_far pairs.old.transitions nodes.old.nodes pairs.old.queue)) }
    ensures kept { OnOk result (AreKept (S.operations semiring.now) pairs.new.transitions
        (length nodes.new.nodes)) }
    ensures graph { nodes.new.graph ≡ nodes.old.graph }
{
    let transitions = pairs.list();
    let at = transitions.find(place);
    let Some(new) = changed_at(alloc, semiring, transitions, at, weight)? else {
        return Ok(());
    };
    let node = Node::Lower {
        before: node_at(transitions, at),
        rule: None,
        first: Some(first),
        second,
    };
    let number = nodes.push_node(alloc, node)?;
    pairs.lower(alloc, place, at, new, number)?;
    Ok(())
}
