ghost use Rattle.std.specs.Prelude.{◌≡◌, ◌↔◌, ◌*◌, ℕ, IsTrue, IfOk};
ghost use Rattle.diagram_store.specs.Diagrams.{IsOver};
ghost use Rattle.relation_laws.specs.Relations.{Pairs, relation_of, no_pairs};
ghost use Rattle.relation_weights.specs.private.Diagrams.{HasPairs};

use crate::results::mixed;
use diagram_store::Diagram;
use std::alloc::Global;
use std::marker::Model;
use std::sync::Arc;
use wpds_base::OutOfMemory;

/// A set of pairs of an old and a new state, as the canonical diagram over their bits: variable `2 i` is the old value of
/// number `i`, and `2 i + 1` the new one. All copies share the diagram, so that a copy is one more count.
///
/// Contracts see its root and its nodes.
#[derive(Drop)]
pub struct Relation {
    diagram: Arc<Diagram>,
    // A number that tells most relations apart, for the table of kept results.
    mark: u64,
}

impl Model for Relation {
    ghost use Rattle.std.specs.Arc.{arc_value};
    ghost use Rattle.relation_laws.specs.Building.{Parts};

    ghost Value = { Parts };

    ghost view = { λ r. record {
      root = (arc_value r.diagram).root;
      nodes = (arc_value r.diagram).nodes;
    } };
}

impl Relation {
    /// The relation with this diagram, to be shared. It takes memory for the count alone.
    pub(crate) fn new(alloc: Global, diagram: Diagram) -> Result<Relation, OutOfMemory>
        ensures { IfOk result (λ r. (n : ℕ) (a : Pairs) → IsOver (2 * n) diagram
            → HasPairs diagram a → r ≡ relation_of n a) }
    {
        let mark = mark_of(&diagram);
        let diagram = Arc::new(alloc, diagram)?;
        Ok(Relation { diagram, mark })
    }

    /// The diagram.
    pub fn diagram(&self) -> &Diagram
        ensures root { result.now.root ≡ self.now.root }
        ensures nodes { result.now.nodes ≡ self.now.nodes }
    {
        &self.diagram
    }

    /// Whether two relations are equal.
    pub(crate) fn is_same(&self, other: &Relation) -> bool
        ensures { IsTrue result ↔ (self.now ≡ other.now) }
    {
        self.diagram().same(other.diagram())
    }

    /// Whether there is no pair.
    pub(crate) fn is_empty(&self) -> bool
        ensures { (n : ℕ) → IsTrue result ↔ (self.now ≡ relation_of n no_pairs) }
    {
        self.diagram().root == 0
    }

    /// The same relation, shared.
    pub(crate) fn share(&self) -> Result<Relation, OutOfMemory>
        ensures { IfOk result (λ r. r ≡ self.now) }
    {
        let diagram = self.diagram.clone()?;
        Ok(Relation {
            diagram,
            mark: self.mark,
        })
    }

    /// A number that is the same for equal relations, and tells most others apart.
    pub(crate) fn mark(&self) -> u64 {
        self.mark
    }
}

// A number that tells most diagrams apart: a sum of products, and its upper half folded (Knuth 1998, section 6.4).
fn mark_of(diagram: &Diagram) -> u64 {
    let mut mark = diagram.root;
    for node in diagram.nodes() {
        let low = node.low.wrapping_mul(0xBF58_476D_1CE4_E5B9);
        let high = node.high.wrapping_mul(0x94D0_49BB_1331_11EB);
        let branches = low.wrapping_add(high).wrapping_add(u64::from(node.var));
        mark = mixed(mark, branches);
    }
    mark ^ (mark / 0x1_0000_0000)
}
