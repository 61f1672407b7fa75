ghost use Rattle.diagram_store.specs.Canonical.{IsCanonical};

use crate::BranchList;

/// A test on bits, as a reduced ordered decision diagram.
///
/// `root` is the reference where the walk begins: 0 is false, 1 is true, `i + 2` is node `i`. The nodes are
/// in canonical form, so two diagrams have equal values on all bits exactly where their parts are equal.
#[derive(Drop)]
pub struct Diagram {
    pub root: u64,
    pub nodes: BranchList,
    ghost is_canonical: { IsCanonical root nodes },
}
