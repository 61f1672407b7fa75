ghost use Rattle.std.specs.Prelude.{◌≡◌, ◌↔◌, IsTrue};
ghost use Rattle.diagram_store.specs.Nodes.{node_at, HasVariablesBelow};

use wpds_base::Sequence;

/// A node: its variable, and where the walk goes on for the bits false (`low`) and true (`high`).
///
/// Reference 0 is false, 1 is true, and `i + 2` is node `i` of the list.
#[derive(Clone, Copy, Debug, PartialEq, Eq, Hash)]
pub struct Branch {
    pub var: u32,
    pub low: u64,
    pub high: u64,
}

/// Nodes in order, each of which names those before it.
pub type BranchList = Sequence<Branch>;

/// The node that a reference names, if it names one: 0 is false and 1 is true, and `i + 2` is node `i`.
pub fn node(nodes: &[Branch], reference: u64) -> Option<Branch>
    ensures { result ≡ node_at nodes.now reference }
{
    if reference < 2 {
        None
    } else {
        nodes.get(reference as usize - 2).copied()
    }
}

/// Whether the nodes are equal.
pub(crate) fn is_same(a: &Branch, b: &Branch) -> bool
    ensures { IsTrue result ↔ (a.now ≡ b.now) }
{
    a == b
}

/// Whether the lists are equal.
pub(crate) fn are_same(a: &[Branch], b: &[Branch]) -> bool
    ensures { IsTrue result ↔ (a.now ≡ b.now) }
{
    a == b
}

/// Whether each variable is below a limit.
pub(crate) fn have_variables_below(nodes: &[Branch], limit: u64) -> bool
    ensures { IsTrue result ↔ HasVariablesBelow limit nodes.now }
{
    for branch in nodes {
        if u64::from(branch.var) >= limit {
            return false;
        }
    }
    true
}
