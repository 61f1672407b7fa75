ghost use Rattle.std.specs.Prelude.{◌≡◌, ◌<◌, ℕ, Bool, IfOk, length, map, slice_index};
ghost use Rattle.diagram_store.specs.Diagrams.{IsOver, meaning};
ghost use Rattle.diagram_store.specs.Nodes.{HasVariablesBelow};
ghost use Rattle.diagram_ops.specs.Renaming.{AreBelow, Rises, with_variable};

use diagram_store::{Branch, BranchList, Diagram};
use std::alloc::Global;
use wpds_base::OutOfMemory;

/// The diagram whose value on all bits is that of `a` where each variable `v` has the bit of `map[v]`.
///
/// The map rises strictly, so the nodes keep their order.
pub fn rename(alloc: Global, a: &Diagram, map: &[u32]) -> Result<Diagram, OutOfMemory>
    requires covers { IsOver (length map.now) a.now }
    requires rises { Rises map.now }
    ensures value { IfOk result (λ d. (bits : ℕ → Bool) → meaning d bits
        ≡ meaning a.now (λ v. bits (slice_index map.now v))) }
    ensures variables { IfOk result (λ d. (limit : ℕ) → AreBelow limit map.now → IsOver limit d) }
{
    let nodes = rename_nodes(alloc, a.nodes(), map)?;
    Ok(Diagram {
        root: a.root,
        nodes: BranchList::from_vec(nodes),
    })
}

fn rename_nodes(alloc: Global, nodes: &[Branch], names: &[u32]) -> Result<Vec<Branch>, OutOfMemory>
    requires { HasVariablesBelow (length names.now) nodes.now }
    ensures { IfOk result (λ v. v.items ≡ map (with_variable names.now) nodes.now) }
{
    let mut list = Vec::new(alloc);
    for branch in nodes {
        list.push(Branch {
            var: name_of(names, branch.var),
            low: branch.low,
            high: branch.high,
        })?;
    }
    Ok(list)
}

fn name_of(names: &[u32], var: u32) -> u32
    requires { var < length names.now }
    ensures { result ≡ slice_index names.now var }
{
    names[var as usize]
}
