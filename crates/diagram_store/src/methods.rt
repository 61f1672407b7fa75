ghost use Rattle.std.specs.Prelude.{◌≡◌, ◌↔◌, ◌<◌, ℕ, Bool, [], IsTrue, IfOk, length};
ghost use Rattle.diagram_store.specs.Canonical.{IsCanonical};
ghost use Rattle.diagram_store.specs.Diagrams.{HaveSameParts, IsOver, MeanTheSame, meaning};
ghost use Rattle.diagram_store.specs.Meaning.{bits_of};

use crate::branch::{are_same, have_variables_below, node};
use crate::{Branch, BranchList, Diagram};
use std::alloc::Global;
use wpds_base::OutOfMemory;

impl Diagram {
    /// The same value on all bits. It takes no memory.
    pub fn constant(alloc: Global, value: bool) -> Diagram
        ensures value { (bits : ℕ → Bool) → meaning result bits ≡ value }
        ensures no_nodes { result.nodes ≡ [] }
    {
        Diagram {
            root: u64::from(value),
            nodes: BranchList::from_vec(Vec::new(alloc)),
        }
    }

    /// The bit of a variable.
    pub fn literal(alloc: Global, var: u32) -> Result<Diagram, OutOfMemory>
        ensures value { IfOk result (λ d. (bits : ℕ → Bool) → meaning d bits ≡ bits var) }
        ensures variable { IfOk result (λ d. (limit : ℕ) → var < limit → IsOver limit d) }
    {
        let node = Branch {
            var,
            low: 0,
            high: 1,
        };
        let made = Diagram::of_nodes(alloc, &[node], 2)?;
        Ok(made)
    }

    /// These nodes and this root, which are canonical.
    pub fn of_nodes(alloc: Global, nodes: &[Branch], root: u64) -> Result<Diagram, OutOfMemory>
        requires { IsCanonical root nodes.now }
        ensures root { IfOk result (λ d. d.root ≡ root) }
        ensures nodes { IfOk result (λ d. d.nodes ≡ nodes.now) }
    {
        let nodes = nodes.to_vec(alloc)?;
        Ok(Diagram {
            root,
            nodes: BranchList::from_vec(nodes),
        })
    }

    /// The value on these bits, by the walk from the root.
    pub fn value(&self, bits: &[bool]) -> bool
        requires { IsOver (length bits.now) self.now }
        ensures { result ≡ meaning self.now (bits_of bits.now) }
    {
        let mut at = self.root;
        while let Some(found) = node(self.nodes.as_slice(), at) {
            at = if bits[found.var as usize] {
                found.high
            } else {
                found.low
            };
        }
        at == 1
    }

    /// Whether each variable is below a limit.
    pub fn has_variables_below(&self, limit: u64) -> bool
        ensures { IsTrue result ↔ IsOver limit self.now }
    {
        have_variables_below(self.nodes.as_slice(), limit)
    }

    /// Whether the two diagrams have equal values on all bits. It compares their parts.
    pub fn same(&self, other: &Diagram) -> bool
        ensures parts { IsTrue result ↔ HaveSameParts self.now other.now }
        ensures values { IsTrue result ↔ MeanTheSame self.now other.now }
    {
        self.root == other.root && are_same(self.nodes.as_slice(), other.nodes.as_slice())
    }

    /// The nodes, in canonical order.
    pub fn nodes(&self) -> &[Branch]
        ensures { result.now ≡ self.now.nodes }
    {
        self.nodes.as_slice()
    }

    /// A diagram with the same root and nodes.
    pub fn copy(&self, alloc: Global) -> Result<Diagram, OutOfMemory>
        ensures root { IfOk result (λ d. d.root ≡ self.now.root) }
        ensures nodes { IfOk result (λ d. d.nodes ≡ self.now.nodes) }
    {
        Diagram::of_nodes(alloc, self.nodes.as_slice(), self.root)
    }
}
