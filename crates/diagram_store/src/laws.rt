//! What the definitions say, as laws.

ghost use Rattle.std.specs.Prelude.{◌≡◌, ◌↔◌, ◌<◌, ℕ, Bool, List, [], nat_eq};
ghost use Rattle.diagram_store.specs.declared.branch.Branch.{Branch as BranchValue};
ghost use Rattle.diagram_store.specs.declared.diagram.Diagram.{Diagram as DiagramValue};
ghost use Rattle.diagram_store.specs.Canonical.{IsCanonical};
ghost use Rattle.diagram_store.specs.Diagrams.{HaveSameParts, IsOver, MeanTheSameOnLists, ReadsBelow};
ghost use Rattle.diagram_store.specs.Meaning.{value_at, GoesByBranch, TellsReferences};
ghost use Rattle.diagram_store.specs.Nodes.{IsReduced};

/// The value goes branch by branch: at a node it is the value of a branch, by the bit of the
/// node's variable. A constant has its own value.
pub fn value_by_branch()
    ensures node { (nodes : List BranchValue) → IsReduced nodes → GoesByBranch nodes }
    ensures constant { (nodes : List BranchValue) (r : ℕ) (bits : ℕ → Bool) → r < 2
        → value_at nodes r bits ≡ nat_eq r 1 }
{}

/// Among reduced nodes, references with equal values on all bits are equal.
pub fn one_reference()
    ensures { (nodes : List BranchValue) → IsReduced nodes → TellsReferences nodes }
{}

/// A constant without nodes is canonical, and a canonical list whose root is a constant has no
/// nodes.
pub fn constants_are_canonical()
    ensures { (root : ℕ) (nodes : List BranchValue) → root < 2
        → IsCanonical root nodes ↔ (nodes ≡ []) }
{}

/// Two diagrams have equal values on all bits exactly where their roots and nodes are equal
/// (Bryant 1986).
///
/// All lists of bits are enough: a bit past the end of a list is false.
pub fn one_meaning()
    ensures { (a b : DiagramValue) → MeanTheSameOnLists a b ↔ HaveSameParts a b }
{}

/// A diagram has no variable from a limit on exactly where no bit from there on makes a difference.
pub fn independent_variables()
    ensures { (d : DiagramValue) (limit : ℕ) → ReadsBelow limit d ↔ IsOver limit d }
{}
