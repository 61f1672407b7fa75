ghost use Rattle.std.specs.Prelude.{◌≡◌, ◌<◌, ◌≤◌, ◌-◌, ◌++◌, ℕ, List, length};
ghost use Rattle.witness_graph.specs.declared.node.Node.{Node as NodeValue};
ghost use Rattle.witness_graph.specs.declared.node.Side.{Side as SideValue};
ghost use Rattle.witness_graph.specs.Nodes.{AreNodes};
ghost use Rattle.witness_graph.specs.Order.{listing_of};
ghost use Rattle.witness_graph.specs.Runs.{runs_of};
ghost use Rattle.witness_graph.specs.Tight.{IsTight};
ghost use Rattle.witness_graph.specs.Shorter.{BeginsEmpty, made_short, shortened};

use crate::post_order_has_the_reached;
use semiring_laws::Semiring;

/// What is made shorter has the same runs, whichever way they go.
pub fn shorter_has_the_same_runs()
    ensures { (side : SideValue) (graph added : List NodeValue) (root : ℕ) →
        AreNodes (graph ++ added) → BeginsEmpty added → root < length (graph ++ added) →
        let nodes = shortened graph added root in
        runs_of side nodes (length nodes - 1) ≡ runs_of side (graph ++ added) root }
{}

/// If the nodes of a sum are tight, the listing that is made shorter is tight, for whatever its runs are worth.
pub fn shorter_stays_tight<S: Semiring>()
    ensures { (semiring : S) → let s = S.operations semiring in (value : List ℕ → S.W)
        (side : SideValue) (graph added : List NodeValue) (root : ℕ) →
        AreNodes (graph ++ added) → BeginsEmpty added → root < length (graph ++ added) →
        IsTight s value side (graph ++ added) → IsTight s value side (shortened graph added root) }
{}

/// A listing that is made shorter has no more nodes than the listing of the same root over the nodes as they were.
pub fn shorter_has_no_more_nodes()
    ensures { (graph added : List NodeValue) (root : ℕ) →
        AreNodes (graph ++ added) → BeginsEmpty added → root < length (graph ++ added) →
        length (shortened graph added root) ≤ length (listing_of (graph ++ added) root) }
{
    post_order_has_the_reached();
}

/// The nodes of the graph stay as they are, under their own numbers.
pub fn nodes_of_the_graph_stay()
    ensures { (graph added : List NodeValue) →
        (more : List NodeValue) × ((made_short graph added).0 ≡ graph ++ more) }
{}
