ghost use Rattle.std.specs.Prelude.{◌≡◌, ◌<◌, ◌-◌, ◌↔◌, ◌++◌, ◌∷◌, [], ℕ, List, Option, Some, IsTrue, length, slice_get};
ghost use Rattle.wpds_base.specs.Lists.{IsOnce};
ghost use Rattle.witness_graph.specs.declared.node.Node.{Node as NodeValue};
ghost use Rattle.witness_graph.specs.declared.node.Node.TheVariants.{Start, Lower};
ghost use Rattle.witness_graph.specs.declared.node.Side.{Side as SideValue};
ghost use Rattle.witness_graph.specs.Nodes.{AreNodes};
ghost use Rattle.witness_graph.specs.Order.{post_order, listing_of, is_listed, Reaches};
ghost use Rattle.witness_graph.specs.Runs.{runs_of, earlier_runs, rule_runs, part_runs, parts_runs};
ghost use Rattle.witness_graph.specs.Tight.{IsTight, AreTight};

use semiring_laws::Semiring;

/// A listing is tight if the reached nodes of its graph are.
pub fn listing_stays_tight<S: Semiring>()
    ensures { (semiring : S) → let s = S.operations semiring in
        (value : List ℕ → S.W) (side : SideValue) (nodes : List NodeValue) (root : ℕ) →
        AreNodes nodes → root < length nodes →
        AreTight s value side nodes (post_order nodes root) →
        IsTight s value side (listing_of nodes root) }
{}

/// The post-order from a root has the nodes that are reached, each once, and the root last.
pub fn post_order_has_the_reached()
    ensures reached { (nodes : List NodeValue) (root k : ℕ) → AreNodes nodes → root < length nodes →
        IsTrue (is_listed (post_order nodes root) k) ↔ Reaches nodes root k }
    ensures once { (nodes : List NodeValue) (root : ℕ) → AreNodes nodes → root < length nodes →
        IsOnce (post_order nodes root) }
    ensures last { (nodes : List NodeValue) (root : ℕ) → AreNodes nodes → root < length nodes →
        slice_get (post_order nodes root) (length (post_order nodes root) - 1) ≡ Some root }
{}

/// The runs of a node: of `Start` the empty run alone, of `Lower` those of `before` and then those of its parts. Nodes
/// that are added keep the runs of those before them.
pub fn runs_are_those_of_parts()
    ensures start { (side : SideValue) (nodes : List NodeValue) (k : ℕ) → AreNodes nodes →
        slice_get nodes k ≡ Some Start → runs_of side nodes k ≡ [] ∷ [] }
    ensures lower { (side : SideValue) (nodes : List NodeValue) → let known = runs_of side nodes in
        (k : ℕ) (before rule first second : Option ℕ) → AreNodes nodes →
        slice_get nodes k ≡ Some (Lower before rule first second) →
        known k ≡ earlier_runs known before
        ++ parts_runs side (rule_runs rule) (part_runs known first) (part_runs known second) }
    ensures kept { (side : SideValue) (nodes more : List NodeValue) (k : ℕ) → k < length nodes →
        runs_of side (nodes ++ more) k ≡ runs_of side nodes k }
{}
