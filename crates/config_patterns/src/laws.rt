ghost use Rattle.std.specs.Prelude.{◌↔◌, ℕ, List, IsTrue, All};
ghost use Rattle.config_patterns.specs.declared.item.Item.{Item as ItemValue};
ghost use Rattle.config_patterns.specs.Membership.{items_match};
ghost use Rattle.config_patterns.specs.declared.edge.Edge.{Edge as EdgeValue};
ghost use Rattle.config_patterns.specs.Edges.{edges_of};
ghost use Rattle.config_patterns.specs.Validity.{is_set};
ghost use Rattle.wpds_base.specs.Lists.{IsIn, IsOnce};
ghost use Rattle.config_patterns.specs.Paths.{IsEdge, IsRead};

/// A law on patterns: a path of the edges leads from state 0 to a final state over a list of symbols exactly when the
/// items match it.
pub fn members_are_read()
    ensures { (items : List ItemValue) (stack : List ℕ) →
        IsTrue (items_match items stack) ↔ IsRead items stack }
{}

/// A law on patterns: the edges are those from a state to each item above it with only starred items between, on each of
/// its symbols, and those from each starred item to itself. So no edge goes to state 0.
pub fn edges_skip_starred_items()
    ensures { (items : List ItemValue) (e : EdgeValue) →
        IsIn e (edges_of items) ↔ IsEdge items e }
{}

/// A law on patterns: each edge stands once, if no item's set has a symbol twice, as in each pattern.
pub fn edges_stand_once()
    ensures { (items : List ItemValue) → All (λ x. IsTrue (is_set x.set)) items →
        IsOnce (edges_of items) }
{}
