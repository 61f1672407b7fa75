ghost use Rattle.std.specs.Prelude.{◌≡◌, ◌↔◌, ◌*◌, ℕ, Bool, IsTrue};
ghost use Rattle.diagram_store.specs.Nodes.{HasVariablesBelow};
ghost use Rattle.diagram_store.specs.Canonical.{IsCanonical};
ghost use Rattle.relation_laws.specs.Building.{Parts, same_parts};
ghost use Rattle.relation_laws.specs.Relations.{Pairs, ReadsPairs, leads, relation_of, composition};

/// The diagram of a set of pairs has those pairs, and is the only canonical one over their bits (by Bryant 1986).
pub fn one_diagram()
    ensures pairs { (n : ℕ) (a : Pairs) → ReadsPairs n a → (x y : ℕ → Bool)
        → leads (relation_of n a) x y ≡ a x y }
    ensures only { (n : ℕ) (w : Parts) (a : Pairs)
        → IsCanonical w.root w.nodes → HasVariablesBelow (2 * n) w.nodes
        → ((x y : ℕ → Bool) → leads w x y ≡ a x y) → w ≡ relation_of n a }
    ensures fits { (n : ℕ) (w : Parts) → IsTrue (same_parts (relation_of n (leads w)) w)
        ↔ (IsCanonical w.root w.nodes × HasVariablesBelow (2 * n) w.nodes) }
{}

/// Composition leads from one state to another exactly where both relations lead there by some state.
pub fn composition_is_by_a_middle()
    ensures { (n : ℕ) (a b : Pairs) → ReadsPairs n a → ReadsPairs n b → (x z : ℕ → Bool)
        → IsTrue (composition n a b x z) ↔ ((y : ℕ → Bool) × IsTrue (a x y) × IsTrue (b y z)) }
{}
