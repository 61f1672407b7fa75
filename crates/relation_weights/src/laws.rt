ghost use Rattle.std.specs.Prelude.{◌≡◌, ◌↔◌, ◌<◌, ◌||◌, ℕ, Bool, false, List, Option, IsTrue};
ghost use Rattle.semiring_laws.specs.Semiring.{Fits, FitsMap};
ghost use Rattle.truth_tables.specs.Formulas.{Formula, is_over};
ghost use Rattle.relation_laws.specs.Building.{Parts};
ghost use Rattle.relation_laws.specs.States.{AgreeBelow};
ghost use Rattle.relation_laws.specs.Relations.{leads, relation_of};
ghost use Rattle.relation_weights.specs.declared.rel_map.Slot.{Slot};
ghost use Rattle.relation_weights.specs.declared.rel_map.RelMap.TheVariants.{Slots};
ghost use Rattle.relation_weights.specs.Actions.{assigned, assumed, frame_pairs, AreTargets};
ghost use Rattle.relation_weights.specs.Relations.{relation_operations, source_of};

/// A weight is the set of its pairs of an old and a new state. Zero has none, and one leads to the states with the same
/// bits. Combine leads where either does, and extend where the first leads to a state in the middle from which the second
/// leads on. A return map by slots leads where the call leads to some state, and each bit is that of its slot. Weights that
/// have the same pairs are equal.
pub fn weights_are_sets_of_pairs()
    ensures zero { (n : ℕ) (x y : ℕ → Bool) → leads (relation_operations n).zero x y ≡ false }
    ensures one { (n : ℕ) (x y : ℕ → Bool) →
        IsTrue (leads (relation_operations n).one x y) ↔ AgreeBelow n x y }
    ensures combine { (n : ℕ) (a b : Parts) → let s = relation_operations n in
        Fits s a → Fits s b → (x y : ℕ → Bool) →
        leads (s.combine a b) x y ≡ (leads a x y || leads b x y) }
    ensures extend { (n : ℕ) (a b : Parts) → let s = relation_operations n in
        Fits s a → Fits s b → (x z : ℕ → Bool) → IsTrue (leads (s.extend a b) x z) ↔
        ((y : ℕ → Bool) × IsTrue (leads a x y) × IsTrue (leads b y z)) }
    ensures after { (n : ℕ) (slots : List Slot) (a : Parts) → let s = relation_operations n in
        FitsMap s (Slots slots) → Fits s a → (x y : ℕ → Bool) →
        IsTrue (leads (s.after (Slots slots) a) x y) ↔
        ((z : ℕ → Bool) × IsTrue (leads a x z) × AgreeBelow n y (λ v. source_of slots v x z)) }
    ensures equal { (n : ℕ) (a b : Parts) → let s = relation_operations n in
        Fits s a → Fits s b → ((x y : ℕ → Bool) → leads a x y ≡ leads b x y) → a ≡ b }
{}

/// The relations that actions are lead where the actions allow it.
pub fn actions_are_sets_of_pairs()
    ensures assign { (n : ℕ) (targets : List (ℕ × Option (Formula ℕ))) → AreTargets n targets →
        (x y : ℕ → Bool) → let pairs = assigned n targets in
        leads (relation_of n pairs) x y ≡ pairs x y }
    ensures assume { (n : ℕ) (f : Formula ℕ) → IsTrue (is_over n f) →
        (x y : ℕ → Bool) → let pairs = assumed n f in
        leads (relation_of n pairs) x y ≡ pairs x y }
    ensures choose { (n : ℕ) (vars : List ℕ) (x y : ℕ → Bool) →
        let pairs = frame_pairs n vars in leads (relation_of n pairs) x y ≡ pairs x y }
{}
