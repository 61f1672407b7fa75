ghost use Rattle.std.specs.Prelude.{◌≡◌, ◌⊎◌, ◌<◌, ◌≤◌, ◌^◌, ℕ, List, length};
ghost use Rattle.std.specs.List.{AllByRecursion};
ghost use Rattle.semiring_laws.specs.Semiring.{Fits, Below};
ghost use Rattle.weighted_automata.specs.declared.place.Place.{Place as PlaceValue};
ghost use Rattle.weight_tables.specs.Entries.{TableEntry, weight_in, settled_in};
ghost use Rattle.weight_tables.specs.Turns.{turns_left};
ghost use Rattle.walk_pairs.specs.Lowerings.{AreLowered};

use semiring_laws::Semiring;

/// A law on entries: finitely many lowerings raise no weight; what counts afterwards counted before, or counts for nothing; and
/// entries can be taken no more often than before.
pub fn lowerings_fall<S: Semiring>()
    ensures falls { (x : S) → let s = S.operations x in
        (old new : List (TableEntry S.W)) → AllByRecursion (λ e. Fits s e.weight) old →
        AreLowered s (λ _ w. Fits s w) old new →
        (y : PlaceValue) → Below s (weight_in s new y) (weight_in s old y) }
    ensures counts { (x : S) → let s = S.operations x in
        (old new : List (TableEntry S.W)) → AllByRecursion (λ e. Fits s e.weight) old →
        AreLowered s (λ _ w. Fits s w) old new → (y : PlaceValue) →
        (settled_in s new y ≡ settled_in s old y) ⊎ (settled_in s new y ≡ s.zero) }
    ensures turns { (x : S) → let s = S.operations x in
        (old new : List (TableEntry S.W)) → AllByRecursion (λ e. Fits s e.weight) old →
        AreLowered s (λ _ w. Fits s w) old new → length new < 2 ^ 32 →
        turns_left s new ≤ turns_left s old }
{}
