ghost use Rattle.std.specs.Prelude.{◌≡◌, ◌<◌, ◌≤◌, ◌+◌, ◌*◌, ◌^◌, ℕ, List, length, true, Some, slice_get};
ghost use Rattle.std.specs.List.{AllByRecursion};
ghost use Rattle.semiring_laws.specs.Semiring.{Fits};
ghost use Rattle.weighted_automata.specs.declared.place.Place.{Place as PlaceValue};
ghost use Rattle.weight_tables.specs.Entries.{TableEntry, IsTable, lowered_in, taken};
ghost use Rattle.weight_tables.specs.Turns.{turns_left};

use semiring_laws::Semiring;

/// A law on entries: to lower does not raise how often entries can be taken still, and to take one that waits lowers it. So each search
/// that takes what waits ends.
pub fn turns_fall<S: Semiring>()
    ensures lowered { (x : S) → let s = S.operations x in
        (place : PlaceValue) (w : S.W) (es : List (TableEntry S.W)) →
        AllByRecursion (λ e. Fits s e.weight) es → Fits s w →
        length (lowered_in s place w es) ≤ 2 ^ 32 →
        turns_left s (lowered_in s place w es) ≤ turns_left s es }
    ensures taken { (x : S) → let s = S.operations x in
        (t : ℕ) (es : List (TableEntry S.W)) (e : TableEntry S.W) →
        slice_get es t ≡ Some e → e.waits ≡ true →
        turns_left s (taken t es) < turns_left s es }
{}

/// The turns of a search are bounded by the rank of zero: each turn lowers `turns_left`, which is never more than this.
pub fn turns_are_bounded<S: Semiring>()
    ensures { (x : S) → let s = S.operations x in (es : List (TableEntry S.W)) →
        IsTable s es → turns_left s es ≤ 2 ^ 32 * (2 * s.top_rank + 1) }
{}
