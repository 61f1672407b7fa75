ghost use Rattle.std.specs.Prelude.{◌≡◌, ◌<◌, ℕ, IfOk, IfSome, length, option_and_then, option_map, slice_get};
ghost use Rattle.semiring_laws.specs.Semiring.{Fits};
ghost use Rattle.saturation_laws.specs.Jobs.{node_of};
ghost use Rattle.saturation_laws.specs.States.{weight_at, weight_of};
ghost use Rattle.saturation_laws.specs.Openings.{AreKept, changed_weight};

use semiring_laws::Semiring;
use std::alloc::Global;
use weighted_automata::{Place, Transitions};
use wpds_base::OutOfMemory;

/// The weight at a place, and zero where there is none.
pub fn weight_now<S: Semiring>(
    alloc: Global,
    semiring: &S,
    transitions: &Transitions<S>,
    place: Place,
) -> Result<S::W, OutOfMemory>
    requires { (n : ℕ) × AreKept (S.operations semiring.now) transitions.now.transitions n }
    ensures { IfOk result
        (λ w. w ≡ weight_at (S.operations semiring.now) place transitions.now.transitions) }
{
    match transitions.find(place) {
        Some(k) => semiring.copy(alloc, &transitions.entry(k).weight),
        None => semiring.zero(alloc),
    }
}

/// What a weight makes of the one that is there, where it changes it.
pub(crate) fn weight_after<S: Semiring>(
    alloc: Global,
    semiring: &S,
    old: &S::W,
    weight: &S::W,
) -> Result<Option<S::W>, OutOfMemory>
    requires old { Fits (S.operations semiring.now) old.now }
    requires weight { Fits (S.operations semiring.now) weight.now }
    ensures { IfOk result (λ o. o ≡ changed_weight (S.operations semiring.now) old.now weight.now) }
{
    semiring.lowered(alloc, old, weight)
}

/// What a weight makes of zero, where it changes it.
pub(crate) fn weight_from_zero<S: Semiring>(
    alloc: Global,
    semiring: &S,
    weight: &S::W,
) -> Result<Option<S::W>, OutOfMemory>
    requires { Fits (S.operations semiring.now) weight.now }
    ensures { let s = S.operations semiring.now in
        IfOk result (λ o. o ≡ changed_weight s s.zero weight.now) }
{
    let zero = semiring.zero(alloc)?;
    weight_after(alloc, semiring, &zero, weight)
}

/// What a weight makes of that of the transition with a number, as [`Transitions::find`] gives it, and of zero where there is
/// none; `None` exactly where it changes nothing. The weight that is there is not copied. Refused only when out of memory.
pub fn changed_at<S: Semiring>(
    alloc: Global,
    semiring: &S,
    transitions: &Transitions<S>,
    at: Option<u64>,
    weight: &S::W,
) -> Result<Option<S::W>, OutOfMemory>
    requires at { IfSome at (λ k. k < length transitions.now.transitions) }
    requires kept { (n : ℕ) × AreKept (S.operations semiring.now) transitions.now.transitions n }
    requires weight { Fits (S.operations semiring.now) weight.now }
    ensures { let s = S.operations semiring.now in
        let found = option_and_then (slice_get transitions.now.transitions) at in
        IfOk result (λ o. o ≡ changed_weight s (weight_of s found) weight.now) }
{
    match at {
        Some(k) => weight_after(alloc, semiring, &transitions.entry(k).weight, weight),
        None => weight_from_zero(alloc, semiring, weight),
    }
}

/// The node of the transition with a number, as [`Transitions::find`] gives it.
pub fn node_at<S: Semiring>(transitions: &Transitions<S>, at: Option<u64>) -> Option<u64>
    requires { IfSome at (λ k. k < length transitions.now.transitions) }
    ensures { let found = option_and_then (slice_get transitions.now.transitions) at in
        result ≡ option_map node_of found }
{
    match at {
        Some(k) => Some(transitions.entry(k).node),
        None => None,
    }
}
