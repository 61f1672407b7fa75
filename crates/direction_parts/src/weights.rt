ghost use Rattle.std.specs.Prelude.{◌≡◌, IfOk, IfSome};
ghost use Rattle.semiring_laws.specs.Semiring.{Fits, FitsMap};
ghost use Rattle.saturation_laws.specs.States.{weight_of};
ghost use Rattle.saturation_laws.specs.Views.{seen_input};
ghost use Rattle.direction_parts.specs.Worths.{after_return};

use pushdown_rules::Rule;
use saturation_laws::Input;
use semiring_laws::Semiring;
use std::alloc::Global;
use wpds_base::OutOfMemory;

/// The weight of an input, and zero of one that is missing. Refused only when out of memory.
pub fn input_weight<S: Semiring>(
    alloc: Global,
    semiring: &S,
    input: Option<&Input<S>>,
) -> Result<S::W, OutOfMemory>
    requires { IfSome (seen_input input) (λ t. Fits (S.operations semiring.now) t.weight) }
    ensures { let s = S.operations semiring.now in
        IfOk result (λ w. w ≡ weight_of s (seen_input input.entry)) }
{
    match input {
        Some(t) => semiring.copy(alloc, &t.weight),
        None => semiring.zero(alloc),
    }
}

/// What the return map of a push makes of its call's value; the plain map where it has none. Refused only when out of
/// memory.
pub fn after_return<S: Semiring>(
    alloc: Global,
    semiring: &S,
    rule: &Rule<S>,
    inside: &S::W,
) -> Result<S::W, OutOfMemory>
    requires map { IfSome rule.now.map (FitsMap (S.operations semiring.now)) }
    requires inside { Fits (S.operations semiring.now) inside.now }
    ensures { IfOk result (λ w. w ≡ after_return (S.operations semiring.now) rule.now inside.now) }
{
    match &rule.map {
        Some(map) => semiring.after(alloc, map, inside),
        None => semiring.after(alloc, &semiring.plain(), inside),
    }
}
