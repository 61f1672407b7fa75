ghost use Rattle.std.specs.Prelude.{◌≡◌, All, IfOk};
ghost use Rattle.semiring_laws.specs.Semiring.{Fits};
ghost use Rattle.semiring_laws.specs.Combination.{combination};

use crate::Semiring;
use std::alloc::Global;
use wpds_base::OutOfMemory;

/// The combination of finitely many weights.
pub fn combine_all<S: Semiring>(
    alloc: Global,
    semiring: &S,
    weights: &[S::W],
) -> Result<S::W, OutOfMemory>
    requires { All (Fits (S.operations semiring.now)) weights.now }
    ensures { IfOk result (λ w. w ≡ combination (S.operations semiring.now) weights.now) }
{
    let mut sum = semiring.zero(alloc)?;
    for weight in weights {
        sum = semiring.combine(alloc, &sum, weight)?;
    }
    Ok(sum)
}
