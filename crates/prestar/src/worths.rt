ghost use Rattle.std.specs.Prelude.{◌≡◌};
ghost use Rattle.saturation_laws.specs.States.{change_of};
ghost use Rattle.prestar_laws.specs.Jobs.{pre_tables};

use crate::candidate::worth;
use direction_parts::Draw;
use pushdown_rules::System;
use saturation_laws::{Change, JobView};
use semiring_laws::Semiring;
use std::alloc::Global;
use wpds_base::OutOfMemory;

/// Makes of each job what it changes.
#[derive(Clone, Copy, Debug)]
pub(crate) struct Worths;

impl<S: Semiring> Draw<S> for Worths {
    type Made = Change<S>;

    ghost made = { λ p j. let s = S.operations p.semiring in change_of s (pre_tables s p) j };

    fn draw(
        &self,
        alloc: Global,
        system: &System<S>,
        job: &JobView<'_, S>,
    ) -> Result<Change<S>, OutOfMemory> {
        let weight = worth(alloc, system, job)?;
        Ok(job.change(weight))
    }
}
