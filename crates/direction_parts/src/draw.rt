ghost use Rattle.std.specs.Prelude.{◌≡◌, IfOk};
ghost use Rattle.pushdown_rules.specs.Pushdown.{Pushdown};
ghost use Rattle.saturation_laws.specs.declared.job.Job.{Job as JobValue};
ghost use Rattle.saturation_laws.specs.Jobs.{InputsFit};
ghost use Rattle.saturation_laws.specs.Views.{seen};

use crate::copies::copy_job;
use pushdown_rules::System;
use saturation_laws::{Job, JobView};
use semiring_laws::Semiring;
use std::alloc::Global;
use wpds_base::OutOfMemory;

/// What a pass makes of each job that it comes to, while the inputs stand where they are.
pub trait Draw<S: Semiring> {
    /// What is made of a job.
    type Made: Drop;

    /// What is made of a job over a system.
    ghost made: { Pushdown S S.W S.Ret → JobValue S S.W S.Ret → Self.Made };

    /// Makes it. Refused only when out of memory.
    fn draw(
        &self,
        alloc: Global,
        system: &System<S>,
        job: &JobView<'_, S>,
    ) -> Result<Self::Made, OutOfMemory>
        requires { InputsFit (S.operations system.now.semiring) (seen job.now) }
        ensures { IfOk result (λ m. m ≡ made system.now (seen job.now)) };
}

/// Makes jobs, with copies of their inputs, for a worker that works them out later.
#[derive(Clone, Copy, Debug)]
pub struct Copies;

impl<S: Semiring> Draw<S> for Copies {
    type Made = Job<S>;

    ghost made = { λ _ j. j };

    fn draw(
        &self,
        alloc: Global,
        system: &System<S>,
        job: &JobView<'_, S>,
    ) -> Result<Job<S>, OutOfMemory> {
        copy_job(alloc, system.semiring(), job)
    }
}
