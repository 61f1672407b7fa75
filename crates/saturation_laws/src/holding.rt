ghost use Rattle.std.specs.Prelude.{◌≡◌, IfOk};

use crate::JobList;
use semiring_laws::Semiring;
use std::alloc::Global;
use std::marker::Model;
use std::sync::Arc;
use weighted_automata::Place;
use wpds_base::OutOfMemory;

/// Jobs that a hand and its book share, so that a copy is one more count and no job.
#[derive(Drop)]
pub struct SharedJobs<S: Semiring> {
    jobs: Arc<JobList<S>>,
}

impl<S: Semiring> Model for SharedJobs<S> {
    ghost use Rattle.std.specs.Prelude.{List};
    ghost use Rattle.std.specs.Arc.{arc_value};
    ghost use Rattle.saturation_laws.specs.declared.job.Job.{Job as JobValue};

    ghost Value = { List (JobValue S S.W S.Ret) };

    ghost view = { λ s. arc_value s.jobs };
}

impl<S: Semiring> SharedJobs<S> {
    /// These jobs, to be shared. It takes memory for the count alone; after an answer out of memory the jobs are gone.
    pub fn new(alloc: Global, jobs: JobList<S>) -> Result<SharedJobs<S>, OutOfMemory>
        ensures { IfOk result (λ s. s ≡ jobs) }
    {
        let jobs = Arc::new(alloc, jobs)?;
        Ok(SharedJobs { jobs })
    }

    /// The jobs.
    pub fn as_list(&self) -> &JobList<S>
        ensures { result.now ≡ self.now }
    {
        &self.jobs
    }

    /// The same jobs, shared. It answers out of memory where no more can share them.
    pub fn share(&self) -> Result<SharedJobs<S>, OutOfMemory>
        ensures { IfOk result (λ s. s ≡ self.now) }
    {
        let jobs = self.jobs.clone()?;
        Ok(SharedJobs { jobs })
    }
}

/// What a book keeps of a hand that is out: the place that was taken, and the jobs that this gave.
#[derive(Drop)]
pub struct Holding<S: Semiring> {
    pub place: Place,
    pub jobs: SharedJobs<S>,
}
