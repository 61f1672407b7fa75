ghost use Rattle.std.specs.Prelude.{◌≡◌, Some, IfOk, IsTrue};
ghost use Rattle.weighted_automata.specs.Entries.{index_at};
ghost use Rattle.saturation_laws.specs.declared.opening.Opening.{Opening as OpeningValue};
ghost use Rattle.saturation_laws.specs.Ways.{HaveFitWeights, jobs_of_place};

use crate::queued::{NumberedPlace, QueuedTransitions};
use pushdown_rules::System;
use saturation_laws::{Direction, JobList};
use semiring_laws::Semiring;
use std::alloc::Global;
use wpds_base::OutOfMemory;

/// The jobs of the transition at a place, which is known by its number.
pub(crate) fn list_jobs<S: Semiring, D: Direction<S>>(
    alloc: Global,
    direction: &D,
    system: &System<S>,
    transitions: &QueuedTransitions<S>,
    taken: NumberedPlace,
) -> Result<JobList<S>, OutOfMemory>
    requires fits { (o : OpeningValue) × IsTrue (D.way.fits_opening direction.now system.now o) }
    requires weights { HaveFitWeights S.operations system.now transitions.now.transitions }
    requires at { index_at taken.place transitions.now.transitions ≡ Some taken.number }
    ensures { IfOk result (λ js. js ≡ jobs_of_place S.operations D.way
        direction.now system.now taken.place transitions.now.transitions) }
{
    direction.jobs(alloc, system, transitions.list(), u64::from(taken.number))
}
