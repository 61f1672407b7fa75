ghost use Rattle.std.specs.Prelude.{◌≡◌, ◌<◌, ◌++◌, ◌↔◌, length, map, slice_get, IsTrue, IfOk, OnOk};
ghost use Rattle.weighted_automata.specs.declared.transitions.Entry.{Entry};
ghost use Rattle.pushdown_rules.specs.Pushdown.{Pushdown};
ghost use Rattle.saturation_laws.specs.declared.opening.Opening.{Opening};
ghost use Rattle.saturation_laws.specs.Jobs.{row_of, InputsFit};
ghost use Rattle.saturation_laws.specs.States.{change_of};
ghost use Rattle.saturation_laws.specs.Ways.{Way, HaveFitWeights, IsLawful, IsSummable, HasOneCandidate, ListsJobsOnce};

use crate::{Change, Job, JobList};
use pushdown_rules::System;
use semiring_laws::Semiring;
use std::alloc::Global;
use weighted_automata::Transitions;
use witness_graph::Side;
use wpds_base::OutOfMemory;

/// Which way a saturation goes, and what it draws from a transition.
pub trait Direction<S: Semiring>: Copy {
    /// What it means: its tables, whether it fits an opening, the places that it can reach, and the runs of a place.
    ghost way: { Way S S.W S.Ret Self };

    /// Its side, the same over every system.
    fn side(&self) -> Side
        ensures { (p : Pushdown S S.W S.Ret) → ((way).tables self.now p).side ≡ result };

    /// The consequences of which the transition of number `taken` is an input, each once, with copies of the present
    /// weights, by kind, rule and the other input's number.
    fn jobs(
        &self,
        alloc: Global,
        system: &System<S>,
        transitions: &Transitions<S>,
        taken: u64,
    ) -> Result<JobList<S>, OutOfMemory>
        requires fits { (o : Opening) × IsTrue ((way).fits_opening self.now system.now o) }
        requires taken { taken < length transitions.now.transitions }
        requires fit { HaveFitWeights S.operations system.now transitions.now.transitions }
        ensures { (t : Entry S S.W S.Ret) → slice_get transitions.now.transitions taken ≡ Some t
            → IfOk result (λ jobs. jobs
            ≡ ((way).tables self.now system.now).jobs transitions.now.transitions t) };

    /// What a job makes of the weights of its inputs.
    fn candidate(
        &self,
        alloc: Global,
        system: &System<S>,
        job: &Job<S>,
    ) -> Result<S::W, OutOfMemory>
        requires row { IsTrue (((way).tables self.now system.now).rows (row_of job.now)) }
        requires inputs { InputsFit (S.operations system.now.semiring) job.now }
        ensures { IfOk result (λ w. w ≡ ((way).tables self.now system.now).candidate job.now) };

    /// What the transition's jobs change, in their order, behind what is there. A direction may work it out from where the
    /// inputs stand, without copies of them. After an answer out of memory `into` is of no use.
    fn changes(
        &self,
        alloc: Global,
        system: &System<S>,
        transitions: &Transitions<S>,
        taken: u64,
        into: &mut Vec<Change<S>>,
    ) -> Result<(), OutOfMemory>
        requires fits { (o : Opening) × IsTrue ((way).fits_opening self.now system.now o) }
        requires taken { taken < length transitions.now.transitions }
        requires fit { HaveFitWeights S.operations system.now transitions.now.transitions }
        ensures { (t : Entry S S.W S.Ret) → slice_get transitions.now.transitions taken ≡ Some t →
            let ts = transitions.now.transitions in
            let d = (way).tables self.now system.now in
            let more = map (change_of (S.operations system.now.semiring) d) (d.jobs ts t) in
            OnOk result (into.new.items ≡ into.old.items ++ more) }
    {
        // the rules are of the semiring, and the transitions' places are distinct
        let _semiring = system.semiring();
        let _count = transitions.len();
        let _taken = transitions.entry(taken);
        let jobs = self.jobs(alloc, system, transitions, taken)?;
        for job in jobs.as_slice() {
            let weight = self.candidate(alloc, system, job)?;
            into.push(job.view().change(weight))?;
        }
        Ok(())
    }

    /// Whether two directions are one.
    fn same_way(&self, other: &Self) -> bool
        ensures { IsTrue result ↔ (self.now ≡ other.now) };

    /// What holds of it over each system and opening that it fits.
    ghost laws: { IsLawful S.operations way };

    /// What the sums over it rest on: a run is met by a path, and a path gives a run.
    ghost sums: { IsSummable S.operations way };

    /// Each job of a transition stands once.
    ghost jobs_once: { ListsJobsOnce S.operations way };

    /// A candidate depends on the job, the side, the semiring's parameters and the rules that the job names, and on nothing
    /// else.
    ghost same_candidate: { HasOneCandidate way };
}
