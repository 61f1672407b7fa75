ghost use Rattle.std.specs.Prelude.{◌≡◌, [], ◌∷◌};
ghost use Rattle.semiring_laws.specs.Reach.{reach_operations};
ghost use Rattle.semiring_laws.specs.ReachLaws.{reach_laws};
ghost use Rattle.tests_books.specs.Gather.{fits_gather, gather_runs, gather_tables, gather_direction, gather_sums, gather_once, gather_candidates, gathering as gathered, hub};

use pushdown_rules::System;
use saturation_laws::{Direction, Job, JobKind, JobList};
use semiring_laws::{Reach, Semiring};
use std::alloc::Global;
use weighted_automata::{Entry, Label, Place, Transitions};
use witness_graph::Side;
use wpds_base::OutOfMemory;

/// The tests' direction. It draws one consequence from each transition: the same weight for the place `HUB`. The job
/// names the rule of number 0, on which nothing else rests.
#[derive(Clone, Copy)]
pub(crate) struct Gather {
    pub(crate) side: Side,
}

/// The goal of each job.
pub(crate) const HUB: Place = Place {
    from: 0,
    label: Label::Symbol(0),
    to: 0,
};

impl Direction<Reach> for Gather {
    ghost way = { record {
      tables = λ d _. gather_tables reach_operations d.side;
      fits_opening = λ d _ o. fits_gather d.side o;
      places = λ _ _ _. hub ∷ [];
      runs = λ _ _ _. gather_runs;
    } };

    ghost laws = { λ d p o _ fits. gather_direction reach_operations d.side p o fits };

    ghost sums = { λ d p o _ fits. gather_sums reach_operations reach_laws d.side p o fits _ };

    ghost jobs_once = { λ _ _ _ _ _ _ t _ _. gather_once t };

    ghost same_candidate = { λ d e p q.
        gather_candidates (λ _. reach_operations) d.side e.side p q };

    fn side(&self) -> Side {
        self.side
    }

    fn jobs(
        &self,
        alloc: Global,
        _system: &System<Reach>,
        transitions: &Transitions<Reach>,
        taken: u64,
    ) -> Result<JobList<Reach>, OutOfMemory> {
        let mut jobs = Vec::new(alloc);
        jobs.push(gathering(transitions.entry(taken)))?;
        Ok(JobList::from_vec(jobs))
    }

    fn candidate(
        &self,
        alloc: Global,
        system: &System<Reach>,
        job: &Job<Reach>,
    ) -> Result<bool, OutOfMemory> {
        match &job.first {
            Some(first) => Ok(first.weight),
            None => system.semiring().zero(alloc),
        }
    }

    fn same_way(&self, other: &Gather) -> bool {
        self.side == other.side
    }
}

/// The job of a transition.
pub(crate) fn gathering(taken: &Entry<Reach>) -> Job<Reach>
    ensures { result ≡ gathered taken.now }
{
    Job {
        kind: JobKind::PostLeave,
        rule: Some(0),
        frame: None,
        first: Some(Entry {
            place: taken.place,
            weight: taken.weight,
            node: taken.node,
        }),
        second: None,
        goal: HUB,
    }
}
