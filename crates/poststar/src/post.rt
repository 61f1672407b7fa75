ghost use Rattle.std.specs.Prelude.{◌≡◌};
ghost use Rattle.poststar_laws.specs.Middles.{base_of};
ghost use Rattle.poststar_laws.specs.Ways.{post_way};
ghost use Rattle.poststar_laws.proofs.CallerLemmas.{post_laws, post_has_sums, jobs_once, same_candidates};

use crate::candidate::worth;
use crate::jobs::list_jobs;
use crate::worths::Worths;
use direction_parts::Copies;
use pushdown_rules::System;
use saturation_laws::{Change, Direction, Job, JobList};
use semiring_laws::Semiring;
use std::alloc::Global;
use weighted_automata::Transitions;
use witness_graph::Side;
use wpds_base::OutOfMemory;

/// Forwards: a transition from a control over a symbol, or over nothing, to an item stands for runs from what the opening
/// reads to that item; to the middle state of a push rule it stands for that rule and a run of its callee; and from a middle
/// state it stands for runs to the push rule's head (Schwoon 2002; Reps, Schwoon, Jha, Melski 2005). It fits each opening
/// whose edges go over symbols of the system from its controls and its items to its items.
#[derive(Clone, Copy, Debug, PartialEq, Eq)]
pub struct Post {
    /// How many items the opening pattern has. The middle states are numbered behind them.
    pub items: u32,
}

impl<S: Semiring> Direction<S> for Post {
    ghost way = { post_way (λ d. d.items) S.operations };

    fn side(&self) -> Side {
        Side::Post
    }

    /// Its time is that of the rules and the transitions that it meets.
    fn jobs(
        &self,
        alloc: Global,
        system: &System<S>,
        transitions: &Transitions<S>,
        taken: u64,
    ) -> Result<JobList<S>, OutOfMemory> {
        let mut jobs = Vec::new(alloc);
        let (items, taken) = (self.items, transitions.entry(taken));
        list_jobs(alloc, &Copies, system, items, transitions, taken, &mut jobs)?;
        Ok(JobList::from_vec(jobs))
    }

    /// The time is that of `jobs`. No input is copied.
    fn changes(
        &self,
        alloc: Global,
        system: &System<S>,
        transitions: &Transitions<S>,
        taken: u64,
        into: &mut Vec<Change<S>>,
    ) -> Result<(), OutOfMemory> {
        let (items, taken) = (self.items, transitions.entry(taken));
        list_jobs(alloc, &Worths, system, items, transitions, taken, into)
    }

    fn candidate(
        &self,
        alloc: Global,
        system: &System<S>,
        job: &Job<S>,
    ) -> Result<S::W, OutOfMemory> {
        worth(alloc, system, &job.view())
    }

    fn same_way(&self, other: &Self) -> bool {
        self == other
    }

    ghost laws = { λ d p o valid fits. post_laws valid (S.laws p.semiring) d.items o fits };

    ghost sums = { λ d p o valid fits. post_has_sums valid (S.laws p.semiring) d.items o fits };

    ghost jobs_once = { λ d p _ _ _ ts t distinct _.
        jobs_once (base_of d.items p) p ts t distinct };

    ghost same_candidate = { λ d e p q.
        same_candidates S.operations (base_of d.items p) (base_of e.items q) p q };
}
