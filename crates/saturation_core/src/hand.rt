ghost use Rattle.std.specs.Prelude.{◌≡◌, ◌<◌, All, IfOk, IfErr, length};
ghost use Rattle.saturation_laws.specs.Jobs.{InputsFit};
ghost use Rattle.saturation_core.specs.Goals.{CanSum};
ghost use Rattle.saturation_core.specs.Settled.{IsWorked};
ghost use Rattle.saturation_core.specs.private.Worked.{IsWorkedJob};
ghost use Rattle.saturation_laws.specs.Ways.{AreRows, HaveFitInputs, worths_of};

use crate::goals::{GoalList, SumList, sums};
use crate::work::candidates;
use pushdown_rules::System;
use saturation_laws::{Direction, Job, JobList, SharedJobs};
use semiring_laws::Semiring;
use std::alloc::Global;
use std::marker::Model;
use weighted_automata::Entry;
use witness_graph::Side;
use wpds_base::Sequence;

/// What a worker takes with it: its seat, the jobs to work out, and what was seen at their goals.
#[derive(Drop)]
pub struct Hand<S: Semiring> {
    pub seat: u32,
    pub jobs: SharedJobs<S>,
    pub goals: GoalList<S>,
}

/// Seats as bits: bit `s` stands for seat `s`.
#[derive(Clone, Copy, Debug, PartialEq, Eq)]
pub struct SeatSet {
    pub bits: u64,
}

/// What a worker is answered that asks for work.
#[derive(Drop)]
pub enum Taken<S: Semiring> {
    /// The transition that waited longest, with its jobs.
    Hand(Hand<S>),
    /// Nothing waits, and these seats have hands, which may make something wait.
    Idle(SeatSet),
    /// Nothing waits and no hand is out. Nothing will come.
    Closed,
}

/// Weights, in order.
pub type WeightList<S> = Sequence<<S as Semiring>::W>;

/// A hand whose jobs are worked out: what its direction makes of each over its system, and what that makes of the weight that
/// was seen at the goal. The weights of their inputs and goals are the semiring's.
#[derive(Drop)]
pub struct Done<'s, S: Semiring, D: Direction<S>> {
    seat: u32,
    jobs: SharedJobs<S>,
    candidates: WeightList<S>,
    goals: GoalList<S>,
    // Made without the book, so that it need not be made while others wait for it.
    sums: SumList<S>,
    direction: D,
    system: &'s System<S>,
}

impl<'s, S: Semiring, D: Direction<S>> Model for Done<'s, S, D> {
    ghost use Rattle.std.specs.Prelude.{◌≡◌};
    ghost use Rattle.saturation_laws.specs.Ways.{HaveFitInputs, worths_of};
    ghost use Rattle.saturation_core.specs.DoneValue.{DoneValue};
    ghost use Rattle.saturation_core.specs.Goals.{sums_of, CanSum};

    ghost Value = { DoneValue S S.W S.Ret D };

    ghost view = { λ d. record {
      seat = d.seat;
      jobs = d.jobs;
      candidates = d.candidates;
      goals = d.goals;
      direction = d.direction;
      system = d.system.now;
    } };

    ghost invariant = { λ d. HaveFitInputs S.operations d.system.now d.jobs
        × (d.candidates ≡ worths_of D.way d.direction d.system.now d.jobs)
        × CanSum (S.operations d.system.now.semiring) d.jobs d.goals d.candidates
        × (d.sums ≡ sums_of (S.operations d.system.now.semiring) d.goals d.candidates) };
}

/// A job that was worked out: what it is worth, what was seen at its goal, and what the worth makes of that.
#[derive(Drop)]
pub(crate) struct Worked<'d, S: Semiring> {
    pub(crate) job: &'d Job<S>,
    pub(crate) worth: &'d S::W,
    pub(crate) seen: &'d Option<Entry<S>>,
    pub(crate) sum: &'d Option<S::W>,
}

/// No memory was left to work out a hand, which is handed back.
#[derive(Drop)]
pub struct WorkFault<S: Semiring> {
    pub hand: Hand<S>,
}

/// No memory was left to settle a hand that was worked out, which is handed back.
#[derive(Drop)]
pub struct SettleFault<'s, S: Semiring, D: Direction<S>> {
    pub done: Done<'s, S, D>,
}

/// How many times a hand that was settled changed the weight of a transition.
#[derive(Clone, Copy, Debug, PartialEq, Eq)]
pub struct Lowered {
    pub count: u64,
}

impl<S: Semiring> Hand<S> {
    /// The seat that it was taken for.
    pub fn seat(&self) -> u32
        ensures { result ≡ self.now.seat }
    {
        self.seat
    }

    /// Its jobs.
    pub fn jobs(&self) -> &JobList<S>
        ensures { result.now ≡ self.now.jobs }
    {
        self.jobs.as_list()
    }

    /// Works out the jobs, and what they make of their goals as these were seen, without the book. It is refused only when out
    /// of memory. What is asked of the hand is what `take` says of each that it gives (its clause `works`), over the book's system
    /// and in its direction. Of these `sums` holds since what the hand saw, and the inputs of its jobs, are transitions of the book.
    pub fn work<'s, D: Direction<S>>(
        self,
        alloc: Global,
        system: &'s System<S>,
        direction: &D,
    ) -> Result<Done<'s, S, D>, WorkFault<S>>
        requires rows { AreRows D.way direction.now system.now self.jobs }
        requires inputs { HaveFitInputs S.operations system.now self.jobs }
        requires sums { CanSum (S.operations system.now.semiring) self.jobs self.goals
            (worths_of D.way direction.now system.now self.jobs) }
        ensures seat { IfOk result (λ d. d.seat ≡ self.seat) }
        ensures jobs { IfOk result (λ d. d.jobs ≡ self.jobs) }
        ensures goals { IfOk result (λ d. d.goals ≡ self.goals) }
        ensures system { IfOk result (λ d. d.system ≡ system.now) }
        ensures direction { IfOk result (λ d. d.direction ≡ direction.now) }
        ensures worked { IfOk result (IsWorked D.way) }
        ensures fault { IfErr result (λ f. f.hand ≡ self) }
    {
        let jobs = self.jobs.as_list().as_slice();
        let Ok(worths) = candidates(alloc, direction, system, jobs) else {
            return Err(WorkFault { hand: self });
        };
        let goals = self.goals.as_slice();
        let Ok(sums) = sums(alloc, system.semiring(), goals, &worths) else {
            return Err(WorkFault { hand: self });
        };
        Ok(Done {
            seat: self.seat,
            jobs: self.jobs,
            candidates: Sequence::from_vec(worths),
            goals: self.goals,
            sums,
            direction: *direction,
            system,
        })
    }
}

impl<'s, S: Semiring, D: Direction<S>> Done<'s, S, D> {
    /// The seat of its hand.
    pub fn seat(&self) -> u32
        ensures { result ≡ self.now.seat }
    {
        self.seat
    }

    /// The jobs that were worked out.
    pub fn jobs(&self) -> &JobList<S>
        ensures value { result.now ≡ self.now.jobs }
        ensures inputs { All (InputsFit (S.operations self.now.system.semiring)) result.now }
    {
        self.jobs.as_list()
    }

    /// What each job is worth, in order: what the direction makes of it over the system.
    pub fn candidates(&self) -> &WeightList<S>
        ensures value { result.now ≡ self.now.candidates }
        ensures worked { IsWorked D.way self.now }
    {
        &self.candidates
    }

    /// What was seen at their goals, in order.
    pub fn goals(&self) -> &GoalList<S>
        ensures value { result.now ≡ self.now.goals }
        ensures fit { let s = S.operations self.now.system.semiring in
            CanSum s self.now.jobs result.now self.now.candidates }
    {
        &self.goals
    }

    // The job of a number, with all that was worked out of it.
    pub(crate) fn worked(&self, k: usize) -> Worked<'_, S>
        requires { k < length self.now.jobs }
        ensures { IsWorkedJob (S.operations self.now.system.semiring) self.now k result }
    {
        Worked {
            job: &self.jobs.as_list().as_slice()[k],
            worth: &self.candidates.as_slice()[k],
            seen: &self.goals.as_slice()[k],
            sum: &self.sums.as_slice()[k],
        }
    }

    /// Which way they were worked out.
    pub fn direction(&self) -> D
        ensures { result ≡ self.now.direction }
    {
        self.direction
    }

    /// The side of that.
    pub fn side(&self) -> Side
        ensures { result ≡ (D.way.tables self.now.direction self.now.system).side }
    {
        self.direction.side()
    }

    /// The system over which they were worked out.
    pub fn system(&self) -> &'s System<S>
        ensures { result.now ≡ self.now.system }
    {
        self.system
    }
}
