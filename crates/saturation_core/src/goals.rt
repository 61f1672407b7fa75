//! What a hand sees at the goals of its jobs, so that what their worths make of it is worked out without the book.
ghost use Rattle.std.specs.Prelude.{◌≡◌, ◌↔◌, ℕ, All, IfOk, IfSome, IsTrue, length, option_map};
ghost use Rattle.semiring_laws.specs.Semiring.{Fits};
ghost use Rattle.weighted_automata.specs.Entries.{entry_at};
ghost use Rattle.saturation_laws.specs.Jobs.{node_of};
ghost use Rattle.saturation_laws.specs.States.{weight_of};
ghost use Rattle.saturation_laws.specs.Openings.{AreKept, changed_weight};
ghost use Rattle.saturation_core.specs.Goals.{goals_of, sums_of, FitsGoal, StillTell, StillTells};

use crate::change::{weight_after, weight_from_zero};
use saturation_laws::Job;
use semiring_laws::Semiring;
use std::alloc::Global;
use weighted_automata::{Entry, Place, Transitions};
use wpds_base::{OutOfMemory, Sequence};

/// The transition at the goal of each job as it was seen, where there was one, in order.
pub type GoalList<S> = Sequence<Option<Entry<S>>>;

/// What each worth makes of the weight that was seen, where it changes it, in order.
pub(crate) type SumList<S> = Sequence<Option<<S as Semiring>::W>>;

// The transition at a place, where there is one.
fn seen_at<S: Semiring>(
    alloc: Global,
    semiring: &S,
    transitions: &Transitions<S>,
    place: Place,
) -> Result<Option<Entry<S>>, OutOfMemory>
    requires { (n : ℕ) × AreKept (S.operations semiring.now) transitions.now.transitions n }
    ensures { IfOk result (λ o. o ≡ entry_at place transitions.now.transitions) }
{
    let Some(k) = transitions.find(place) else {
        return Ok(None);
    };
    let entry = transitions.entry(k);
    let weight = semiring.copy(alloc, &entry.weight)?;
    Ok(Some(Entry {
        place: entry.place,
        weight,
        node: entry.node,
    }))
}

/// The transition at the goal of each job, where there is one.
pub(crate) fn list_goals<S: Semiring>(
    alloc: Global,
    semiring: &S,
    transitions: &Transitions<S>,
    jobs: &[Job<S>],
) -> Result<GoalList<S>, OutOfMemory>
    requires { (n : ℕ) × AreKept (S.operations semiring.now) transitions.now.transitions n }
    ensures { IfOk result (λ gs. gs ≡ goals_of jobs.now transitions.now.transitions) }
{
    let mut goals = Vec::new(alloc);
    for job in jobs {
        goals.push(seen_at(alloc, semiring, transitions, job.goal)?)?;
    }
    Ok(Sequence::from_vec(goals))
}

// What a worth makes of the weight that was seen, where it changes it.
fn sum<S: Semiring>(
    alloc: Global,
    semiring: &S,
    seen: &Option<Entry<S>>,
    worth: &S::W,
) -> Result<Option<S::W>, OutOfMemory>
    requires seen { FitsGoal (S.operations semiring.now) seen.now }
    requires worth { Fits (S.operations semiring.now) worth.now }
    ensures { let s = S.operations semiring.now in
        IfOk result (λ o. o ≡ changed_weight s (weight_of s seen.now) worth.now) }
{
    match seen {
        Some(entry) => weight_after(alloc, semiring, &entry.weight, worth),
        None => weight_from_zero(alloc, semiring, worth),
    }
}

/// What each worth makes of the weight that was seen, where it changes it.
pub(crate) fn sums<S: Semiring>(
    alloc: Global,
    semiring: &S,
    goals: &[Option<Entry<S>>],
    worths: &[S::W],
) -> Result<SumList<S>, OutOfMemory>
    requires len { length goals.now ≡ length worths.now }
    requires goals { All (FitsGoal (S.operations semiring.now)) goals.now }
    requires worths { All (Fits (S.operations semiring.now)) worths.now }
    ensures { IfOk result (λ v. v ≡ sums_of (S.operations semiring.now) goals.now worths.now) }
{
    let mut made = Vec::new(alloc);
    for i in 0..worths.len() {
        made.push(sum(alloc, semiring, &goals[i], &worths[i])?)?;
    }
    Ok(Sequence::from_vec(made))
}

/// The node that was seen.
pub(crate) fn node_seen<S: Semiring>(seen: &Option<Entry<S>>) -> Option<u64>
    ensures { result ≡ option_map node_of seen.now }
{
    match seen {
        Some(entry) => Some(entry.node),
        None => None,
    }
}

// Whether a place that has the node that was seen has the transition that was seen.
fn still_tells<S: Semiring>(
    semiring: &S,
    transitions: &Transitions<S>,
    place: Place,
    seen: &Option<Entry<S>>,
) -> bool
    requires kept { (n : ℕ) × AreKept (S.operations semiring.now) transitions.now.transitions n }
    requires seen { FitsGoal (S.operations semiring.now) seen.now }
    ensures { IsTrue result ↔ StillTells transitions.now.transitions place seen.now }
{
    match (transitions.find(place), seen) {
        (Some(k), Some(seen)) => {
            let entry = transitions.entry(k);
            entry.node != seen.node
                || entry.place == seen.place && semiring.same(&entry.weight, &seen.weight)
        }
        _ => true,
    }
}

/// Whether each goal that has the node that was seen has the transition that was seen.
pub(crate) fn still_tell<S: Semiring>(
    semiring: &S,
    transitions: &Transitions<S>,
    jobs: &[Job<S>],
    goals: &[Option<Entry<S>>],
) -> bool
    requires kept { (n : ℕ) × AreKept (S.operations semiring.now) transitions.now.transitions n }
    requires goals { All (FitsGoal (S.operations semiring.now)) goals.now }
    ensures { IsTrue result ↔ StillTell transitions.now.transitions jobs.now goals.now }
{
    if goals.len() != jobs.len() {
        return false;
    }
    for i in 0..jobs.len() {
        if !still_tells(semiring, transitions, jobs[i].goal, &goals[i]) {
            return false;
        }
    }
    true
}
