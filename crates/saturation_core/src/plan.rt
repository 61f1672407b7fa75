ghost use Rattle.std.specs.Prelude.{◌≡◌, ◌↔◌, ◌<◌, ◌+◌, ◌^◌, [], ◌++◌, ℕ, List, All, Some, IsTrue, IfOk, OnOk, IfSome, length, slice_get, option_map, option_to_list, map};
ghost use Rattle.semiring_laws.specs.Semiring.{Fits};
ghost use Rattle.weighted_automata.specs.declared.transitions.Entry.{Entry as EntryValue};
ghost use Rattle.weighted_automata.specs.Entries.{entry_at, index_where};
ghost use Rattle.weighted_automata.specs.Places.{same_place, AreAmong};
ghost use Rattle.saturation_laws.specs.Openings.{AreKept};
ghost use Rattle.saturation_core.specs.private.Plans.{change_with, changes_with, put_from, lowering_of, plan_of, goal_of};
ghost use Rattle.saturation_core.specs.Goals.{StillTell, StillTells};
ghost use Rattle.saturation_core.specs.private.Steps.{IsKept};
ghost use Rattle.saturation_core.specs.private.Worked.{IsChanged, IsSummed};
ghost use Rattle.saturation_core.specs.private.Finding.{found_at};

use crate::change::{changed_at, node_at, weight_after};
use crate::found::Found;
use crate::goals::node_seen;
use crate::hand::{Done, Worked};
use key_rows::KeyRows;
use saturation_laws::Direction;
use semiring_laws::Semiring;
use std::alloc::Global;
use std::marker::Model;
use weighted_automata::{Place, Transitions};
use witness_graph::Node;
use wpds_base::OutOfMemory;

/// A lowering that is still to be made: the goal, its new weight, and the node of its runs.
#[derive(Drop)]
pub(crate) struct Planned<S: Semiring> {
    pub(crate) goal: Place,
    pub(crate) weight: S::W,
    pub(crate) node: Node,
}

/// Lowerings that are still to be made, in order. Where the first and the last of a place stand is looked
/// up, and not searched.
#[derive(Drop)]
pub(crate) struct Plan<S: Semiring> {
    steps: Vec<Planned<S>>,
    // The rows of the goals.
    rows: KeyRows<Place>,
}

impl<S: Semiring> Model for Plan<S> {
    ghost use Rattle.std.specs.Prelude.{List};
    ghost use Rattle.saturation_core.specs.declared.plan.Planned.{Planned as PlannedValue};
    ghost use Rattle.saturation_core.specs.private.GoalRows.{AreGoals};

    ghost Value = { List (PlannedValue S S.W S.Ret) };

    ghost view = { λ p. p.steps.items };

    ghost invariant = { λ p. AreGoals p.steps.items p.rows };
}

impl<S: Semiring> Plan<S> {
    /// No lowering. It takes no memory.
    pub(crate) fn new(alloc: Global) -> Plan<S>
        ensures { result ≡ [] }
    {
        Plan {
            steps: Vec::new(alloc),
            rows: KeyRows::new(alloc),
        }
    }

    /// How many lowerings there are.
    pub(crate) fn len(&self) -> usize
        ensures len { result ≡ length self.now }
        ensures limit { result < 2 ^ 63 }
    {
        self.steps.len()
    }

    // The lowering with a number.
    fn step(&self, k: u64) -> &Planned<S>
        requires { k < length self.now }
        ensures { slice_get self.now k ≡ Some result.now }
    {
        &self.steps[k as usize]
    }

    /// Where the last lowering of a place stands.
    pub(crate) fn last_at(&self, place: Place) -> Option<u64>
        ensures within { IfSome result (λ k. k < length self.now) }
        ensures limit { IfSome result (λ k. k < 2 ^ 63) }
        ensures found { (n : ℕ) (ts : List (EntryValue S S.W S.Ret))
            → entry_at place (put_from n self.now ts) ≡ found_at place n self.now result
            (entry_at place ts) }
    {
        self.rows.last(place)
    }

    // Whether the lowering of this number is the first of its place.
    fn is_first(&self, place: Place, k: u64) -> bool
        ensures { IsTrue result ↔ (index_where (λ l. same_place l.goal place) self.now ≡ Some k) }
    {
        self.rows.first(place) == Some(k)
    }

    /// Adds a lowering, where there is one.
    pub(crate) fn add(&mut self, step: Option<Planned<S>>) -> Result<(), OutOfMemory>
        ensures { OnOk result (self.new ≡ self.old ++ option_to_list step) }
    {
        let Some(step) = step else {
            return Ok(());
        };
        let goal = step.goal;
        self.rows.reserve(Some(goal), 1)?;
        self.steps.push(step)?;
        self.rows.push(Some(goal));
        Ok(())
    }

    /// The goals, each once.
    pub(crate) fn goals(&self, alloc: Global) -> Result<Vec<Place>, OutOfMemory>
        ensures { IfOk result (λ v. AreAmong (map goal_of self.now) v.items) }
    {
        let mut places = Vec::new(alloc);
        for (k, step) in self.steps.iter().enumerate() {
            if self.is_first(step.goal, k as u64) {
                places.push(step.goal)?;
            }
        }
        Ok(places)
    }

    /// The lowerings alone.
    pub(crate) fn into_steps(self) -> Vec<Planned<S>>
        ensures { result.items ≡ self }
    {
        self.steps
    }
}

// What a job makes of its goal: the node that is there, and the new weight, where the job changes it.
#[derive(Drop)]
struct Changed<S: Semiring> {
    before: Option<u64>,
    weight: Option<S::W>,
}

// What was made of a weight that was seen, once more.
fn copied<S: Semiring>(
    alloc: Global,
    semiring: &S,
    sum: &Option<S::W>,
) -> Result<Option<S::W>, OutOfMemory>
    requires { IfSome sum.now (Fits (S.operations semiring.now)) }
    ensures { IfOk result (λ o. o ≡ sum.now) }
{
    match sum {
        Some(weight) => Ok(Some(semiring.copy(alloc, weight)?)),
        None => Ok(None),
    }
}

// What a job makes of the transition at its goal. What was made of that transition as it was seen is taken, where the goal has
// the same node still.
fn changed_now<S: Semiring>(
    alloc: Global,
    semiring: &S,
    transitions: &Transitions<S>,
    worked: &Worked<'_, S>,
) -> Result<Changed<S>, OutOfMemory>
    requires kept { (n : ℕ) × AreKept (S.operations semiring.now) transitions.now.transitions n }
    requires sums { IsSummed (S.operations semiring.now) worked.now }
    requires tells { StillTells transitions.now.transitions worked.now.job.now.goal
        worked.now.seen.now }
    ensures { IfOk result (IsChanged (S.operations semiring.now) transitions.now.transitions
        worked.now) }
{
    let at = transitions.find(worked.job.goal);
    let before = node_at(transitions, at);
    let weight = if before == node_seen(worked.seen) {
        copied(alloc, semiring, worked.sum)?
    } else {
        changed_at(alloc, semiring, transitions, at, worked.worth)?
    };
    Ok(Changed { before, weight })
}

// What a job makes of its goal after a plan, whose nodes are numbered from `nodes` on.
fn changed_after<S: Semiring>(
    alloc: Global,
    semiring: &S,
    transitions: &Transitions<S>,
    nodes: u64,
    plan: &Plan<S>,
    worked: &Worked<'_, S>,
) -> Result<Changed<S>, OutOfMemory>
    requires few { nodes < 2 ^ 63 }
    requires now { AreKept (S.operations semiring.now) transitions.now.transitions nodes }
    requires then { AreKept (S.operations semiring.now)
        (put_from nodes plan.now transitions.now.transitions) (nodes + length plan.now) }
    requires sums { IsSummed (S.operations semiring.now) worked.now }
    requires tells { StillTells transitions.now.transitions worked.now.job.now.goal
        worked.now.seen.now }
    ensures { IfOk result (IsChanged (S.operations semiring.now)
        (put_from nodes plan.now transitions.now.transitions) worked.now) }
{
    match plan.last_at(worked.job.goal) {
        Some(k) => {
            let old = &plan.step(k).weight;
            let weight = weight_after(alloc, semiring, old, worked.worth)?;
            Ok(Changed {
                before: Some(nodes + k),
                weight,
            })
        }
        None => changed_now(alloc, semiring, transitions, worked),
    }
}

// What a job that was worked out lowers after a plan, whose nodes are numbered from `nodes` on.
fn lowering<S: Semiring>(
    alloc: Global,
    semiring: &S,
    transitions: &Transitions<S>,
    nodes: u64,
    plan: &Plan<S>,
    worked: &Worked<'_, S>,
) -> Result<Option<Planned<S>>, OutOfMemory>
    requires few { nodes < 2 ^ 63 }
    requires now { AreKept (S.operations semiring.now) transitions.now.transitions nodes }
    requires then { AreKept (S.operations semiring.now)
        (put_from nodes plan.now transitions.now.transitions) (nodes + length plan.now) }
    requires sums { IsSummed (S.operations semiring.now) worked.now }
    requires tells { StillTells transitions.now.transitions worked.now.job.now.goal
        worked.now.seen.now }
    ensures { IfOk result (λ o. o ≡ lowering_of (S.operations semiring.now)
        (change_with worked.now.job.now worked.now.worth.now)
        (put_from nodes plan.now transitions.now.transitions)) }
{
    let changed = changed_after(alloc, semiring, transitions, nodes, plan, worked)?;
    let Changed { before, weight } = changed;
    let Some(weight) = weight else {
        return Ok(None);
    };
    let view = worked.job.view();
    let node = Node::Lower {
        before,
        rule: view.named_rule(),
        first: view.first_node(),
        second: view.second_node(),
    };
    Ok(Some(Planned {
        goal: worked.job.goal,
        weight,
        node,
    }))
}

/// What the jobs of a hand that was worked out lower, one after the other, where the first new node stands next in the graph.
pub(crate) fn plan_jobs<S: Semiring, D: Direction<S>>(
    alloc: Global,
    semiring: &S,
    found: &Found<S>,
    done: &Done<'_, S, D>,
) -> Result<Plan<S>, OutOfMemory>
    requires semiring { semiring.now ≡ done.now.system.semiring }
    requires len { length done.now.candidates ≡ length done.now.jobs }
    requires worths { All (Fits (S.operations semiring.now)) done.now.candidates }
    requires kept { IsKept (S.operations semiring.now) found.now }
    requires tell { StillTell found.now.transitions.transitions done.now.jobs done.now.goals }
    ensures { IfOk result (λ v. v ≡ plan_of (S.operations semiring.now)
        (changes_with done.now.jobs done.now.candidates) (length found.now.graph.nodes)
        found.now.transitions.transitions) }
{
    let transitions = found.transitions.list();
    let nodes = found.graph.len();
    let mut plan = Plan::new(alloc);
    for k in 0..done.jobs().len() {
        let worked = done.worked(k);
        let step = lowering(alloc, semiring, transitions, nodes, &plan, &worked)?;
        plan.add(step)?;
    }
    Ok(plan)
}
