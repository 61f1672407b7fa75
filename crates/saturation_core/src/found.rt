ghost use Rattle.std.specs.Prelude.{◌≡◌, ◌<◌, ◌≤◌, ◌+◌, ◌^◌, [], ◌∷◌, Some, IfOk, OnOk, IsTrue, All, length, map};
ghost use Rattle.wpds_base.specs.Limits.{most_seats};
ghost use Rattle.semiring_laws.specs.Semiring.{Fits};
ghost use Rattle.weighted_automata.specs.declared.place.Place.{Place as PlaceValue};
ghost use Rattle.weighted_automata.specs.Places.{has_place};
ghost use Rattle.weighted_automata.specs.Entries.{index_at};
ghost use Rattle.witness_graph.specs.declared.node.Node.TheVariants.{Start};
ghost use Rattle.witness_graph.specs.Nodes.{IsNodeAt};
ghost use Rattle.saturation_laws.specs.States.{apply, apply_all, apply_jobs, change_of};
ghost use Rattle.saturation_laws.specs.Ways.{HaveFitWeights, jobs_of_place};
ghost use Rattle.saturation_laws.specs.declared.opening.Opening.{Opening};
ghost use Rattle.saturation_laws.specs.Openings.{with_edges, pops_at, pops_from, pops};
ghost use Rattle.saturation_core.specs.private.Plans.{put, put_all, AreNodesFrom};
ghost use Rattle.saturation_core.specs.private.Steps.{Becomes, IsKept, HasRoomFor, IsFitChange, rule_change, change_by};

use crate::change::{changed_at, node_at};
use crate::parts::Parts;
use crate::plan::{Plan, Planned};
use crate::queued::{NumberedPlace, QueuedTransitions};
use crate::work::list_changes;
use pushdown_rules::System;
use saturation_laws::{Change, Direction};
use semiring_laws::Semiring;
use std::alloc::Global;
use std::collections::VecDeque;
use weighted_automata::{Label, Place};
use witness_graph::{Graph, Node, Side};
use wpds_base::OutOfMemory;

/// What was found so far: the transitions, which of them wait, and the nodes of their runs. Where a call that adds to it
/// is refused, it is left in an unspecified state.
#[derive(Drop)]
pub(crate) struct Found<S: Semiring> {
    pub(crate) transitions: QueuedTransitions<S>,
    pub(crate) graph: Graph,
}

impl<S: Semiring> Found<S> {
    /// The empty run alone. There are no transitions, and nothing waits.
    pub(crate) fn new(alloc: Global, side: Side) -> Result<Found<S>, OutOfMemory>
        ensures transitions { IfOk result (λ f. f.transitions.transitions ≡ []) }
        ensures nodes { IfOk result (λ f. f.graph.nodes ≡ Start ∷ []) }
        ensures queue { IfOk result (λ f. f.transitions.queue ≡ []) }
        ensures side { IfOk result (λ f. f.graph.side ≡ side) }
    {
        let mut graph = Graph::new(alloc, side);
        graph.push_node(alloc, Node::Start)?;
        Ok(Found {
            transitions: QueuedTransitions::new(alloc),
            graph,
        })
    }

    /// Adds the edges, each with weight one and the node of the empty run.
    pub(crate) fn add_edges(
        &mut self,
        alloc: Global,
        semiring: &S,
        edges: &[Place],
    ) -> Result<(), OutOfMemory>
        requires node { 0 < length self.old.graph.nodes }
        requires kept { IsKept (S.operations semiring.now) self.old }
        ensures state { OnOk result
            (Becomes self.old (with_edges (S.operations semiring.now) edges.now) self.new) }
        ensures kept { OnOk result (IsKept (S.operations semiring.now) self.new) }
        ensures side { self.new.graph.side ≡ self.old.graph.side }
    {
        for edge in edges {
            let one = semiring.one(alloc)?;
            let at = self.transitions.list().find(*edge);
            self.transitions.lower(alloc, *edge, at, one, 0)?;
        }
        Ok(())
    }

    /// Adds what the side adds to the edges: backwards, the place of each pop rule, with the rule's weight.
    pub(crate) fn add_pops_of(
        &mut self,
        alloc: Global,
        side: Side,
        system: &System<S>,
    ) -> Result<(), OutOfMemory>
        requires kept { IsKept (S.operations system.now.semiring) self.old }
        ensures state { OnOk result (Becomes self.old
            (apply_all (S.operations system.now.semiring) (pops side system.now.rules)) self.new) }
        ensures side { self.new.graph.side ≡ self.old.graph.side }
    {
        match side {
            Side::Pre => self.add_pops(alloc, system),
            Side::Post => Ok(()),
        }
    }

    // Adds the place of each pop rule, with the rule's weight.
    fn add_pops(&mut self, alloc: Global, system: &System<S>) -> Result<(), OutOfMemory>
        requires kept { IsKept (S.operations system.now.semiring) self.old }
        ensures state { OnOk result (Becomes self.old
            (apply_all (S.operations system.now.semiring) (pops_from 0 system.now.rules))
            self.new) }
        ensures side { self.new.graph.side ≡ self.old.graph.side }
    {
        for k in 0..system.rules() {
            self.add_pop(alloc, system, k)?;
        }
        Ok(())
    }

    // Adds the place of a rule, where it is a pop rule.
    fn add_pop(&mut self, alloc: Global, system: &System<S>, k: u32) -> Result<(), OutOfMemory>
        requires number { k < length system.now.rules }
        requires kept { IsKept (S.operations system.now.semiring) self.old }
        ensures state { OnOk result (Becomes self.old
            (apply_all (S.operations system.now.semiring) (pops_at k system.now.rules)) self.new) }
        ensures kept { OnOk result (IsKept (S.operations system.now.semiring) self.new) }
        ensures side { self.new.graph.side ≡ self.old.graph.side }
    {
        let rule = system.rule(k);
        if !rule.right.as_slice().is_empty() {
            return Ok(());
        }
        let place = Place {
            from: rule.control,
            label: Label::Symbol(rule.symbol),
            to: rule.to,
        };
        let semiring = system.semiring();
        self.apply_rule(alloc, semiring, place, &rule.weight, k)?;
        Ok(())
    }

    // Combines the weight of a rule into a place, whose runs get the rule alone.
    fn apply_rule(
        &mut self,
        alloc: Global,
        semiring: &S,
        place: Place,
        weight: &S::W,
        rule: u32,
    ) -> Result<(), OutOfMemory>
        requires kept { IsKept (S.operations semiring.now) self.old }
        requires weight { Fits (S.operations semiring.now) weight.now }
        ensures state { OnOk result (Becomes self.old
            (apply (S.operations semiring.now) (rule_change place weight.now rule)) self.new) }
        ensures kept { OnOk result (IsKept (S.operations semiring.now) self.new) }
        ensures side { self.new.graph.side ≡ self.old.graph.side }
    {
        let parts = Parts {
            rule: Some(rule),
            first: None,
            second: None,
        };
        self.apply_change(alloc, semiring, place, weight, parts)
    }

    // Combines a weight into a place, whose runs get these parts. The place is looked up once.
    fn apply_change(
        &mut self,
        alloc: Global,
        semiring: &S,
        place: Place,
        weight: &S::W,
        parts: Parts,
    ) -> Result<(), OutOfMemory>
        requires kept { IsKept (S.operations semiring.now) self.old }
        requires fit { IsFitChange (S.operations semiring.now) (length self.old.graph.nodes)
            (change_by place weight.now parts) }
        ensures state { OnOk result (Becomes self.old
            (apply (S.operations semiring.now) (change_by place weight.now parts)) self.new) }
        ensures kept { OnOk result (IsKept (S.operations semiring.now) self.new) }
        ensures nodes { OnOk result
            (length self.old.graph.nodes ≤ length self.new.graph.nodes) }
        ensures side { self.new.graph.side ≡ self.old.graph.side }
    {
        let transitions = self.transitions.list();
        let at = transitions.find(place);
        let Some(new) = changed_at(alloc, semiring, transitions, at, weight)? else {
            return Ok(());
        };
        let node = Node::Lower {
            before: node_at(transitions, at),
            rule: parts.rule,
            first: parts.first,
            second: parts.second,
        };
        let number = self.graph.push_node(alloc, node)?;
        self.transitions.lower(alloc, place, at, new, number)?;
        Ok(())
    }

    // Combines a change of a list into its goal.
    fn apply_listed(
        &mut self,
        alloc: Global,
        semiring: &S,
        change: &Change<S>,
    ) -> Result<(), OutOfMemory>
        requires kept { IsKept (S.operations semiring.now) self.old }
        requires fit { IsFitChange (S.operations semiring.now) (length self.old.graph.nodes)
            change.now }
        ensures state { OnOk result
            (Becomes self.old (apply (S.operations semiring.now) change.now) self.new) }
        ensures kept { OnOk result (IsKept (S.operations semiring.now) self.new) }
        ensures nodes { OnOk result
            (length self.old.graph.nodes ≤ length self.new.graph.nodes) }
        ensures side { self.new.graph.side ≡ self.old.graph.side }
    {
        let parts = Parts {
            rule: change.rule,
            first: change.first,
            second: change.second,
        };
        self.apply_change(alloc, semiring, change.goal, &change.weight, parts)
    }

    // Combines changes into their goals, one after another.
    fn apply_changes(
        &mut self,
        alloc: Global,
        semiring: &S,
        changes: &[Change<S>],
    ) -> Result<(), OutOfMemory>
        requires kept { IsKept (S.operations semiring.now) self.old }
        requires fit { All (IsFitChange (S.operations semiring.now)
            (length self.old.graph.nodes)) changes.now }
        ensures state { OnOk result
            (Becomes self.old (apply_all (S.operations semiring.now) changes.now) self.new) }
        ensures side { self.new.graph.side ≡ self.old.graph.side }
    {
        for change in changes {
            self.apply_listed(alloc, semiring, change)?;
        }
        Ok(())
    }

    /// Combines what the transition at a place gives into the goals. The buffer is emptied first: only its memory counts.
    pub(crate) fn apply_place<D: Direction<S>>(
        &mut self,
        alloc: Global,
        direction: &D,
        system: &System<S>,
        taken: NumberedPlace,
        buffer: &mut Vec<Change<S>>,
    ) -> Result<(), OutOfMemory>
        requires fits { (o : Opening) × IsTrue (D.way.fits_opening direction.now system.now o) }
        requires weights { HaveFitWeights S.operations system.now self.old.transitions.transitions }
        requires at { index_at taken.place self.old.transitions.transitions ≡ Some taken.number }
        requires kept { IsKept (S.operations system.now.semiring) self.old }
        requires fit { let s = S.operations system.now.semiring in
            let d = D.way.tables direction.now system.now in
            let ts = self.old.transitions.transitions in
            let jobs = jobs_of_place S.operations D.way direction.now system.now taken.place ts in
            All (IsFitChange s (length self.old.graph.nodes)) (map (change_of s d) jobs) }
        ensures state { let s = S.operations system.now.semiring in
            let d = D.way.tables direction.now system.now in
            let ts = self.old.transitions.transitions in
            let jobs = jobs_of_place S.operations D.way direction.now system.now taken.place ts in
            OnOk result (Becomes self.old (apply_jobs s d jobs) self.new) }
        ensures side { self.new.graph.side ≡ self.old.graph.side }
    {
        buffer.clear();
        list_changes(alloc, direction, system, &self.transitions, taken, buffer)?;
        self.apply_changes(alloc, system.semiring(), buffer.as_slice())?;
        Ok(())
    }

    /// Makes room for the lowerings of a plan, and in the queue for 64 places more. Only the room changes.
    pub(crate) fn make_room(&mut self, alloc: Global, plan: &Plan<S>) -> Result<(), OutOfMemory>
        ensures state { Becomes self.old (λ st. st) self.new }
        ensures side { self.new.graph.side ≡ self.old.graph.side }
        ensures kept { self.old.transitions.spare ≤ self.new.transitions.spare }
        ensures room { OnOk result (HasRoomFor plan.now self.new) }
        ensures queue { OnOk result (length plan.now + most_seats ≤ self.new.transitions.spare) }
    {
        let places = plan.goals(alloc)?;
        let count = plan.len();
        self.transitions.reserve(alloc, &places, count)?;
        self.graph.reserve(alloc, count as u64)?;
        Ok(())
    }

    /// Makes the lowerings of a plan in order, where there is room for them. It takes no memory.
    pub(crate) fn lower_all(&mut self, alloc: Global, plan: Plan<S>)
        requires nodes { AreNodesFrom (length self.old.graph.nodes) plan }
        requires room { HasRoomFor plan self.old }
        ensures state { Becomes self.old (put_all plan) self.new }
        ensures side { self.new.graph.side ≡ self.old.graph.side }
        ensures queue { self.old.transitions.spare ≤ self.new.transitions.spare + length plan }
    {
        let mut rest = VecDeque::from(plan.into_steps());
        'steps: while let Some(step) = rest.pop_front() {
            self.lower(alloc, step);
        }
    }

    // Makes one lowering, where there is room for it. It takes no memory.
    fn lower(&mut self, alloc: Global, step: Planned<S>)
        requires node { IsNodeAt (length self.old.graph.nodes) step.node }
        requires place { IsTrue (has_place step.goal self.old.transitions.room) }
        requires spare { 0 < self.old.graph.spare }
        requires queue { 0 < self.old.transitions.spare }
        requires marks { 0 < self.old.transitions.marks }
        ensures state { Becomes self.old (put step) self.new }
        ensures room { (x : PlaceValue) → IsTrue (has_place x self.old.transitions.room)
            → IsTrue (has_place x self.new.transitions.room) }
        ensures spare { self.old.graph.spare ≤ self.new.graph.spare + 1 }
        ensures side { self.new.graph.side ≡ self.old.graph.side }
        ensures queue { self.old.transitions.spare ≤ self.new.transitions.spare + 1 }
        ensures marks { self.old.transitions.marks ≤ self.new.transitions.marks + 1 }
    {
        let number = self.graph.push_node(alloc, step.node).unwrap();
        self.transitions
            .lower_reserved(alloc, step.goal, step.weight, number);
    }
}
