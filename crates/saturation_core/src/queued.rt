ghost use Rattle.std.specs.Prelude.{◌≡◌, ◌<◌, ◌≤◌, ◌+◌, ◌^◌, drop, None, Some, MatchOption, IfNone, IfSome, IsSome, IsTrue, OnOk, OnErr, ◌∷◌, []};
ghost use Rattle.wpds_base.specs.Limits.{most_seats};
ghost use Rattle.weighted_automata.specs.Places.{has_place, AreAmong};
ghost use Rattle.weighted_automata.specs.Entries.{entry_at, index_at, lowered};
ghost use Rattle.saturation_laws.specs.Queues.{queued};

use crate::number_queue::NumberQueue;
use semiring_laws::Semiring;
use std::alloc::Global;
use std::marker::Model;
use weighted_automata::{Place, Transitions};
use wpds_base::OutOfMemory;

/// A place, and the number of its transition, which stays as long as the list is only lowered.
#[derive(Clone, Copy, Debug, PartialEq, Eq)]
pub struct NumberedPlace {
    /// The number, counted from 0.
    pub number: u32,
    /// The place.
    pub place: Place,
}

/// Transitions of which some wait, none of them twice, longest first. Those that wait are kept by number, so no place is
/// looked up to take one, nor to queue one that was found.
#[derive(Drop)]
pub struct QueuedTransitions<S: Semiring> {
    transitions: Transitions<S>,
    waiting: NumberQueue,
}

impl<S: Semiring> Model for QueuedTransitions<S> {
    ghost use Rattle.std.specs.Prelude.{◌-◌, length};
    ghost use Rattle.saturation_core.specs.QueuedList.{QueuedList};
    ghost use Rattle.saturation_core.specs.private.Queued.{places_at, IsQueued};

    ghost Value = { QueuedList S S.W S.Ret };

    ghost view = { λ q. record {
      transitions = q.transitions.transitions;
      room = q.transitions.room;
      queue = places_at q.transitions.transitions q.waiting.numbers;
      spare = q.waiting.spare;
      marks = q.waiting.marks - length q.transitions.transitions;
    } };

    ghost invariant = { λ q.
        IsQueued q.transitions.transitions q.waiting.numbers q.waiting.marks };
}

impl<S: Semiring> QueuedTransitions<S> {
    /// No transitions, and none waits. It takes no memory.
    pub fn new(alloc: Global) -> QueuedTransitions<S>
        ensures transitions { result.transitions ≡ [] }
        ensures queue { result.queue ≡ [] }
    {
        QueuedTransitions {
            transitions: Transitions::new(alloc),
            waiting: NumberQueue::new(alloc),
        }
    }

    /// The transitions.
    pub fn list(&self) -> &Transitions<S>
        ensures { result.now.transitions ≡ self.now.transitions }
    {
        &self.transitions
    }

    /// The place that waits longest.
    pub(crate) fn front(&self) -> Option<NumberedPlace>
        ensures place { MatchOption result (self.now.queue ≡ [])
            (λ x. self.now.queue ≡ x.place ∷ drop 1 self.now.queue) }
        ensures at { IfSome result (λ x. index_at x.place self.now.transitions ≡ Some x.number) }
    {
        let number = self.waiting.front()?;
        let place = self.transitions.entry(u64::from(number)).place;
        Some(NumberedPlace { number, place })
    }

    /// Takes the place that waits longest.
    pub fn pop(&mut self) -> Option<NumberedPlace>
        ensures place { MatchOption result (self.old.queue ≡ [])
            (λ x. self.old.queue ≡ x.place ∷ self.new.queue) }
        ensures none { IfNone result (self.new.queue ≡ self.old.queue) }
        ensures at { IfSome result (λ x. index_at x.place self.new.transitions ≡ Some x.number) }
        ensures transitions { self.new.transitions ≡ self.old.transitions }
        ensures spare { IfSome result (λ _. self.old.spare + 1 ≤ self.new.spare) }
    {
        let number = self.waiting.pop()?;
        let place = self.transitions.entry(u64::from(number)).place;
        Some(NumberedPlace { number, place })
    }

    /// Puts the place of a transition last, unless it waits. It takes no memory.
    pub(crate) fn enqueue(&mut self, place: Place)
        requires there { IsSome (entry_at place self.old.transitions) }
        requires spare { 0 < self.old.spare }
        ensures transitions { self.new.transitions ≡ self.old.transitions }
        ensures queue { self.new.queue ≡ queued place self.old.queue }
        ensures spare { self.old.spare ≤ self.new.spare + 1 }
    {
        let Some(k) = self.transitions.find(place) else {
            unreachable!()
        };
        self.waiting.enqueue(k);
    }

    /// Sets the weight and the node of a place, whose transition has the number `at`, or adds it last where there is
    /// none, and puts it last in the queue, unless it waits. It is refused only when out of memory, and then the weight
    /// is gone.
    pub fn lower(
        &mut self,
        alloc: Global,
        place: Place,
        at: Option<u64>,
        weight: S::W,
        node: u64,
    ) -> Result<(), OutOfMemory>
        requires { at ≡ index_at place self.old.transitions }
        ensures transitions { OnOk result
            (self.new.transitions ≡ lowered place weight node self.old.transitions) }
        ensures queue { OnOk result (self.new.queue ≡ queued place self.old.queue) }
        ensures err { OnErr result ((self.new.transitions ≡ self.old.transitions)
            × (self.new.queue ≡ self.old.queue)) }
    {
        match at {
            Some(k) => self.lower_at(place, k, weight, node),
            None => self.add(alloc, place, weight, node),
        }
    }

    // Sets the weight and the node of a place, whose transition has this number, and queues it.
    fn lower_at(&mut self, place: Place, k: u64, weight: S::W, node: u64) -> Result<(), OutOfMemory>
        requires { index_at place self.old.transitions ≡ Some k }
        ensures transitions { OnOk result
            (self.new.transitions ≡ lowered place weight node self.old.transitions) }
        ensures queue { OnOk result (self.new.queue ≡ queued place self.old.queue) }
        ensures err { OnErr result ((self.new.transitions ≡ self.old.transitions)
            × (self.new.queue ≡ self.old.queue)) }
    {
        self.waiting.reserve(1, 0)?;
        self.transitions.lower_at(k, weight, node);
        self.waiting.enqueue(k);
        Ok(())
    }

    // Adds a transition, and queues it.
    fn add(
        &mut self,
        alloc: Global,
        place: Place,
        weight: S::W,
        node: u64,
    ) -> Result<(), OutOfMemory>
        requires { index_at place self.old.transitions ≡ None }
        ensures transitions { OnOk result
            (self.new.transitions ≡ lowered place weight node self.old.transitions) }
        ensures queue { OnOk result (self.new.queue ≡ queued place self.old.queue) }
        ensures err { OnErr result ((self.new.transitions ≡ self.old.transitions)
            × (self.new.queue ≡ self.old.queue)) }
    {
        let count = self.transitions.len() + 1;
        self.waiting.reserve(1, count)?;
        let k = self.transitions.add(alloc, place, weight, node)?;
        self.waiting.enqueue(k);
        Ok(())
    }

    /// Makes room for these places, for `count` transitions more, and in the queue for `count` places more, and one of
    /// each seat. Only the room changes.
    pub(crate) fn reserve(
        &mut self,
        alloc: Global,
        places: &[Place],
        count: usize,
    ) -> Result<(), OutOfMemory>
        requires { count < 2 ^ 63 }
        ensures transitions { self.new.transitions ≡ self.old.transitions }
        ensures queue { self.new.queue ≡ self.old.queue }
        ensures kept { self.old.spare ≤ self.new.spare }
        ensures room { OnOk result (AreAmong places.now self.new.room) }
        ensures spare { OnOk result (count + most_seats ≤ self.new.spare) }
        ensures marks { OnOk result (count ≤ self.new.marks) }
    {
        self.transitions.reserve(alloc, places)?;
        let all = self.transitions.len() + count as u64;
        self.waiting.reserve(count + 64, all)
    }

    /// Sets the weight and the node of a place that has room, and queues it, where there is room. It takes no memory.
    pub(crate) fn lower_reserved(&mut self, alloc: Global, place: Place, weight: S::W, node: u64)
        requires room { IsTrue (has_place place self.old.room) }
        requires spare { 0 < self.old.spare }
        requires marks { 0 < self.old.marks }
        ensures transitions { self.new.transitions
            ≡ lowered place weight node self.old.transitions }
        ensures queue { self.new.queue ≡ queued place self.old.queue }
        ensures kept { AreAmong self.old.room self.new.room }
        ensures spare { self.old.spare ≤ self.new.spare + 1 }
        ensures marks { self.old.marks ≤ self.new.marks + 1 }
    {
        let k = self.transitions.lower(alloc, place, weight, node).unwrap();
        self.waiting.enqueue(k);
    }
}
