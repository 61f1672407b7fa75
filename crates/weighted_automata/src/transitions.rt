ghost use Rattle.std.specs.Prelude.{◌≡◌, ◌+◌, ◌^◌, ◌<◌, ◌++◌, List, [], ◌∷◌, None, Some, length, slice_get, filter, IsTrue, IsFalse, IsOk, IsSome, IfOk, OnOk, OnErr, IfSome, option_and_then};
ghost use Rattle.weighted_automata.specs.declared.place.Place.{Place as PlaceValue};
ghost use Rattle.weighted_automata.specs.Places.{same_label, has_place, AreAmong};
ghost use Rattle.weighted_automata.specs.Entries.{entry_at, index_at, index_where, index_from, lowered, Present, indices_from, is_from, is_out_of, is_into, is_empty_into, HasDistinctPlaces};
ghost use Rattle.weighted_automata.specs.declared.place.Label.TheVariants.{Empty};
ghost use Rattle.weighted_automata.specs.declared.transitions.Entry.{Entry as EntryValue};

use crate::index::{PlaceIndex, Source};
use crate::room::{add, position, wait};
use crate::{Label, Place};
use key_rows::{Keyed, KeyedList};
use semiring_laws::Semiring;
use std::alloc::Global;
use std::collections::VecDeque;
use std::marker::Model;
use wpds_base::OutOfMemory;

/// A transition, with its weight and the number of the node that stands for its runs.
#[derive(Drop)]
pub struct Entry<S: Semiring> {
    pub place: Place,
    pub weight: S::W,
    pub node: u64,
}

impl<S: Semiring> Keyed<Place> for Entry<S> {
    ghost key_of = { λ t. t.place };

    fn key(&self) -> Place {
        self.place
    }
}

/// The transitions that were found, in order of addition, at most one for each place.
///
/// Some places have room: a transition there can be lowered or added without memory. Each place that
/// has a transition has room, and [`Transitions::reserve`] makes it for others.
#[derive(Drop)]
pub struct Transitions<S: Semiring> {
    // Each is found by its place.
    entries: KeyedList<Place, Entry<S>>,
    // Where their places stand, by what they have in common.
    index: PlaceIndex,
    // Places for which `entries` and `index` have room beside their own.
    waiting: VecDeque<Place>,
    // Each place that ever waited.
    asked: KeyedList<Place, Place>,
}

impl<S: Semiring> Model for Transitions<S> {
    ghost use Rattle.std.specs.Prelude.{◌≤◌, ◌++◌, length};
    ghost use Rattle.weighted_automata.specs.Entries.{HasDistinctPlaces, TransitionList, places_of};
    ghost use Rattle.weighted_automata.specs.private.Index.{AreAsked, AreIndexed, HasRoomFor};

    ghost Value = { TransitionList S S.W S.Ret };

    ghost view = { λ t. record {
      transitions = t.entries.members;
      room = places_of t.entries.members ++ t.waiting.items;
    } };

    ghost invariant = { λ t. HasDistinctPlaces t.entries.members
        × (length t.waiting.items ≤ t.entries.spare)
        × AreIndexed (places_of t.entries.members) t.index
        × HasRoomFor t.waiting.items t.index
        × AreAsked t.waiting.items t.asked };
}

impl<S: Semiring> Transitions<S> {
    /// No transitions, and no room. It takes no memory.
    pub fn new(alloc: Global) -> Transitions<S>
        ensures { result ≡ record { transitions = []; room = [] } }
    {
        Transitions {
            entries: KeyedList::new(alloc),
            index: PlaceIndex::new(alloc),
            waiting: VecDeque::new(alloc),
            asked: KeyedList::new(alloc),
        }
    }

    /// How many transitions there are.
    pub fn len(&self) -> u64
        ensures len { result ≡ length self.now.transitions }
        ensures limit { result < 2 ^ 63 }
        ensures distinct { HasDistinctPlaces self.now.transitions }
    {
        self.entries.len() as u64
    }

    /// The `k`-th transition in order of addition.
    pub fn entry(&self, k: u64) -> &Entry<S>
        requires { k < length self.now.transitions }
        ensures entry { slice_get self.now.transitions k ≡ Some result.now }
        ensures present { Present self.now.transitions result.now }
    {
        self.entries.get(k as usize)
    }

    /// Where the transition at a place stands.
    pub fn find(&self, place: Place) -> Option<u64>
        ensures index { result ≡ index_at place self.now.transitions }
        ensures entry { option_and_then (slice_get self.now.transitions) result
            ≡ entry_at place self.now.transitions }
    {
        match self.entries.find(place) {
            Some(k) => Some(u64::from(k)),
            None => None,
        }
    }

    /// Where the first transition stands that goes from a state and reads a label.
    pub fn first_from(&self, state: u32, label: Label) -> Option<u64>
        ensures { result ≡ index_where (is_from state label) self.now.transitions }
    {
        self.index.sources.first(Source { state, label })
    }

    /// Where the next transition stands that goes from the state of the `k`-th and reads its label.
    pub fn next_from(&self, k: u64) -> Option<u64>
        ensures row { (t : EntryValue S S.W S.Ret) → slice_get self.now.transitions k ≡ Some t →
            result ≡ index_from (is_from t.place.from t.place.label) (k + 1) self.now.transitions }
        ensures past { slice_get self.now.transitions k ≡ None → result ≡ None }
    {
        self.index.sources.next(k)
    }

    /// Where the first transition stands that goes from a state, whatever it reads.
    pub fn first_out_of(&self, state: u32) -> Option<u64>
        ensures { result ≡ index_where (is_out_of state) self.now.transitions }
    {
        self.index.states.first(state)
    }

    /// Where the next transition stands that goes from the state of the `k`-th.
    pub fn next_out_of(&self, k: u64) -> Option<u64>
        ensures row { (t : EntryValue S S.W S.Ret) → slice_get self.now.transitions k ≡ Some t →
            result ≡ index_from (is_out_of t.place.from) (k + 1) self.now.transitions }
        ensures past { slice_get self.now.transitions k ≡ None → result ≡ None }
    {
        self.index.states.next(k)
    }

    /// Where the first transition stands that goes to a state and reads nothing.
    pub fn first_empty_into(&self, state: u32) -> Option<u64>
        ensures { result ≡ index_where (is_empty_into state) self.now.transitions }
    {
        self.index.empties.first(state)
    }

    /// Where the next transition stands that goes to the state of the `k`-th and reads nothing, if the
    /// `k`-th reads nothing.
    pub fn next_empty_into(&self, k: u64) -> Option<u64>
        ensures row { (t : EntryValue S S.W S.Ret) → slice_get self.now.transitions k ≡ Some t →
            t.place.label ≡ Empty →
            result ≡ index_from (is_empty_into t.place.to) (k + 1) self.now.transitions }
        ensures others { (t : EntryValue S S.W S.Ret) → slice_get self.now.transitions k ≡ Some t →
            IsFalse (same_label t.place.label Empty) → result ≡ None }
        ensures past { slice_get self.now.transitions k ≡ None → result ≡ None }
    {
        self.index.empties.next(k)
    }

    /// Where the `k`-th transition stands, counted from 0, of those that go from a state and read a label.
    pub fn from_state(&self, state: u32, label: Label, k: usize) -> Option<u64>
        ensures index { result
            ≡ slice_get (indices_from (is_from state label) 0 self.now.transitions) k }
        ensures entry { option_and_then (slice_get self.now.transitions) result
            ≡ slice_get (filter (is_from state label) self.now.transitions) k }
    {
        let mut left = k;
        for i in 0..self.entries.len() {
            let entry = self.entries.get(i);
            if entry.place.is_from(state, label) {
                if left == 0 {
                    return Some(i as u64);
                }
                left -= 1;
            }
        }
        None
    }

    /// Where the `k`-th transition stands, counted from 0, of those that go to a state.
    pub fn into_state(&self, state: u32, k: usize) -> Option<u64>
        ensures index { result ≡ slice_get (indices_from (is_into state) 0 self.now.transitions) k }
        ensures entry { option_and_then (slice_get self.now.transitions) result
            ≡ slice_get (filter (is_into state) self.now.transitions) k }
    {
        let mut left = k;
        for i in 0..self.entries.len() {
            let entry = self.entries.get(i);
            if entry.place.to == state {
                if left == 0 {
                    return Some(i as u64);
                }
                left -= 1;
            }
        }
        None
    }

    /// Replaces the weight and the node of a place, or adds the place last, and says where it stands.
    /// It is refused only when out of memory, and never at a place that has a transition or room. The weight is gone then.
    pub fn lower(
        &mut self,
        alloc: Global,
        place: Place,
        weight: S::W,
        node: u64,
    ) -> Result<u64, OutOfMemory>
        ensures ok { OnOk result (
            self.new.transitions ≡ lowered place weight node self.old.transitions) }
        ensures index { IfOk result (λ k. index_at place self.new.transitions ≡ Some k) }
        ensures err { OnErr result (self.new.transitions ≡ self.old.transitions) }
        ensures kept { AreAmong self.old.room self.new.room }
        ensures present { IsSome (entry_at place self.old.transitions) → IsOk result }
        ensures room { IsTrue (has_place place self.old.room) → IsOk result }
        ensures only { AreAmong self.new.room (place ∷ self.old.room) }
        ensures room_stays { OnErr result (self.new.room ≡ self.old.room) }
    {
        match self.find(place) {
            Some(k) => {
                let entry = Entry {
                    place,
                    weight,
                    node,
                };
                self.entries.replace(k as usize, entry);
                Ok(k)
            }
            None => self.add(alloc, place, weight, node),
        }
    }

    /// Adds a transition last, at a place that has none, and says where it stands. It is refused only when out of memory,
    /// and never at a place that has room. The weight is gone then.
    pub fn add(
        &mut self,
        _alloc: Global,
        place: Place,
        weight: S::W,
        node: u64,
    ) -> Result<u64, OutOfMemory>
        requires { index_at place self.old.transitions ≡ None }
        ensures ok { OnOk result (
            self.new.transitions ≡ lowered place weight node self.old.transitions) }
        ensures index { IfOk result (λ k. index_at place self.new.transitions ≡ Some k) }
        ensures err { OnErr result (self.new.transitions ≡ self.old.transitions) }
        ensures kept { AreAmong self.old.room self.new.room }
        ensures room { IsTrue (has_place place self.old.room) → IsOk result }
        ensures only { AreAmong self.new.room (place ∷ self.old.room) }
        ensures room_stays { OnErr result (self.new.room ≡ self.old.room) }
    {
        let entry = Entry {
            place,
            weight,
            node,
        };
        let k = self.len();
        add(&mut self.entries, &mut self.index, &mut self.waiting, entry)?;
        Ok(k)
    }

    /// Replaces the weight and the node of the `k`-th transition, which keeps its place. It takes no memory.
    pub fn lower_at(&mut self, k: u64, weight: S::W, node: u64)
        requires { k < length self.old.transitions }
        ensures lowered { (t : EntryValue S S.W S.Ret) → slice_get self.old.transitions k ≡ Some t →
            self.new.transitions ≡ lowered t.place weight node self.old.transitions }
        ensures room { self.new.room ≡ self.old.room }
    {
        let place = self.entries.get(k as usize).place;
        let entry = Entry {
            place,
            weight,
            node,
        };
        self.entries.replace(k as usize, entry);
    }

    /// Makes room for these places. It is refused only when out of memory, and changes nothing then.
    pub fn reserve(&mut self, _alloc: Global, places: &[Place]) -> Result<(), OutOfMemory>
        ensures transitions { self.new.transitions ≡ self.old.transitions }
        ensures named { OnOk result (AreAmong places.now self.new.room) }
        ensures kept { AreAmong self.old.room self.new.room }
        ensures only { AreAmong self.new.room (places.now ++ self.old.room) }
        ensures room_stays { OnErr result (self.new.room ≡ self.old.room) }
    {
        let before = self.waiting.len();
        let reserved = self.make_rooms(places);
        if reserved.is_err() {
            self.waiting.truncate(before);
        }
        reserved
    }

    // Makes room for these places, up to the first that is refused.
    fn make_rooms(&mut self, places: &[Place]) -> Result<(), OutOfMemory>
        ensures transitions { self.new.transitions ≡ self.old.transitions }
        ensures named { OnOk result (AreAmong places.now self.new.room) }
        ensures kept { AreAmong self.old.room self.new.room }
        ensures only { AreAmong self.new.room (places.now ++ self.old.room) }
        ensures more { (more : List PlaceValue) × (self.new.room ≡ self.old.room ++ more) }
    {
        for place in places {
            self.make_room(*place)?;
        }
        Ok(())
    }

    /// Whether a place has room.
    pub fn has_room(&self, place: Place) -> bool
        ensures { result ≡ has_place place self.now.room }
    {
        self.find(place).is_some()
            || (self.asked.find(place).is_some() && position(&self.waiting, place).is_some())
    }

    // Makes room for one place.
    fn make_room(&mut self, place: Place) -> Result<(), OutOfMemory>
        ensures transitions { self.new.transitions ≡ self.old.transitions }
        ensures named { OnOk result (IsTrue (has_place place self.new.room)) }
        ensures more { (more : List PlaceValue) × (self.new.room ≡ self.old.room ++ more) }
        ensures kept { AreAmong self.old.room self.new.room }
        ensures only { AreAmong self.new.room (place ∷ self.old.room) }
    {
        if self.has_room(place) {
            return Ok(());
        }
        wait(
            &mut self.entries,
            &mut self.index,
            &mut self.waiting,
            &mut self.asked,
            place,
        )?;
        Ok(())
    }
}
