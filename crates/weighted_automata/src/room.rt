ghost use Rattle.std.specs.Prelude.{◌≡◌, ◌+◌, ◌<◌, ◌≤◌, ◌++◌, [], ◌∷◌, ℕ, List, length, IsTrue, IsOk, OnOk, OnErr, option_map};
ghost use Rattle.weighted_automata.specs.Places.{same_place, has_place};
ghost use Rattle.weighted_automata.specs.declared.place.Place.{Place as PlaceValue};
ghost use Rattle.weighted_automata.specs.private.Room.{without};
ghost use Rattle.weighted_automata.specs.private.Index.{AreAsked, AreIndexed, HasCells, HasSpaces, HasRoomFor};
ghost use Rattle.weighted_automata.specs.Entries.{index_where};

use crate::index::PlaceIndex;
use crate::{Entry, Place};
use key_rows::KeyedList;
use semiring_laws::Semiring;
use std::collections::VecDeque;
use wpds_base::OutOfMemory;

/// Where a place stands first.
pub(crate) fn position(places: &VecDeque<Place>, place: Place) -> Option<usize>
    ensures { result ≡ index_where (λ y. same_place y place) places.now.items }
{
    for i in 0..places.len() {
        if places[i].is(place) {
            return Some(i);
        }
    }
    None
}

/// Takes a place out of those that wait for their transition, and says whether it was there.
pub(crate) fn take_out(waiting: &mut VecDeque<Place>, place: Place) -> bool
    ensures taken { result ≡ has_place place waiting.old.items }
    ensures left { waiting.new.items ≡ without place waiting.old.items }
{
    match position(waiting, place) {
        Some(k) => {
            waiting.remove(k);
            true
        }
        None => false,
    }
}

// Makes a place's room, beside that of those that wait.
fn make_space<S: Semiring>(
    entries: &mut KeyedList<Place, Entry<S>>,
    index: &mut PlaceIndex,
    waiting: &VecDeque<Place>,
    place: Place,
) -> Result<(), OutOfMemory>
    ensures rows { (ps : List PlaceValue) → AreIndexed ps index.old → AreIndexed ps index.new }
    ensures rooms { HasRoomFor waiting.now.items index.old
        → HasRoomFor waiting.now.items index.new }
    ensures cells { OnOk result (HasCells index.new place) }
    ensures spaces { OnOk result (HasSpaces (length waiting.now.items + 1) index.new) }
    ensures entries { entries.new.members ≡ entries.old.members }
    ensures kept { entries.old.spare ≤ entries.new.spare }
    ensures ok { OnOk result (length waiting.now.items + 1 ≤ entries.new.spare) }
{
    let wanted = waiting.len().checked_add(1).ok_or(OutOfMemory)?;
    entries.reserve(place, wanted)?;
    index.reserve(place, wanted)
}

// Adds a transition whose place waited, so that it has room.
fn add_waited<S: Semiring>(
    entries: &mut KeyedList<Place, Entry<S>>,
    index: &mut PlaceIndex,
    entry: Entry<S>,
)
    requires room { 0 < entries.old.spare }
    requires cells { HasCells index.old entry.place }
    requires space { HasSpaces 1 index.old }
    ensures added { (ps : List PlaceValue) → AreIndexed ps index.old
        → AreIndexed (ps ++ entry.place ∷ []) index.new }
    ensures cells { (p : PlaceValue) → HasCells index.old p → HasCells index.new p }
    ensures spaces { (n : ℕ) → HasSpaces (n + 1) index.old → HasSpaces n index.new }
    ensures entries { entries.new.members ≡ entries.old.members ++ entry ∷ [] }
    ensures spare { entries.new.spare + 1 ≡ entries.old.spare }
{
    index.add(entry.place);
    entries.push_reserved(entry);
}

// Adds a transition, and keeps room for each place that waits.
fn add_new<S: Semiring>(
    entries: &mut KeyedList<Place, Entry<S>>,
    index: &mut PlaceIndex,
    waiting: &VecDeque<Place>,
    entry: Entry<S>,
) -> Result<(), OutOfMemory>
    requires room { length waiting.now.items ≤ entries.old.spare }
    requires rooms { HasRoomFor waiting.now.items index.old }
    ensures added { OnOk result ((ps : List PlaceValue) → AreIndexed ps index.old
        → AreIndexed (ps ++ entry.place ∷ []) index.new) }
    ensures same { OnErr result ((ps : List PlaceValue) → AreIndexed ps index.old
        → AreIndexed ps index.new) }
    ensures rooms { HasRoomFor waiting.now.items index.new }
    ensures ok { OnOk result (entries.new.members ≡ entries.old.members ++ entry ∷ []) }
    ensures err { OnErr result (entries.new.members ≡ entries.old.members) }
    ensures room { length waiting.now.items ≤ entries.new.spare }
{
    let count = waiting.len();
    let wanted = count.checked_add(1).ok_or(OutOfMemory)?;
    let place = entry.place;
    index.reserve(place, wanted)?;
    entries.append(entry, count)?;
    index.add(place);
    Ok(())
}

/// Adds a transition, and keeps room for each place that waits. If its own place waited, there is room.
pub(crate) fn add<S: Semiring>(
    entries: &mut KeyedList<Place, Entry<S>>,
    index: &mut PlaceIndex,
    waiting: &mut VecDeque<Place>,
    entry: Entry<S>,
) -> Result<(), OutOfMemory>
    requires room { length waiting.old.items ≤ entries.old.spare }
    requires rooms { HasRoomFor waiting.old.items index.old }
    ensures added { OnOk result ((ps : List PlaceValue) → AreIndexed ps index.old
        → AreIndexed (ps ++ entry.place ∷ []) index.new) }
    ensures same { OnErr result ((ps : List PlaceValue) → AreIndexed ps index.old
        → AreIndexed ps index.new) }
    ensures rooms { HasRoomFor waiting.new.items index.new }
    ensures ok { OnOk result (entries.new.members ≡ entries.old.members ++ entry ∷ []) }
    ensures err { OnErr result (entries.new.members ≡ entries.old.members) }
    ensures left { OnOk result (waiting.new.items ≡ without entry.place waiting.old.items) }
    ensures stays { OnErr result (waiting.new.items ≡ waiting.old.items) }
    ensures room { length waiting.new.items ≤ entries.new.spare }
    ensures waited { IsTrue (has_place entry.place waiting.old.items) → IsOk result }
{
    if take_out(waiting, entry.place) {
        add_waited(entries, index, entry);
        return Ok(());
    }
    add_new(entries, index, waiting, entry)
}

/// Makes room for a transition at one more place. What was asked for so far is kept, to tell soon what waits.
pub(crate) fn wait<S: Semiring>(
    entries: &mut KeyedList<Place, Entry<S>>,
    index: &mut PlaceIndex,
    waiting: &mut VecDeque<Place>,
    asked: &mut KeyedList<Place, Place>,
    place: Place,
) -> Result<(), OutOfMemory>
    requires room { length waiting.old.items ≤ entries.old.spare }
    requires rooms { HasRoomFor waiting.old.items index.old }
    requires asked { AreAsked waiting.old.items asked.old }
    ensures rows { (ps : List PlaceValue) → AreIndexed ps index.old → AreIndexed ps index.new }
    ensures rooms { HasRoomFor waiting.new.items index.new }
    ensures asked { AreAsked waiting.new.items asked.new }
    ensures entries { entries.new.members ≡ entries.old.members }
    ensures ok { OnOk result (waiting.new.items ≡ waiting.old.items ++ place ∷ []) }
    ensures err { OnErr result (waiting.new.items ≡ waiting.old.items) }
    ensures room { length waiting.new.items ≤ entries.new.spare }
{
    make_space(entries, index, waiting, place)?;
    asked.make(place)?;
    waiting.push_back(place)?;
    Ok(())
}
