ghost use Rattle.std.specs.Prelude.{◌≡◌, ℕ, ◌+◌, ◌++◌, ◌∷◌, [], List, OnOk};
ghost use Rattle.weighted_automata.specs.declared.place.Place.{Place as PlaceValue};
ghost use Rattle.weighted_automata.specs.private.Index.{source_of as source_value, empty_target as target_value, AreIndexed, HasCells, HasSpaces};

use crate::{Label, Place};
use key_rows::{KeyRows, NumberRows};
use std::alloc::Global;
use wpds_base::OutOfMemory;

/// Where transitions of a row go from, and what they read.
#[derive(Clone, Copy, Debug, PartialEq, Eq, PartialOrd, Ord)]
pub(crate) struct Source {
    pub(crate) state: u32,
    pub(crate) label: Label,
}

/// Where the places of a list stand, in rows by what they have in common.
#[derive(Drop)]
pub(crate) struct PlaceIndex {
    /// By where they go from and what they read.
    pub(crate) sources: KeyRows<Source>,
    /// By where they go from.
    pub(crate) states: NumberRows,
    /// Those that read nothing, by where they go to.
    pub(crate) empties: NumberRows,
}

// Where a place goes from, and what is read there.
fn source_of(place: Place) -> Source
    ensures { result ≡ source_value place }
{
    Source {
        state: place.from,
        label: place.label,
    }
}

// Where a place goes to that reads nothing.
fn empty_target(place: Place) -> Option<u32>
    ensures { result ≡ target_value place }
{
    match place.label {
        Label::Symbol(_) => None,
        Label::Empty => Some(place.to),
    }
}

impl PlaceIndex {
    /// No places. It takes no memory.
    pub(crate) fn new(alloc: Global) -> PlaceIndex
        ensures rows { AreIndexed [] result }
        ensures spaces { HasSpaces 0 result }
    {
        PlaceIndex {
            sources: KeyRows::new(alloc),
            states: NumberRows::new(alloc),
            empties: NumberRows::new(alloc),
        }
    }

    /// Makes room for a place, and space for so many in all.
    pub(crate) fn reserve(&mut self, place: Place, more: usize) -> Result<(), OutOfMemory>
        ensures rows { (ps : List PlaceValue) → AreIndexed ps self.old → AreIndexed ps self.new }
        ensures made { OnOk result (HasCells self.new place) }
        ensures cells { (p : PlaceValue) → HasCells self.old p → HasCells self.new p }
        ensures space { OnOk result (HasSpaces more self.new) }
        ensures spaces { (n : ℕ) → HasSpaces n self.old → HasSpaces n self.new }
    {
        self.sources.reserve(Some(source_of(place)), more)?;
        self.states.reserve(Some(place.from), more)?;
        self.empties.reserve(empty_target(place), more)
    }

    /// Adds a place last, where there is room. It takes no memory.
    pub(crate) fn add(&mut self, place: Place)
        requires cells { HasCells self.old place }
        requires space { HasSpaces 1 self.old }
        ensures rows { (ps : List PlaceValue) → AreIndexed ps self.old
            → AreIndexed (ps ++ place ∷ []) self.new }
        ensures cells { (p : PlaceValue) → HasCells self.old p → HasCells self.new p }
        ensures spaces { (n : ℕ) → HasSpaces (n + 1) self.old → HasSpaces n self.new }
    {
        self.sources.push(Some(source_of(place)));
        self.states.push(Some(place.from));
        self.empties.push(empty_target(place));
    }
}
