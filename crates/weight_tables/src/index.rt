ghost use Rattle.std.specs.Prelude.{◌≡◌, ℕ, ◌+◌, ◌++◌, ◌∷◌, [], List, OnOk};
ghost use Rattle.weighted_automata.specs.declared.place.Place.{Place as PlaceValue};
ghost use Rattle.weight_tables.specs.private.Index.{row_of as row_value, empty_target as target_value, AreIndexed, HasCells, HasSpaces};

use key_rows::{KeyRows, NumberRows};
use std::alloc::Global;
use weighted_automata::{Label, Place};
use wpds_base::OutOfMemory;

/// Where the places of a list stand, in rows by what they have in common.
#[derive(Drop)]
pub(crate) struct PlaceIndex {
    /// By where they go from and what they read: that is a place to 0.
    pub(crate) rows: KeyRows<Place>,
    /// By where they go from.
    pub(crate) states: NumberRows,
    /// Those that read nothing, by where they go to.
    pub(crate) empties: NumberRows,
}

// What the places of a row have in common.
fn row_of(place: Place) -> Place
    ensures { result ≡ row_value place }
{
    Place {
        from: place.from,
        label: place.label,
        to: 0,
    }
}

// Where a place goes to that reads nothing.
fn empty_target(place: Place) -> Option<u32>
    ensures { result ≡ target_value place }
{
    match place.label {
        Label::Symbol(_) => None,
        Label::Empty => Some(place.to),
    }
}

impl PlaceIndex {
    /// No places. It takes no memory.
    pub(crate) fn new(alloc: Global) -> PlaceIndex
        ensures { AreIndexed [] result }
    {
        PlaceIndex {
            rows: KeyRows::new(alloc),
            states: NumberRows::new(alloc),
            empties: NumberRows::new(alloc),
        }
    }

    /// Makes room for a place. It is refused only when out of memory.
    pub(crate) fn reserve(&mut self, place: Place) -> Result<(), OutOfMemory>
        ensures rows { (ps : List PlaceValue) → AreIndexed ps self.old → AreIndexed ps self.new }
        ensures cells { OnOk result (HasCells self.new place) }
        ensures space { OnOk result (HasSpaces self.new) }
    {
        self.rows.reserve(Some(row_of(place)), 1)?;
        self.states.reserve(Some(place.from), 1)?;
        self.empties.reserve(empty_target(place), 1)
    }

    /// Adds a place last, where there is room. It takes no memory.
    pub(crate) fn add(&mut self, place: Place)
        requires cells { HasCells self.old place }
        requires space { HasSpaces self.old }
        ensures { (ps : List PlaceValue) → AreIndexed ps self.old
            → AreIndexed (ps ++ place ∷ []) self.new }
    {
        self.rows.push(Some(row_of(place)));
        self.states.push(Some(place.from));
        self.empties.push(empty_target(place));
    }
}
