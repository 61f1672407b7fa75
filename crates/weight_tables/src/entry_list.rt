ghost use Rattle.std.specs.Prelude.{◌≡◌, ◌+◌, ◌<◌, ◌^◌, ◌++◌, ◌∷◌, [], length, None, Some, IsFalse, IfNone, IfSome, IfOk, OnOk, OnErr, slice_get, true};
ghost use Rattle.weighted_automata.specs.Places.{same_label};
ghost use Rattle.weighted_automata.specs.declared.place.Label.TheVariants.{Empty};
ghost use Rattle.weight_tables.specs.Entries.{TableEntry, NoneWaits, HasDistinctPlaces, index_at, index_where, index_from, is_from, is_out_of, is_empty_into, taken};
ghost use Rattle.weight_tables.specs.private.Cells.{cells_of, changed, waits_in, with_cells};

use crate::cell::{Cell, take_cell, write_cell};
use crate::index::PlaceIndex;
use key_rows::KeyedList;
use std::alloc::Global;
use std::collections::VecDeque;
use std::marker::Model;
use weighted_automata::{Label, Place};
use wpds_base::OutOfMemory;

/// Entries in order of addition, at most one for each place. Those that wait are taken in the order in which they began to.
#[derive(Drop)]
pub(crate) struct EntryList<W: Drop> {
    // Each is found by itself.
    places: KeyedList<Place, Place>,
    // The weights, by the numbers of their places.
    cells: Vec<Cell<W>>,
    // The rows of places.
    index: PlaceIndex,
    // The numbers of those that wait.
    waiting: VecDeque<u32>,
}

/// A weight that came to a place which has an entry.
#[derive(Drop)]
pub(crate) struct Met<W: Drop> {
    /// The number of the entry.
    pub(crate) number: u32,
    /// The weight that came.
    pub(crate) weight: W,
}

// A number of an entry, where there is one.
fn as_number(found: Option<u64>) -> Option<u32>
    requires { IfSome found (λ k. k < 2 ^ 32) }
    ensures { result ≡ found }
{
    match found {
        Some(k) => Some(k as u32),
        None => None,
    }
}

impl<W: Drop> Model for EntryList<W> {
    ghost use Rattle.std.specs.Prelude.{List};
    ghost use Rattle.weight_tables.specs.Entries.{TableEntry};
    ghost use Rattle.weight_tables.specs.private.Cells.{entries_in};
    ghost use Rattle.weight_tables.specs.private.Listed.{IsEntryList};

    ghost Value = { List (TableEntry W) };

    ghost view = { λ l. entries_in l.places.members l.cells.items };

    ghost invariant = { λ l.
        IsEntryList l.places.members l.cells.items l.index l.waiting.items };
}

impl<W: Drop> EntryList<W> {
    /// No entries. It takes no memory.
    pub(crate) fn new(alloc: Global) -> EntryList<W>
        ensures { result ≡ [] }
    {
        EntryList {
            places: KeyedList::new(alloc),
            cells: Vec::new(alloc),
            index: PlaceIndex::new(alloc),
            waiting: VecDeque::new(alloc),
        }
    }

    /// How many entries there are.
    pub(crate) fn len(&self) -> u32
        ensures len { result ≡ length self.now }
        ensures few { length self.now < 2 ^ 32 }
        ensures distinct { HasDistinctPlaces self.now }
    {
        self.places.len() as u32
    }

    /// The number of the entry of a place.
    pub(crate) fn find(&self, place: Place) -> Option<u32>
        ensures number { result ≡ index_at place self.now }
        ensures within { IfSome result (λ t. t < length self.now) }
    {
        self.places.find(place)
    }

    /// The place of an entry.
    pub(crate) fn place(&self, t: u32) -> Place
        requires { t < length self.now }
        ensures { (e : TableEntry W) → slice_get self.now t ≡ Some e → result ≡ e.place }
    {
        *self.places.get(t as usize)
    }

    /// The weight of an entry.
    pub(crate) fn weight(&self, t: u32) -> &W
        requires { t < length self.now }
        ensures { (e : TableEntry W) × (slice_get self.now t ≡ Some e) × (result.now ≡ e.weight) }
    {
        &self.cells[t as usize].weight
    }

    /// Whether an entry waits.
    pub(crate) fn waits(&self, t: u32) -> bool
        requires { t < length self.now }
        ensures { (e : TableEntry W) → slice_get self.now t ≡ Some e → result ≡ e.waits }
    {
        self.cells[t as usize].waits
    }

    /// The weights by number, with their marks.
    pub(crate) fn cells(&self) -> &[Cell<W>]
        ensures { result.now ≡ cells_of self.now }
    {
        &self.cells
    }

    /// Puts other weights in the place of all, with the marks that are there.
    pub(crate) fn put_cells(&mut self, cells: Vec<Cell<W>>)
        requires { waits_in cells.items ≡ waits_in (cells_of self.old) }
        ensures { self.new ≡ with_cells cells.items self.old }
    {
        self.cells = cells;
    }

    /// Writes the weight of an entry, which waits then. It is refused only when out of memory, and then all stays as it was.
    pub(crate) fn write(&mut self, t: u32, weight: W) -> Result<(), OutOfMemory>
        requires { t < length self.old }
        ensures ok { OnOk result (self.new ≡ changed t weight self.old) }
        ensures err { OnErr result (self.new ≡ self.old) }
    {
        self.waiting.reserve(1)?;
        write_cell(&mut self.cells, &mut self.waiting, t, weight);
        Ok(())
    }

    /// Adds an entry last, which waits, at a place that has none. It is refused only when out of memory, and then all stays as it was.
    pub(crate) fn add(&mut self, place: Place, weight: W) -> Result<(), OutOfMemory>
        requires { index_at place self.old ≡ None }
        ensures ok { OnOk result (self.new ≡ self.old
            ++ record { place = place; weight = weight; waits = true } ∷ []) }
        ensures err { OnErr result (self.new ≡ self.old) }
    {
        let number = self.places.len() as u32;
        self.cells.reserve(1)?;
        self.waiting.reserve(1)?;
        self.index.reserve(place)?;
        self.places.append(place, 0)?;
        let _count = self.places.len();
        self.index.add(place);
        self.cells.push_reserved(Cell {
            weight,
            waits: true,
        });
        self.waiting.push_back_reserved(number);
        Ok(())
    }

    /// Adds an entry last, which waits, unless its place has one: then the weight is handed back. It is refused only when out of memory,
    /// and then all stays as it was, but the weight is gone.
    pub(crate) fn meet(&mut self, place: Place, weight: W) -> Result<Option<Met<W>>, OutOfMemory>
        ensures met { IfOk result (λ o. IfSome o (λ m. index_at place self.old ≡ Some m.number)) }
        ensures weight { IfOk result (λ o. IfSome o (λ m. m.weight ≡ weight)) }
        ensures stays { IfOk result (λ o. IfSome o (λ _. self.new ≡ self.old)) }
        ensures none { IfOk result (λ o. IfNone o (index_at place self.old ≡ None)) }
        ensures added { IfOk result (λ o. IfNone o (self.new ≡ self.old
            ++ record { place = place; weight = weight; waits = true } ∷ [])) }
        ensures err { OnErr result (self.new ≡ self.old) }
    {
        match self.find(place) {
            Some(number) => Ok(Some(Met { number, weight })),
            None => {
                self.add(place, weight)?;
                Ok(None)
            }
        }
    }

    /// Takes the entry that waits longest, and says its number.
    pub(crate) fn pop(&mut self) -> Option<u32>
        ensures none { IfNone result (NoneWaits self.old) }
        ensures stays { IfNone result (self.new ≡ self.old) }
        ensures entry { IfSome result (λ t. (e : TableEntry W)
            × (slice_get self.old t ≡ Some e) × (e.waits ≡ true)) }
        ensures within { IfSome result (λ t. t < length self.new) }
        ensures taken { IfSome result (λ t. self.new ≡ taken t self.old) }
    {
        take_cell(&mut self.cells, &mut self.waiting)
    }

    /// The first entry that goes from a state and reads a label.
    pub(crate) fn first_from(&self, state: u32, label: Label) -> Option<u32>
        ensures number { result ≡ index_where (is_from state label) self.now }
        ensures within { IfSome result (λ t. t < length self.now) }
    {
        let row = Place {
            from: state,
            label,
            to: 0,
        };
        as_number(self.index.rows.first(row))
    }

    /// The next entry that goes from the state of this one and reads its label.
    pub(crate) fn next_from(&self, t: u32) -> Option<u32>
        ensures row { (e : TableEntry W) → slice_get self.now t ≡ Some e
            → result ≡ index_from (is_from e.place.from e.place.label) (t + 1) self.now }
        ensures within { IfSome result (λ n. n < length self.now) }
    {
        as_number(self.index.rows.next(u64::from(t)))
    }

    /// The first entry that goes from a state, whatever it reads.
    pub(crate) fn first_out_of(&self, state: u32) -> Option<u32>
        ensures number { result ≡ index_where (is_out_of state) self.now }
        ensures within { IfSome result (λ t. t < length self.now) }
    {
        as_number(self.index.states.first(state))
    }

    /// The next entry that goes from the state of this one.
    pub(crate) fn next_out_of(&self, t: u32) -> Option<u32>
        ensures row { (e : TableEntry W) → slice_get self.now t ≡ Some e
            → result ≡ index_from (is_out_of e.place.from) (t + 1) self.now }
        ensures within { IfSome result (λ n. n < length self.now) }
    {
        as_number(self.index.states.next(u64::from(t)))
    }

    /// The first entry that goes to a state and reads nothing.
    pub(crate) fn first_empty_into(&self, state: u32) -> Option<u32>
        ensures number { result ≡ index_where (is_empty_into state) self.now }
        ensures within { IfSome result (λ t. t < length self.now) }
    {
        as_number(self.index.empties.first(state))
    }

    /// The next entry that goes to the state of this one and reads nothing, if this one reads nothing.
    pub(crate) fn next_empty_into(&self, t: u32) -> Option<u32>
        ensures row { (e : TableEntry W) → slice_get self.now t ≡ Some e
            → e.place.label ≡ Empty
            → result ≡ index_from (is_empty_into e.place.to) (t + 1) self.now }
        ensures others { (e : TableEntry W) → slice_get self.now t ≡ Some e
            → IsFalse (same_label e.place.label Empty) → result ≡ None }
        ensures within { IfSome result (λ n. n < length self.now) }
    {
        as_number(self.index.empties.next(u64::from(t)))
    }
}
