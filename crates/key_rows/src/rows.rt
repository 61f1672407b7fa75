ghost use Rattle.std.specs.Prelude.{◌≡◌, ◌↔◌, ◌<◌, ℕ, ◌+◌, ◌++◌, ◌∷◌, [], ◌^◌, List, length, Option, None, Some, IsTrue, OnOk, vec_len, vec_capacity, ◌≤◌};
ghost use Rattle.std.specs.Ordering.{eq_by_cmp};
ghost use Rattle.key_rows.specs.Positions.{index_where, last_where};
ghost use Rattle.key_rows.specs.Cells.{cell, key_in, ContainsKey};
ghost use Rattle.key_rows.specs.Rows.{has_key, next_alike, gap_to, gaps_of, AreLinked, AreRows, HasCell, HasSpace};

use crate::key::Key;
use crate::keyed::{Keyed, KeyedList};
use std::alloc::Global;
use wpds_base::OutOfMemory;

/// Where the first and the last of a row stand.
#[derive(Clone, Copy, Debug, PartialEq, Eq, Drop)]
pub(crate) struct Ends {
    pub(crate) first: u32,
    pub(crate) last: u32,
}

/// A key, and the ends of its row, where some member has the key.
#[derive(Clone, Copy, Drop)]
pub(crate) struct Row<K: Copy + Drop> {
    pub(crate) key: K,
    pub(crate) ends: Option<Ends>,
}

impl<K: Key> Keyed<K> for Row<K> {
    ghost key_of = { key_in };

    fn key(&self) -> K {
        self.key
    }
}

/// The rows of a list whose members have a key each, or none: where the first stands that has a key, and
/// where the next stands behind it.
///
/// Each key that was reserved has a cell, so that to add a member takes no memory.
#[derive(Drop)]
pub struct KeyRows<K: Key> {
    // The ends of each row.
    cells: KeyedList<K, Row<K>>,
    // How far behind each member the next of its row stands, and 0 for the last.
    gaps: Vec<u32>,
}

/// Writes how far the next of its row stands behind the last so far.
pub(crate) fn put_gap(gaps: &mut Vec<u32>, ends: Option<Ends>, number: u32)
    requires number { number ≡ length gaps.old.items }
    ensures gaps { gaps.new.items ≡ gap_to ends number gaps.old.items }
    ensures len { vec_len gaps.new ≡ vec_len gaps.old }
    ensures capacity { vec_capacity gaps.new ≡ vec_capacity gaps.old }
{
    if let Some(ends) = ends {
        if ends.last < number {
            gaps[ends.last as usize] = number - ends.last;
        }
    }
}

/// Where the next stands that has the key of the `k`-th, by how far it stands behind it.
pub(crate) fn next_by_gap<K: Key>(gaps: &[u32], k: u64) -> Option<u64>
    requires { length gaps.now < 2 ^ 63 }
    ensures { (ks : List (Option K)) → gaps.now ≡ gaps_of (eq_by_cmp K.cmp) ks
        → result ≡ next_alike (eq_by_cmp K.cmp) k ks }
{
    match gaps.get(k as usize) {
        Some(gap) => {
            if *gap == 0 {
                return None;
            }
            k.checked_add(u64::from(*gap))
        }
        None => None,
    }
}

// What the cell of a key says.
fn cell_at<K: Key>(cells: &KeyedList<K, Row<K>>, key: K) -> Option<Ends>
    ensures { result ≡ cell K.cmp cells.now.members key }
{
    match cells.find(key) {
        Some(k) => cells.get(k as usize).ends,
        None => None,
    }
}

// Adds a member to the row of a key, last of all. It takes no memory.
fn link<K: Key>(cells: &mut KeyedList<K, Row<K>>, gaps: &mut Vec<u32>, key: K)
    requires cell { ContainsKey K.cmp cells.old.members key }
    requires gaps { vec_len gaps.old < vec_capacity gaps.old }
    requires number { vec_len gaps.old < 2 ^ 32 }
    ensures rows { (ks : List (Option K)) → AreLinked K.cmp ks cells.old.members gaps.old.items
        → AreLinked K.cmp (ks ++ Some key ∷ []) cells.new.members gaps.new.items }
    ensures kept { (k : K) → ContainsKey K.cmp cells.old.members k
        → ContainsKey K.cmp cells.new.members k }
    ensures len { vec_len gaps.new ≡ vec_len gaps.old + 1 }
    ensures capacity { vec_capacity gaps.new ≡ vec_capacity gaps.old }
{
    let number = gaps.len() as u32;
    let Some(k) = cells.find_made(key) else {
        unreachable!()
    };
    let row = *cells.get(k as usize);
    put_gap(gaps, row.ends, number);
    let first = match row.ends {
        Some(ends) => ends.first,
        None => number,
    };
    let ends = Some(Ends {
        first,
        last: number,
    });
    cells.replace(k as usize, Row { key: row.key, ends });
    gaps.push_reserved(0);
}

// Makes an empty row for a key, unless it has one. It is refused only when out of memory, or when rows can't be numbered any
// more, and all stays as it was then.
fn make_row<K: Key>(cells: &mut KeyedList<K, Row<K>>, key: K) -> Result<(), OutOfMemory>
    ensures cells { (k : K) → cell K.cmp cells.new.members k ≡ cell K.cmp cells.old.members k }
    ensures kept { (k : K) → ContainsKey K.cmp cells.old.members k
        → ContainsKey K.cmp cells.new.members k }
    ensures made { OnOk result (ContainsKey K.cmp cells.new.members key) }
{
    cells.make(Row { key, ends: None })
}

impl<K: Key> KeyRows<K> {
    /// No rows. It takes no memory.
    pub fn new(alloc: Global) -> KeyRows<K>
        ensures rows { AreRows K.cmp [] result }
        ensures space { HasSpace 0 result }
    {
        KeyRows {
            cells: KeyedList::new(alloc),
            gaps: Vec::new(alloc),
        }
    }

    /// Where the first stands that has a key.
    pub fn first(&self, key: K) -> Option<u64>
        ensures { (ks : List (Option K)) → AreRows K.cmp ks self.now
            → result ≡ index_where (has_key (eq_by_cmp K.cmp) key) ks }
    {
        match cell_at(&self.cells, key) {
            Some(ends) => Some(u64::from(ends.first)),
            None => None,
        }
    }

    /// Where the last stands that has a key.
    pub fn last(&self, key: K) -> Option<u64>
        ensures { (ks : List (Option K)) → AreRows K.cmp ks self.now
            → result ≡ last_where (has_key (eq_by_cmp K.cmp) key) ks }
    {
        match cell_at(&self.cells, key) {
            Some(ends) => Some(u64::from(ends.last)),
            None => None,
        }
    }

    /// Where the next stands that has the key of the `k`-th, if the `k`-th has one.
    pub fn next(&self, k: u64) -> Option<u64>
        ensures { (ks : List (Option K)) → AreRows K.cmp ks self.now
            → result ≡ next_alike (eq_by_cmp K.cmp) k ks }
    {
        next_by_gap::<K>(&self.gaps, k)
    }

    /// Whether a member with this key can be added without a new cell.
    pub fn has_cell(&self, key: K) -> bool
        ensures { IsTrue result ↔ HasCell K.cmp self.now (Some key) }
    {
        self.cells.find(key).is_some()
    }

    /// Makes room for a member with this key, and space for so many members in all. It is refused only
    /// when out of memory, or where so many can't be numbered below 2^32, and the rows stay as they were then.
    pub fn reserve(&mut self, key: Option<K>, more: usize) -> Result<(), OutOfMemory>
        ensures rows { (ks : List (Option K)) → AreRows K.cmp ks self.old
            → AreRows K.cmp ks self.new }
        ensures cell { OnOk result (HasCell K.cmp self.new key) }
        ensures cells { (k : Option K) → HasCell K.cmp self.old k → HasCell K.cmp self.new k }
        ensures space { OnOk result (HasSpace more self.new) }
        ensures spaces { (n : ℕ) → HasSpace n self.old → HasSpace n self.new }
    {
        make_space(&mut self.gaps, more)?;
        match key {
            Some(key) => make_row(&mut self.cells, key),
            None => Ok(()),
        }
    }

    /// Adds a member with this key, last of all, where there is room. It takes no memory.
    pub fn push(&mut self, key: Option<K>)
        requires cell { HasCell K.cmp self.old key }
        requires space { HasSpace 1 self.old }
        ensures rows { (ks : List (Option K)) → AreRows K.cmp ks self.old
            → AreRows K.cmp (ks ++ key ∷ []) self.new }
        ensures cells { (k : Option K) → HasCell K.cmp self.old k → HasCell K.cmp self.new k }
        ensures spaces { (n : ℕ) → HasSpace (n + 1) self.old → HasSpace n self.new }
    {
        match key {
            Some(key) => link(&mut self.cells, &mut self.gaps, key),
            None => self.gaps.push_reserved(0),
        }
    }
}

/// Makes room for so many distances more, where their numbers stay below 2^32.
pub(crate) fn make_space(gaps: &mut Vec<u32>, more: usize) -> Result<(), OutOfMemory>
    ensures items { gaps.new.items ≡ gaps.old.items }
    ensures len { vec_len gaps.new ≡ vec_len gaps.old }
    ensures room { OnOk result (vec_len gaps.old + more ≤ vec_capacity gaps.new) }
    ensures numbers { OnOk result (vec_len gaps.old + more ≤ 2 ^ 32) }
    ensures kept { vec_capacity gaps.old ≤ vec_capacity gaps.new }
{
    match gaps.len().checked_add(more) {
        Some(all) if all <= u32::MAX as usize => {
            gaps.reserve(more)?;
            Ok(())
        }
        _ => Err(OutOfMemory),
    }
}
