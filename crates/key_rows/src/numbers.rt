ghost use Rattle.std.specs.Prelude.{◌≡◌, ◌<◌, ◌≤◌, ◌+◌, ◌^◌, ◌++◌, ◌∷◌, [], ℕ, List, length, Option, None, Some, OnOk, vec_len, vec_capacity};
ghost use Rattle.std.specs.Ordering.{eq_by_cmp, nat_cmp};
ghost use Rattle.key_rows.specs.Positions.{index_where};
ghost use Rattle.key_rows.specs.Rows.{has_key, next_alike};
ghost use Rattle.key_rows.specs.Numbers.{ends_at, AreLinkedNumbers, AreNumberRows, HasNumber, HasNumberSpace};

use crate::rows::{Ends, make_space, next_by_gap, put_gap};
use std::alloc::Global;
use wpds_base::OutOfMemory;

/// The rows of a list whose members have a number each, or none: where the first stands that has a number, and where the next
/// stands behind it. What is said of a number stands at that number, so that it takes memory for all numbers below one that it
/// has room for.
#[derive(Drop)]
pub struct NumberRows {
    // The ends of each row.
    ends: Vec<Option<Ends>>,
    // How far behind each member the next of its row stands, and 0 for the last.
    gaps: Vec<u32>,
}

// What is said of a number.
fn ends_of(ends: &[Option<Ends>], number: u32) -> Option<Ends>
    ensures { result ≡ ends_at ends.now number }
{
    match ends.get(number as usize) {
        Some(found) => *found,
        None => None,
    }
}

// Adds a member to the row of a number, last of all. It takes no memory.
fn link(ends: &mut [Option<Ends>], gaps: &mut Vec<u32>, number: u32)
    requires cell { number < length ends.old }
    requires gaps { vec_len gaps.old < vec_capacity gaps.old }
    requires few { vec_len gaps.old < 2 ^ 32 }
    ensures rows { (ks : List (Option ℕ)) → AreLinkedNumbers ks ends.old gaps.old.items
        → AreLinkedNumbers (ks ++ Some number ∷ []) ends.new gaps.new.items }
    ensures ends { length ends.new ≡ length ends.old }
    ensures len { vec_len gaps.new ≡ vec_len gaps.old + 1 }
    ensures capacity { vec_capacity gaps.new ≡ vec_capacity gaps.old }
{
    let last = gaps.len() as u32;
    let found = ends_of(ends, number);
    put_gap(gaps, found, last);
    let first = match found {
        Some(ends) => ends.first,
        None => last,
    };
    ends[number as usize] = Some(Ends { first, last });
    gaps.push_reserved(0);
}

// Makes a place for a number, and for all below it. It is refused only when out of memory, and all stays as it was then.
fn extend_to(ends: &mut Vec<Option<Ends>>, number: u32) -> Result<(), OutOfMemory>
    ensures ends { (n : ℕ) → ends_at ends.new.items n ≡ ends_at ends.old.items n }
    ensures made { OnOk result (number < vec_len ends.new) }
    ensures kept { vec_len ends.old ≤ vec_len ends.new }
{
    let count = number as usize + 1;
    if ends.len() < count {
        ends.resize(count, None)?;
    }
    Ok(())
}

impl NumberRows {
    /// No rows. It takes no memory.
    pub fn new(alloc: Global) -> NumberRows
        ensures rows { AreNumberRows [] result }
        ensures space { HasNumberSpace 0 result }
    {
        NumberRows {
            ends: Vec::new(alloc),
            gaps: Vec::new(alloc),
        }
    }

    /// Where the first stands that has a number.
    pub fn first(&self, number: u32) -> Option<u64>
        ensures { (ks : List (Option ℕ)) → AreNumberRows ks self.now
            → result ≡ index_where (has_key (eq_by_cmp nat_cmp) number) ks }
    {
        match ends_of(&self.ends, number) {
            Some(ends) => Some(u64::from(ends.first)),
            None => None,
        }
    }

    /// Where the next stands that has the number of the `k`-th, if the `k`-th has one.
    pub fn next(&self, k: u64) -> Option<u64>
        ensures { (ks : List (Option ℕ)) → AreNumberRows ks self.now
            → result ≡ next_alike (eq_by_cmp nat_cmp) k ks }
    {
        next_by_gap::<u32>(&self.gaps, k)
    }

    /// Makes room for a member with this number, and space for so many members in all. It is refused only when out of memory, or
    /// where so many can't be numbered below 2^32, and the rows stay as they were then.
    pub fn reserve(&mut self, number: Option<u32>, more: usize) -> Result<(), OutOfMemory>
        ensures rows { (ks : List (Option ℕ)) → AreNumberRows ks self.old
            → AreNumberRows ks self.new }
        ensures cell { OnOk result (HasNumber self.new number) }
        ensures cells { (n : Option ℕ) → HasNumber self.old n → HasNumber self.new n }
        ensures space { OnOk result (HasNumberSpace more self.new) }
        ensures spaces { (n : ℕ) → HasNumberSpace n self.old → HasNumberSpace n self.new }
    {
        make_space(&mut self.gaps, more)?;
        match number {
            Some(number) => extend_to(&mut self.ends, number),
            None => Ok(()),
        }
    }

    /// Adds a member with this number, last of all, where there is room. It takes no memory.
    pub fn push(&mut self, number: Option<u32>)
        requires cell { HasNumber self.old number }
        requires space { HasNumberSpace 1 self.old }
        ensures rows { (ks : List (Option ℕ)) → AreNumberRows ks self.old
            → AreNumberRows (ks ++ number ∷ []) self.new }
        ensures cells { (n : Option ℕ) → HasNumber self.old n → HasNumber self.new n }
        ensures spaces { (n : ℕ) → HasNumberSpace (n + 1) self.old → HasNumberSpace n self.new }
    {
        match number {
            Some(number) => link(&mut self.ends, &mut self.gaps, number),
            None => self.gaps.push_reserved(0),
        }
    }
}
