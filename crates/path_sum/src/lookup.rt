//! Sets of symbols in which one is looked up.

ghost use Rattle.std.specs.Prelude.{◌≡◌, ◌≤◌, ◌||◌, ℕ, List, IfOk, OnOk, false, length, nat_eq, slice_index_or};
ghost use Rattle.std.specs.List.Sorted.{IsNonDecreasing};
ghost use Rattle.config_patterns.specs.Membership.{has_symbol};
ghost use Rattle.path_sum.specs.private.Lookups.{AreMarks, IsSortedCopy, IsLookup, AreLookups};

use config_patterns::{Pattern, SymbolSet};
use std::alloc::Global;
use wpds_base::OutOfMemory;

/// The symbols of a set.
#[derive(Drop)]
pub(crate) enum Lookup {
    /// Whether it has a symbol, by symbol, up to the greatest that it has. For sets that have most symbols.
    Marks(Vec<bool>),
    /// Its symbols in rising order. For sets that have few.
    Sorted(Vec<u32>),
}

impl Lookup {
    /// That of a set. Marks are made where they take no more memory than a copy.
    pub(crate) fn of(alloc: Global, set: &SymbolSet) -> Result<Lookup, OutOfMemory>
        ensures { IfOk result (IsLookup set.now) }
    {
        if greatest(set) as usize / size_of::<u32>() < set.len() {
            Ok(Lookup::Marks(marks_of(alloc, set)?))
        } else {
            Ok(Lookup::Sorted(sorted_of(alloc, set)?))
        }
    }

    /// Whether the set has a symbol: one step, or the logarithm of the set where it has few of the symbols.
    pub(crate) fn has(&self, symbol: u32) -> bool
        ensures { (set : List ℕ) → IsLookup set self.now → result ≡ has_symbol symbol set }
    {
        match self {
            Lookup::Marks(marks) => is_marked(marks, symbol),
            Lookup::Sorted(sorted) => is_among(sorted, symbol),
        }
    }
}

// The greatest of these, and 0 where there is none.
fn greatest(set: &SymbolSet) -> u32 {
    let mut greatest = 0;
    for k in 0..set.len() {
        greatest = greatest.max(set.at(k));
    }
    greatest
}

// Whether a symbol has a mark. Past the marks none has.
fn is_marked(marks: &[bool], symbol: u32) -> bool
    ensures { result ≡ slice_index_or marks.now symbol false }
{
    let at = symbol as usize;
    if at < marks.len() { marks[at] } else { false }
}

// Whether a symbol is one of these, which rise.
fn is_among(sorted: &[u32], symbol: u32) -> bool
    ensures { IsNonDecreasing sorted.now → result ≡ has_symbol symbol sorted.now }
{
    sorted.binary_search(&symbol).is_ok()
}

// The symbols of a set in rising order.
fn sorted_of(alloc: Global, set: &SymbolSet) -> Result<Vec<u32>, OutOfMemory>
    ensures { IfOk result (λ v. IsSortedCopy v.items set.now) }
{
    let mut sorted = copy_of(alloc, set)?;
    sorted.sort_unstable();
    Ok(sorted)
}

fn copy_of(alloc: Global, set: &SymbolSet) -> Result<Vec<u32>, OutOfMemory>
    ensures { IfOk result (λ copy. copy.items ≡ set.now) }
{
    let mut copy = Vec::with_capacity(alloc, set.len())?;
    for k in 0..set.len() {
        copy.push(set.at(k))?;
    }
    Ok(copy)
}

// A mark for each symbol of a set.
fn marks_of(alloc: Global, set: &SymbolSet) -> Result<Vec<bool>, OutOfMemory>
    ensures { IfOk result (λ v. AreMarks v.items set.now) }
{
    let mut marks = Vec::new(alloc);
    for k in 0..set.len() {
        mark(&mut marks, set.at(k))?;
    }
    Ok(marks)
}

// Marks a symbol.
fn mark(marks: &mut Vec<bool>, symbol: u32) -> Result<(), OutOfMemory>
    ensures { OnOk result ((g : ℕ) → slice_index_or marks.new.items g false
        ≡ (nat_eq symbol g || slice_index_or marks.old.items g false)) }
{
    let at = symbol as usize;
    make_room(marks, at + 1)?;
    marks[at] = true;
    Ok(())
}

// Makes room for so many marks. Nothing is marked.
fn make_room(marks: &mut Vec<bool>, count: usize) -> Result<(), OutOfMemory>
    ensures same { (g : ℕ) → slice_index_or marks.new.items g false
        ≡ slice_index_or marks.old.items g false }
    ensures made { OnOk result (count ≤ length marks.new.items) }
{
    if count > marks.len() {
        marks.resize(count, false)?;
    }
    Ok(())
}

/// One for the set of each item of a pattern.
pub(crate) fn lookups_of(alloc: Global, pattern: &Pattern) -> Result<Vec<Lookup>, OutOfMemory>
    ensures { IfOk result (λ ls. AreLookups ls.items pattern.now.items) }
{
    let mut lookups = Vec::with_capacity(alloc, pattern.items() as usize)?;
    for k in 0..pattern.items() {
        lookups.push(Lookup::of(alloc, &pattern.item(k).set)?)?;
    }
    Ok(lookups)
}
