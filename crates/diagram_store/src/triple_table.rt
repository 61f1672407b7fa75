ghost use Rattle.std.specs.Prelude.{◌≡◌, ◌<◌, ℕ, None, Some, IfOk, OnOk, OnErr, cond, length};
ghost use Rattle.diagram_store.specs.TripleTables.{known, same_key};
ghost use Rattle.diagram_store.specs.private.TripleChains.{IsChained};

use crate::triple_chains::{Entry, add, blank, find, link};
use std::alloc::Global;
use std::marker::Model;
use wpds_base::OutOfMemory;

/// A number at three numbers, looked up by hash. Entries stand in one list, chained by buckets, of which there are at
/// least as many.
#[derive(Drop)]
pub struct TripleTable {
    alloc: Global,
    // The newest entry of each bucket, as its place plus one, and 0 for none.
    heads: Vec<u64>,
    entries: Vec<Entry>,
}

impl Model for TripleTable {
    ghost use Rattle.std.specs.Prelude.{List};
    ghost use Rattle.diagram_store.specs.declared.triple_chains.Entry.{Entry as EntryValue};
    ghost use Rattle.diagram_store.specs.private.TripleChains.{IsChained};

    ghost Value = { List EntryValue };

    ghost view = { λ t. t.entries.items };

    ghost invariant = { λ t. IsChained t.heads.items t.entries.items };
}

impl TripleTable {
    /// A table that knows nothing. It takes no memory.
    pub fn new(alloc: Global) -> TripleTable
        ensures { (x y z : ℕ) → known result x y z ≡ None }
    {
        TripleTable {
            alloc,
            heads: Vec::new(alloc),
            entries: Vec::new(alloc),
        }
    }

    /// A table that knows nothing, with room for so many numbers.
    pub fn with_room(alloc: Global, room: usize) -> Result<TripleTable, OutOfMemory>
        ensures { IfOk result (λ t. (x y z : ℕ) → known t x y z ≡ None) }
    {
        let heads = blank(alloc, buckets_for(room))?;
        let entries = Vec::with_capacity(alloc, room)?;
        Ok(TripleTable {
            alloc,
            heads,
            entries,
        })
    }

    /// The number that stands at three numbers.
    pub fn get(&self, x: u64, y: u64, z: u64) -> Option<u64>
        ensures { result ≡ known self.now x y z }
    {
        find(&self.heads, &self.entries, x, y, z)
    }

    /// Puts a number at three numbers, in place of the one that stands there.
    pub fn insert(&mut self, x: u64, y: u64, z: u64, value: u64) -> Result<(), OutOfMemory>
        ensures ok { OnOk result ((a b c : ℕ) → known self.new a b c
            ≡ cond (same_key (x, y, z) (a, b, c)) (Some value) (known self.old a b c)) }
        ensures err { OnErr result ((a b c : ℕ) → known self.new a b c ≡ known self.old a b c) }
    {
        make_room(self.alloc, &mut self.heads, &mut self.entries)?;
        add(&mut self.heads, &mut self.entries, x, y, z, value)
    }
}

// How many buckets there are at least, and to how many they are doubled for the room that is asked for.
const FEWEST_BUCKETS: usize = 16;

const MOST_FOR_ROOM: usize = 0x1_0000_0000;

// A power of two, at least so many up to the most.
fn buckets_for(room: usize) -> usize {
    let mut buckets = FEWEST_BUCKETS;
    while buckets < room && buckets < MOST_FOR_ROOM {
        buckets *= 2;
    }
    buckets
}

// Makes more buckets, and chains the entries anew, where there are no more buckets than entries.
fn make_room(
    alloc: Global,
    heads: &mut Vec<u64>,
    entries: &mut Vec<Entry>,
) -> Result<(), OutOfMemory>
    requires { IsChained heads.old.items entries.old.items }
    ensures chained { IsChained heads.new.items entries.new.items }
    ensures room { OnOk result (length entries.new.items < length heads.new.items) }
    ensures known { (x y z : ℕ) → known entries.new.items x y z ≡ known entries.old.items x y z }
{
    if entries.len() < heads.len() {
        return Ok(());
    }
    let count = (2 * heads.len()).max(FEWEST_BUCKETS);
    let more = blank(alloc, count)?;
    *heads = more;
    link(heads, entries);
    Ok(())
}
