ghost use Rattle.std.specs.Prelude.{◌≡◌, ◌<◌, ◌≤◌, ◌+◌, ℕ, All, [], IfOk, OnOk, OnErr, Some, cond, length, take};
ghost use Rattle.diagram_store.specs.TripleTables.{known, same_key};
ghost use Rattle.diagram_store.specs.private.TripleChains.{IsChained, IsLinked, IsBlank};
ghost use Rattle.diagram_store.specs.private.TripleChains as spec;

use std::alloc::Global;
use wpds_base::OutOfMemory;

/// A number at three numbers, and where the next older entry of its bucket stands: its place plus one, and 0 for none.
#[derive(Clone, Copy, Debug)]
pub(crate) struct Entry {
    pub(crate) x: u64,
    pub(crate) y: u64,
    pub(crate) z: u64,
    pub(crate) value: u64,
    pub(crate) older: u64,
}

// The bucket of three numbers, by the high half of a sum of products (Dietzfelbinger 1996). Counts of buckets are powers of
// two, so that its last bits are the remainder.
fn bucket(count: usize, x: u64, y: u64, z: u64) -> usize
    requires { 0 < count }
    ensures within { result < count }
    ensures bucket { result ≡ spec.bucket count x y z }
{
    let first = x.wrapping_mul(0x9e37_79b9_7f4a_7c15);
    let second = y.wrapping_mul(0xbf58_476d_1ce4_e5b9);
    let third = z.wrapping_mul(0x94d0_49bb_1331_11eb);
    let mixed = first.wrapping_add(second).wrapping_add(third);
    (mixed >> 32) as usize & (count - 1)
}

/// The number that stands at three numbers, by the chain of their bucket from the newest entry on.
pub(crate) fn find(heads: &[u64], entries: &[Entry], x: u64, y: u64, z: u64) -> Option<u64>
    requires { IsChained heads.now entries.now }
    ensures { result ≡ known entries.now x y z }
{
    if heads.is_empty() {
        return None;
    }
    let mut at = heads[bucket(heads.len(), x, y, z)];
    while at > 0 {
        let entry = entries[at as usize - 1];
        if is_at(&entry, x, y, z) {
            return Some(entry.value);
        }
        at = entry.older;
    }
    None
}

fn is_at(entry: &Entry, x: u64, y: u64, z: u64) -> bool
    ensures { let e = entry.now in result ≡ same_key (e.x, e.y, e.z) (x, y, z) }
{
    entry.x == x && entry.y == y && entry.z == z
}

/// Adds an entry, newest of all.
pub(crate) fn add(
    heads: &mut [u64],
    entries: &mut Vec<Entry>,
    x: u64,
    y: u64,
    z: u64,
    value: u64,
) -> Result<(), OutOfMemory>
    requires chained { IsChained heads.old entries.old.items }
    requires room { length entries.old.items < length heads.old }
    ensures chained { IsChained heads.new entries.new.items }
    ensures ok { OnOk result ((a b c : ℕ) → known entries.new.items a b c
        ≡ cond (same_key (x, y, z) (a, b, c)) (Some value) (known entries.old.items a b c)) }
    ensures err { OnErr result (entries.new.items ≡ entries.old.items) }
{
    let bucket = bucket(heads.len(), x, y, z);
    let older = heads[bucket];
    entries.push(Entry {
        x,
        y,
        z,
        value,
        older,
    })?;
    heads[bucket] = entries.len() as u64;
    Ok(())
}

/// So many buckets without entries.
pub(crate) fn blank(alloc: Global, count: usize) -> Result<Vec<u64>, OutOfMemory>
    ensures blank { IfOk result (λ v. All IsBlank v.items) }
    ensures count { IfOk result (λ v. length v.items ≡ count) }
{
    let mut heads = Vec::new(alloc);
    heads.resize(count, 0)?;
    Ok(heads)
}

/// Chains the entries anew, in buckets that have none.
pub(crate) fn link(heads: &mut [u64], entries: &mut [Entry])
    requires some { 0 < length heads.old }
    requires blank { All IsBlank heads.old }
    ensures linked { IsLinked heads.new entries.new }
    ensures buckets { length heads.new ≡ length heads.old }
    ensures count { length entries.new ≡ length entries.old }
    ensures known { (x y z : ℕ) → known entries.new x y z ≡ known entries.old x y z }
{
    for k in 0..entries.len() {
        link_one(heads, entries, k);
    }
}

// Chains an entry behind those before it.
fn link_one(heads: &mut [u64], entries: &mut [Entry], k: usize)
    requires some { 0 < length heads.old }
    requires entry { k < length entries.old }
    requires linked { IsLinked heads.old (take k entries.old) }
    ensures linked { IsLinked heads.new (take (k + 1) entries.new) }
    ensures buckets { length heads.new ≡ length heads.old }
    ensures count { length entries.new ≡ length entries.old }
    ensures known { (x y z : ℕ) → known entries.new x y z ≡ known entries.old x y z }
{
    let entry = entries[k];
    let bucket = bucket(heads.len(), entry.x, entry.y, entry.z);
    let older = heads[bucket];
    entries[k] = Entry { older, ..entry };
    heads[bucket] = k as u64 + 1;
}
