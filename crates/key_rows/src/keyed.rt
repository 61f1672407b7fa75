ghost use Rattle.std.specs.Prelude.{◌≡◌, ◌<◌, ◌≤◌, ◌+◌, ◌-◌, ◌^◌, ◌++◌, ◌∷◌, [], ℕ, List, length, map, replicate, set, take, None, Some, MatchOption, slice_get, IsTrue, IfOk, IfSome, OnOk, OnErr, Option, vec_len, vec_capacity};
ghost use Rattle.key_rows.specs.Positions.{last_where};
ghost use Rattle.key_rows.specs.Members.{number_of};
ghost use Rattle.key_rows.specs.private.Chains.{member_in, chain_of as chain_number, is_in, spare_in, AreChained, IsChainOf, IsFoundBy};
ghost use Rattle.key_rows.specs.private.Links.{most_cells};

use crate::key::Key;
use crate::link::Link;
use std::alloc::Global;
use std::marker::Model;
use wpds_base::OutOfMemory;

/// What is looked up by a key of its own.
pub trait Keyed<K: Key>: Drop {
    /// The key of one.
    ghost key_of: { Self → K };

    /// Its key.
    fn key(&self) -> K
        ensures { result ≡ key_of self.now };
}

/// A member, and where the one before it stands in its chain.
#[derive(Drop)]
pub(crate) struct Cell<T: Drop> {
    pub(crate) member: T,
    pub(crate) before: Link,
}

/// A key, and where its member stands.
#[derive(Clone, Copy, Drop)]
pub(crate) struct Made<K: Copy + Drop> {
    pub(crate) key: K,
    pub(crate) number: u32,
}

/// Members in order of addition, found by what their keys are spread to. Of members with one key the last is found.
#[derive(Drop)]
pub struct KeyedList<K: Key, T: Keyed<K>> {
    cells: Vec<Cell<T>>,
    // The last cell of each chain. The keys of a chain are spread to one number, up to how many chains there are.
    heads: Vec<Link>,
    // How often the chains were made anew.
    round: u64,
    // The key that was made last, or was there already, and where its member stands.
    made: Option<Made<K>>,
}

impl<K: Key, T: Keyed<K>> Model for KeyedList<K, T> {
    ghost use Rattle.std.specs.Prelude.{map, length, vec_len, vec_capacity, ◌≤◌};
    ghost use Rattle.key_rows.specs.Members.{KeyedMembers};
    ghost use Rattle.key_rows.specs.private.Chains.{member_in, spare_in, AreChained, IsFoundBy};
    ghost use Rattle.key_rows.specs.private.Links.{most_cells};

    ghost Value = { KeyedMembers T };

    ghost view = { λ t. record {
      members = map member_in t.cells.items;
      spare = spare_in (length t.heads.items) (vec_capacity t.cells) (vec_len t.cells);
    } };

    ghost invariant = { λ t.
        AreChained T.key_of K.spread t.round t.cells.items t.heads.items
        × (length t.cells.items ≤ most_cells)
        × IsFoundBy K.cmp T.key_of (map member_in t.cells.items) t.made };
}

// Which of so many chains a key is in: its number, as a part of all numbers, of so many (Lemire 2019).
fn chain_of<K: Key>(key: K, round: u64, count: usize) -> usize
    requires { 0 < count }
    ensures { IsChainOf K.spread round count key result }
{
    let number = u128::from(key.spread(round));
    (number * count as u128 / (1 << 64)) as usize
}

// What a walk along the chain of a key came to.
#[derive(Clone, Copy, Debug, PartialEq, Eq)]
struct Walk {
    // Where the cell of the key stands.
    found: Option<u32>,
    // Which of the chains was walked along, where there are any.
    chain: usize,
    // How many cells were passed before the key's own.
    passed: u32,
}

// The last cell of a chain, which is that of a key.
fn chain_end<K: Key, T: Keyed<K>>(
    cells: &[Cell<T>],
    heads: &[Link],
    round: u64,
    key: K,
    chain: usize,
) -> Option<u32>
    requires chained { AreChained T.key_of K.spread round cells.now heads.now }
    requires chain { IsChainOf K.spread round (length heads.now) key chain }
    ensures { let count = length heads.now in
        let chain = chain_number K.spread round count key in
        result ≡ last_where (is_in T.key_of K.spread round count chain) cells.now }
{
    heads[chain].get()
}

// Walks along a chain to the cell of its key.
fn walk_along<K: Key, T: Keyed<K>>(
    cells: &[Cell<T>],
    heads: &[Link],
    round: u64,
    key: K,
    chain: usize,
) -> Walk
    requires chained { AreChained T.key_of K.spread round cells.now heads.now }
    requires chain { IsChainOf K.spread round (length heads.now) key chain }
    ensures found { result.found ≡ number_of K.cmp T.key_of key (map member_in cells.now) }
    ensures chain { result.chain ≡ chain }
{
    let mut at = chain_end(cells, heads, round, key, chain);
    let mut passed: u32 = 0;
    'chain: while let Some(k) = at {
        let cell = &cells[k as usize];
        if key.is_key(cell.member.key()) {
            return Walk {
                found: Some(k),
                chain,
                passed,
            };
        }
        passed = passed.wrapping_add(1);
        at = cell.before.get();
    }
    Walk {
        found: None,
        chain,
        passed,
    }
}

// Looks for the cell of a key, in its chain. The key is spread once.
fn walk_chain<K: Key, T: Keyed<K>>(cells: &[Cell<T>], heads: &[Link], round: u64, key: K) -> Walk
    requires { AreChained T.key_of K.spread round cells.now heads.now }
    ensures found { result.found ≡ number_of K.cmp T.key_of key (map member_in cells.now) }
    ensures chain { 0 < length heads.now
        → IsChainOf K.spread round (length heads.now) key result.chain }
{
    if heads.is_empty() {
        return Walk {
            found: None,
            chain: 0,
            passed: 0,
        };
    }
    let chain = chain_of(key, round, heads.len());
    walk_along(cells, heads, round, key, chain)
}

// Ends a chain with another cell, and says with which it ended.
fn replace_end(heads: &mut [Link], chain: usize, number: u32) -> Link
    requires chain { chain < length heads.old }
    requires number { number < most_cells }
    ensures before { slice_get heads.old chain ≡ Some result }
    ensures after { heads.new ≡ set heads.old chain (Some number) }
{
    let before = heads[chain];
    heads[chain] = Link::to(number);
    before
}

// Puts a cell last, at the end of its chain. It takes no memory.
fn push_cell<K: Key, T: Keyed<K>>(
    cells: &mut Vec<Cell<T>>,
    heads: &mut [Link],
    round: u64,
    chain: usize,
    member: T,
)
    requires chained { AreChained T.key_of K.spread round cells.old.items heads.old }
    requires chain { IsChainOf K.spread round (length heads.old) (T.key_of member) chain }
    requires room { vec_len cells.old < vec_capacity cells.old }
    requires numbers { vec_len cells.old < most_cells }
    ensures chained { AreChained T.key_of K.spread round cells.new.items heads.new }
    ensures members { map member_in cells.new.items
        ≡ map member_in cells.old.items ++ member ∷ [] }
    ensures found { number_of K.cmp T.key_of (T.key_of member) (map member_in cells.new.items)
        ≡ Some (vec_len cells.old) }
    ensures len { vec_len cells.new ≡ vec_len cells.old + 1 }
    ensures capacity { vec_capacity cells.new ≡ vec_capacity cells.old }
    ensures heads { length heads.new ≡ length heads.old }
{
    let before = replace_end(heads, chain, cells.len() as u32);
    cells.push_reserved(Cell { member, before });
}

// Puts the cell of a number at the end of its chain, behind those before it. Its member stays.
fn relink<K: Key, T: Keyed<K>>(cells: &mut [Cell<T>], heads: &mut [Link], round: u64, i: usize)
    requires number { i < length cells.old }
    requires few { length cells.old ≤ most_cells }
    requires heads { 0 < length heads.old }
    requires chained { AreChained T.key_of K.spread round (take i cells.old) heads.old }
    ensures chained { AreChained T.key_of K.spread round (take (i + 1) cells.new) heads.new }
    ensures members { map member_in cells.new ≡ map member_in cells.old }
    ensures cells { length cells.new ≡ length cells.old }
    ensures heads { length heads.new ≡ length heads.old }
{
    let chain = chain_of(cells[i].member.key(), round, heads.len());
    let before = replace_end(heads, chain, i as u32);
    cells[i].before = before;
}

// Chains cells anew, where no chain has an end yet. Their members stay.
fn relink_all<K: Key, T: Keyed<K>>(cells: &mut [Cell<T>], heads: &mut [Link], round: u64)
    requires few { length cells.old ≤ most_cells }
    requires heads { 0 < length heads.old }
    requires none { heads.old ≡ replicate (length heads.old) None }
    ensures chained { AreChained T.key_of K.spread round cells.new heads.new }
    ensures members { map member_in cells.new ≡ map member_in cells.old }
    ensures heads { length heads.new ≡ length heads.old }
{
    for i in 0..cells.len() {
        relink(cells, heads, round, i);
    }
}

// So many chains, each without an end. It takes no memory.
fn empty_chains(heads: &mut Vec<Link>, count: usize)
    requires { count ≤ vec_capacity heads.old }
    ensures { heads.new.items ≡ replicate count None }
{
    heads.clear();
    for _ in 0..count {
        heads.push_reserved(Link::none());
    }
}

// Makes so many chains of the cells. It is refused only when out of memory, and then all stays as it was.
fn rebuild<K: Key, T: Keyed<K>>(
    cells: &mut [Cell<T>],
    heads: &mut Vec<Link>,
    round: u64,
    count: usize,
) -> Result<(), OutOfMemory>
    requires few { length cells.old ≤ most_cells }
    requires count { 0 < count }
    ensures chained { OnOk result
        (AreChained T.key_of K.spread round cells.new heads.new.items) }
    ensures heads { OnOk result (0 < length heads.new.items) }
    ensures members { map member_in cells.new ≡ map member_in cells.old }
    ensures stays { OnErr result (cells.new ≡ cells.old) }
    ensures chains { OnErr result (heads.new.items ≡ heads.old.items) }
{
    heads.reserve(count)?;
    empty_chains(heads, count);
    relink_all(cells, heads, round);
    Ok(())
}

// How many chains so many cells are to have: four times as many, so that few cells are put into chains anew.
fn chains_for(cells: usize) -> usize
    ensures { 0 < result }
{
    cells.saturating_mul(4).max(16)
}

// Whether there are as few chains as cells, or a chain is long that has so many.
fn are_crowded(cells: usize, chains: usize, round: u64, passed: u32) -> bool
    ensures { chains ≡ 0 → IsTrue result }
{
    let most = round.saturating_add(1).saturating_mul(64);
    chains <= cells || u64::from(passed) > most
}

// Where a new cell goes: into which chain, and in which round the chains are made.
#[derive(Clone, Copy, Debug, PartialEq, Eq)]
struct Space {
    round: u64,
    chain: usize,
}

// Makes room for so many cells, one at least, the first of a key that has none, and more chains where they are crowded, as a
// walk to the key told.
fn make_space<K: Key, T: Keyed<K>>(
    cells: &mut Vec<Cell<T>>,
    heads: &mut Vec<Link>,
    round: u64,
    key: K,
    walk: Walk,
    more: usize,
) -> Result<Space, OutOfMemory>
    requires chained { AreChained T.key_of K.spread round cells.old.items heads.old.items }
    requires few { length cells.old.items ≤ most_cells }
    requires walk { 0 < length heads.old.items
        → IsChainOf K.spread round (length heads.old.items) key walk.chain }
    ensures members { map member_in cells.new.items ≡ map member_in cells.old.items }
    ensures len { vec_len cells.new ≡ vec_len cells.old }
    ensures chained { IfOk result
        (λ s. AreChained T.key_of K.spread s.round cells.new.items heads.new.items) }
    ensures chain { IfOk result
        (λ s. IsChainOf K.spread s.round (length heads.new.items) key s.chain) }
    ensures room { OnOk result (vec_len cells.old + more ≤ vec_capacity cells.new) }
    ensures numbers { OnOk result (vec_len cells.old + more ≤ most_cells) }
    ensures stays { OnErr result (cells.new.items ≡ cells.old.items) }
    ensures chains { OnErr result (heads.new.items ≡ heads.old.items) }
    ensures kept { vec_capacity cells.old ≤ vec_capacity cells.new }
{
    let count = cells.len();
    if more > u32::MAX as usize - count {
        return Err(OutOfMemory);
    }
    cells.reserve(more)?;
    if !are_crowded(count, heads.len(), round, walk.passed) {
        return Ok(Space {
            round,
            chain: walk.chain,
        });
    }
    let next = round.wrapping_add(1);
    rebuild(cells, heads, next, chains_for(count))?;
    Ok(Space {
        round: next,
        chain: chain_of(key, next, heads.len()),
    })
}

// Puts a member last, once the chain of its key was walked along, and makes room for so many more. It says in which round the
// chains are made now.
fn append_walked<K: Key, T: Keyed<K>>(
    cells: &mut Vec<Cell<T>>,
    heads: &mut Vec<Link>,
    round: u64,
    member: T,
    walk: Walk,
    more: usize,
) -> Result<u64, OutOfMemory>
    requires chained { AreChained T.key_of K.spread round cells.old.items heads.old.items }
    requires few { length cells.old.items ≤ most_cells }
    requires walk { 0 < length heads.old.items
        → IsChainOf K.spread round (length heads.old.items) (T.key_of member) walk.chain }
    ensures chained { IfOk result
        (λ r. AreChained T.key_of K.spread r cells.new.items heads.new.items) }
    ensures members { OnOk result
        (map member_in cells.new.items ≡ map member_in cells.old.items ++ member ∷ []) }
    ensures found { let key = T.key_of member in
        OnOk result (number_of K.cmp T.key_of key (map member_in cells.new.items)
        ≡ Some (vec_len cells.old)) }
    ensures heads { OnOk result (0 < length heads.new.items) }
    ensures room { OnOk result (vec_len cells.new + more ≤ vec_capacity cells.new) }
    ensures numbers { OnOk result (vec_len cells.new + more ≤ most_cells) }
    ensures stays { OnErr result (cells.new.items ≡ cells.old.items) }
    ensures chains { OnErr result (heads.new.items ≡ heads.old.items) }
    ensures len { OnErr result (vec_len cells.new ≡ vec_len cells.old) }
    ensures kept { OnErr result (vec_capacity cells.old ≤ vec_capacity cells.new) }
{
    let all = more.checked_add(1).ok_or(OutOfMemory)?;
    let space = make_space(cells, heads, round, member.key(), walk, all)?;
    push_cell(cells, heads, space.round, space.chain, member);
    Ok(space.round)
}

// Where the member of a key stands, if it is the one that was made last.
fn made_number<K: Key, T: Keyed<K>>(made: Option<Made<K>>, key: K) -> Option<u32>
    ensures { (members : List T) → IsFoundBy K.cmp T.key_of members made
        → IfSome result (λ n. number_of K.cmp T.key_of key members ≡ Some n) }
{
    match made {
        Some(made) => {
            if key.is_key(made.key) {
                return Some(made.number);
            }
            None
        }
        None => None,
    }
}

// Writes a member over that of a number, which has the same key.
fn write_member<K: Key, T: Keyed<K>>(cells: &mut [Cell<T>], k: usize, member: T)
    requires number { k < length cells.old }
    requires key { (t : T) → slice_get (map member_in cells.old) k ≡ Some t
        → T.key_of member ≡ T.key_of t }
    ensures members { map member_in cells.new ≡ set (map member_in cells.old) k member }
    ensures chained { (n : ℕ) (heads : List (Option ℕ)) →
        AreChained T.key_of K.spread n cells.old heads
        → AreChained T.key_of K.spread n cells.new heads }
    ensures found { (k : K) → number_of K.cmp T.key_of k (map member_in cells.new)
        ≡ number_of K.cmp T.key_of k (map member_in cells.old) }
    ensures len { length cells.new ≡ length cells.old }
{
    cells[k].member = member;
}

impl<K: Key, T: Keyed<K>> KeyedList<K, T> {
    /// No members. It takes no memory.
    pub fn new(alloc: Global) -> KeyedList<K, T>
        ensures { result ≡ record { members = []; spare = 0 } }
    {
        KeyedList {
            cells: Vec::new(alloc),
            heads: Vec::new(alloc),
            round: 0,
            made: None,
        }
    }

    /// How many members there are.
    pub fn len(&self) -> usize
        ensures len { result ≡ length self.now.members }
        ensures few { result < 2 ^ 32 }
    {
        self.cells.len()
    }

    /// Where the member with a key stands.
    pub fn find(&self, key: K) -> Option<u32>
        ensures number { result ≡ number_of K.cmp T.key_of key self.now.members }
        ensures within { IfSome result (λ k. k < length self.now.members) }
    {
        walk_chain(&self.cells, &self.heads, self.round, key).found
    }

    /// Where the member with a key stands, found at once if it is the one that was made last.
    pub fn find_made(&self, key: K) -> Option<u32>
        ensures number { result ≡ number_of K.cmp T.key_of key self.now.members }
        ensures within { IfSome result (λ k. k < length self.now.members) }
    {
        match made_number::<K, T>(self.made, key) {
            Some(number) => Some(number),
            None => self.find(key),
        }
    }

    /// The member of a number.
    pub fn get(&self, k: usize) -> &T
        requires { k < length self.now.members }
        ensures { slice_get self.now.members k ≡ Some result.now }
    {
        &self.cells[k].member
    }

    /// Writes a member over that of a number, which has the same key.
    pub fn replace(&mut self, k: usize, member: T)
        requires number { k < length self.old.members }
        requires key { (t : T) → slice_get self.old.members k ≡ Some t
            → T.key_of member ≡ T.key_of t }
        ensures members { self.new.members ≡ set self.old.members k member }
        ensures spare { self.new.spare ≡ self.old.spare }
    {
        write_member(&mut self.cells, k, member);
    }

    /// Makes room for so many members, one at least, of which the first has this key: if there are none, for any. It is refused
    /// only when out of memory, or when members can't be numbered any more, and they stay as they were then.
    pub fn reserve(&mut self, key: K, more: usize) -> Result<(), OutOfMemory>
        ensures members { self.new.members ≡ self.old.members }
        ensures spare { OnOk result (more ≤ self.new.spare) }
        ensures kept { self.old.spare ≤ self.new.spare }
    {
        let walk = walk_chain(&self.cells, &self.heads, self.round, key);
        let space = make_space(
            &mut self.cells,
            &mut self.heads,
            self.round,
            key,
            walk,
            more,
        )?;
        self.round = space.round;
        Ok(())
    }

    /// Puts a member last, where there is room. It takes no memory.
    pub fn push_reserved(&mut self, member: T)
        requires { 0 < self.old.spare }
        ensures members { self.new.members ≡ self.old.members ++ member ∷ [] }
        ensures spare { self.new.spare + 1 ≡ self.old.spare }
    {
        let key = member.key();
        let number = self.cells.len() as u32;
        let chain = chain_of(key, self.round, self.heads.len());
        self.made = Some(Made { key, number });
        push_cell(&mut self.cells, &mut self.heads, self.round, chain, member);
    }

    /// Puts a member last, and makes room for so many more. It is refused only when out of memory, or when members can't be
    /// numbered any more, and they stay as they were then.
    pub fn append(&mut self, member: T, more: usize) -> Result<(), OutOfMemory>
        ensures members { OnOk result (self.new.members ≡ self.old.members ++ member ∷ []) }
        ensures spare { OnOk result (more ≤ self.new.spare) }
        ensures stays { OnErr result (self.new.members ≡ self.old.members) }
        ensures kept { OnErr result (self.old.spare ≤ self.new.spare) }
    {
        let key = member.key();
        let walk = walk_chain(&self.cells, &self.heads, self.round, key);
        let number = self.cells.len() as u32;
        let (cells, heads) = (&mut self.cells, &mut self.heads);
        self.round = append_walked(cells, heads, self.round, member, walk, more)?;
        self.made = Some(Made { key, number });
        Ok(())
    }

    /// Puts a member last, unless one has its key. It is refused only when out of memory, or when members can't be numbered any
    /// more, and they stay as they were then.
    pub fn make(&mut self, member: T) -> Result<(), OutOfMemory>
        ensures members { OnOk result (let key = T.key_of member in
            MatchOption (number_of K.cmp T.key_of key self.old.members)
            (self.new.members ≡ self.old.members ++ member ∷ [])
            (λ _. self.new.members ≡ self.old.members)) }
        ensures stays { OnErr result (self.new.members ≡ self.old.members) }
    {
        let key = member.key();
        let walk = walk_chain(&self.cells, &self.heads, self.round, key);
        if let Some(number) = walk.found {
            self.made = Some(Made { key, number });
            return Ok(());
        }
        let number = self.cells.len() as u32;
        let (cells, heads) = (&mut self.cells, &mut self.heads);
        self.round = append_walked(cells, heads, self.round, member, walk, 0)?;
        self.made = Some(Made { key, number });
        Ok(())
    }
}
