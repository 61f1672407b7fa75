ghost use Rattle.std.specs.Prelude.{◌≡◌, ℕ, List, ◌<◌, ◌≤◌, ◌++◌, ◌∷◌, [], length, ◌+◌, ◌*◌, if◌then◌else◌, IsTrue, IfOk, OnOk, OnErr, IsOk, All, nat_le, false, slice_get, None, Some};
ghost use Rattle.std.specs.List.{list_any, list_all, range_with_len};
ghost use Rattle.wpds_base.specs.Limits.{most_items};
ghost use Rattle.config_patterns.specs.declared.pattern.PatternFault.TheVariants.{Memory};
ghost use Rattle.config_patterns.specs.Membership.{has_member, with_item};
ghost use Rattle.config_patterns.specs.Edges.{edges_of, is_final_of, is_starred};
ghost use Rattle.config_patterns.specs.Validity.{is_set, IsItem, IsPattern, IsWithin};
ghost use Rattle.config_patterns.specs.Fault.{item_fault, refusal_of, IsAccepted};
ghost use Rattle.config_patterns.specs.private.Counted.{IsCounted};

use crate::edge_list::list_edges;
use crate::matching::match_stack;
use crate::symbol_set::copy_set;
use crate::{EdgeList, Item, SymbolSet};
use pushdown_rules::Config;
use std::alloc::{AllocFailed, Global};
use std::marker::Model;
use thiserror::Error;
use wpds_base::{MOST_EDGES, MOST_ITEMS, OutOfMemory};

/// Why an item was not added. Of several causes the first in this order is returned.
#[derive(Clone, Copy, Debug, PartialEq, Eq, Error)]
pub enum PatternFault {
    /// One of its symbols is not below the count.
    #[error("no such symbol")]
    NoSymbol,
    /// There are 1,000 items.
    #[error("too many items")]
    TooManyItems,
    /// With the item there were over 1,000,000 edges.
    #[error("too many edges")]
    TooManyEdges,
    /// No memory was left, and no other cause was there.
    #[error("out of memory")]
    Memory,
}

impl From<OutOfMemory> for PatternFault {
    ghost from_gives = { λ _ e. e ≡ Memory };

    fn from(_: OutOfMemory) -> Self {
        PatternFault::Memory
    }
}

impl<T: Drop> From<AllocFailed<T>> for PatternFault {
    ghost from_gives = { λ _ e. e ≡ Memory };

    fn from(_: AllocFailed<T>) -> Self {
        PatternFault::Memory
    }
}

/// An answer to an item that is not refused, which only memory can lack.
pub fn unrefused(added: Result<(), PatternFault>) -> Result<(), OutOfMemory>
    requires { refusal_of added ≡ None }
    ensures { OnOk result (IsOk added) }
{
    match added {
        Ok(()) => Ok(()),
        Err(PatternFault::Memory) => Err(OutOfMemory),
        Err(_) => unreachable!(),
    }
}

/// A set of configurations: those with its control whose stack matches its items. No items match the empty stack alone.
/// An item without star takes one symbol of its set; an item with star takes any number of them.
#[derive(Drop)]
pub struct Pattern {
    control: u32,
    symbols: u32,
    items: Vec<Item>,
    // how many edges and final states the automaton of the items has
    edges: u64,
    finals: u64,
}

impl Model for Pattern {
    ghost use Rattle.config_patterns.specs.Membership.{PatternValue};
    ghost use Rattle.config_patterns.specs.Validity.{AreCounts, IsPattern};

    ghost Value = { PatternValue };

    ghost view = { λ p. record {
      control = p.control;
      symbols = p.symbols;
      items = p.items.items;
    } };

    ghost invariant = { λ p.
        IsPattern (record { control = p.control; symbols = p.symbols; items = p.items.items })
        × AreCounts p.items.items p.edges p.finals };
}

impl Pattern {
    /// A pattern without items, over so many symbols. It takes no memory.
    pub fn new(alloc: Global, control: u32, symbols: u32) -> Pattern
        ensures { result ≡ record { control = control; symbols = symbols; items = [] } }
    {
        Pattern {
            control,
            symbols,
            items: Vec::new(alloc),
            edges: 0,
            finals: 1,
        }
    }

    /// Its control.
    pub fn control(&self) -> u32
        ensures value { result ≡ self.now.control }
        ensures valid { IsPattern self.now }
    {
        self.control
    }

    /// How many symbols there are: those of its items are below it.
    pub fn symbols(&self) -> u32
        ensures value { result ≡ self.now.symbols }
        ensures valid { IsPattern self.now }
    {
        self.symbols
    }

    /// How many items it has.
    pub fn items(&self) -> u32
        ensures value { result ≡ length self.now.items }
        ensures limit { result ≤ most_items }
        ensures valid { IsPattern self.now }
    {
        self.items.len() as u32
    }

    /// An item, counted from 0.
    pub fn item(&self, k: u32) -> &Item
        requires { k < length self.now.items }
        ensures item { slice_get self.now.items k ≡ Some result.now }
        ensures valid { IsItem self.now.symbols result.now }
    {
        &self.items[k as usize]
    }

    /// Whether a configuration is one of its own. It takes no memory; its time is that of the depth times the symbols of
    /// all items.
    pub fn matches(&self, c: &Config) -> bool
        ensures { result ≡ has_member self.now c.now }
    {
        c.control() == self.control && match_stack(&self.items, c)
    }

    /// The edges of the automaton that reads the stacks of its configurations: state 0 is the control, and state `i` the
    /// `i`-th item, counted from 1. They stand by source, then by target, then in the order of the item's set.
    pub fn edges(&self, alloc: Global) -> Result<EdgeList, OutOfMemory>
        ensures { IfOk result (λ l. l ≡ edges_of self.now.items) }
    {
        let edges = list_edges(alloc, &self.items, self.edges)?;
        Ok(EdgeList::from_vec(edges))
    }

    /// Whether the automaton may stop in a state.
    pub fn is_final(&self, state: u32) -> bool
        ensures { result ≡ is_final_of self.now.items state }
    {
        let state = state as usize;
        state <= self.items.len() && are_starred(&self.items[state..])
    }

    /// Adds an item. After a refusal the pattern is as it was.
    pub fn add_item(&mut self, alloc: Global, set: &[u32], star: bool) -> Result<(), PatternFault>
        requires { IsTrue (is_set set.now) }
        ensures added { OnOk result (self.new ≡ with_item self.old set.now star) }
        ensures refusal { refusal_of result ≡ item_fault self.old set.now star }
        ensures err { OnErr result (self.new ≡ self.old) }
    {
        if has_from(self.symbols, set) {
            return Err(PatternFault::NoSymbol);
        }
        let edges = self.admit(set.len() as u64, star)?;
        let set = copy_set(alloc, set)?;
        self.push(Item { set, star }, edges)?;
        Ok(())
    }

    /// Adds an item that takes every symbol there is. After a refusal the pattern is as it was.
    #[tactic(auto, using(crate::proofs::RangeLemmas::all_counted, crate::proofs::RangeLemmas::all_once))]
    pub fn add_all(&mut self, star: bool) -> Result<(), PatternFault>
        ensures added { let all = range_with_len 0 self.old.symbols in
            OnOk result (self.new ≡ with_item self.old all star) }
        ensures refusal { let all = range_with_len 0 self.old.symbols in
            refusal_of result ≡ item_fault self.old all star }
        ensures err { OnErr result (self.new ≡ self.old) }
    {
        let edges = self.admit(self.symbols as u64, star)?;
        let set = SymbolSet::all(self.symbols);
        self.push(Item { set, star }, edges)?;
        Ok(())
    }

    // How many edges there are with an item of so many symbols of the pattern, or its first refusal.
    fn admit(&self, count: u64, star: bool) -> Result<u64, PatternFault>
        ensures refusal { (set : List ℕ) → IsCounted count self.now.symbols set →
            refusal_of result ≡ item_fault self.now set star }
        ensures accepted { OnOk result ((set : List ℕ) → IsCounted count self.now.symbols set →
            IsAccepted self.now set star) }
        ensures count { IfOk result (λ n. (set : List ℕ) → IsCounted count self.now.symbols set →
            n ≡ length (edges_of (with_item self.now set star).items)) }
    {
        if self.items.len() >= MOST_ITEMS {
            return Err(PatternFault::TooManyItems);
        }
        match edges_with(self.edges, self.finals, count, star) {
            Some(edges) => Ok(edges),
            None => Err(PatternFault::TooManyEdges),
        }
    }

    // Adds an item that is not refused, with which there are so many edges.
    fn push(&mut self, item: Item, edges: u64) -> Result<(), OutOfMemory>
        requires once { IsTrue (is_set item.set) }
        requires accepted { IsAccepted self.old item.set item.star }
        requires count { edges ≡ length (edges_of (with_item self.old item.set item.star).items) }
        ensures added { OnOk result (self.new ≡ with_item self.old item.set item.star) }
        ensures err { OnErr result (self.new ≡ self.old) }
    {
        let star = item.star;
        self.items.push(item)?;
        self.edges = edges;
        self.finals = if star { self.finals + 1 } else { 1 };
        Ok(())
    }
}

// How many edges there are with an item of so many symbols, if they are not too many. Each of its symbols has an edge
// from each state that was final, and with a star one from the item itself.
fn edges_with(edges: u64, finals: u64, symbols: u64, star: bool) -> Option<u64>
    requires { finals ≤ 1001 }
    ensures { IsWithin result (edges + symbols * (finals + (if star then 1 else 0))) }
{
    let sources = if star { finals + 1 } else { finals };
    let Some(more) = symbols.checked_mul(sources) else {
        return None;
    };
    match edges.checked_add(more) {
        Some(all) if all <= MOST_EDGES as u64 => Some(all),
        _ => None,
    }
}

// Whether one of the symbols is not below a number.
fn has_from(symbols: u32, set: &[u32]) -> bool
    ensures test { result ≡ list_any (λ g. nat_le symbols g) set.now }
    ensures none { result ≡ false → All (λ g. g < symbols) set.now }
{
    set.iter().any(|g| *g >= symbols)
}

fn are_starred(items: &[Item]) -> bool
    ensures { result ≡ list_all is_starred items.now }
{
    for item in items {
        if !item.star {
            return false;
        }
    }
    true
}
