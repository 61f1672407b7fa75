ghost use Rattle.std.specs.Prelude.{◌≡◌, ◌≤◌, ◌+◌, if◌then◌else◌, ◌++◌, ◌∷◌, ◌||◌, [], ℕ, List, length, map, nat_lt, IfOk, MatchOption, None, false};
ghost use Rattle.wpds_base.specs.Limits.{most_items, most_edges};
ghost use Rattle.wpds_port.specs.declared.Mark.TheVariants.{Colon};
ghost use Rattle.wpds_port.specs.declared.Word.TheVariants.{Mark as Sign};
ghost use Rattle.document_forms.specs.Kinds.{sources, edges};
ghost use Rattle.document_forms.specs.Lawful.{set_count, item_count};
ghost use Rattle.document_forms.specs.Patterns.{ItemForm, items_of};
ghost use Rattle.document_reader.specs.private.ItemReading.{begins_with_colon, IsSetRead, AreItemsRead, HasItems};
ghost use Rattle.document_reader.specs.QueryReading.{IsPatternOf};

use crate::items::{SetRead, read_item};
use document_forms::{ItemText, PatternText, SetText};
use rule_reader::{NameTable, split_name};
use std::alloc::Global;
use wpds_base::{MOST_EDGES, MOST_ITEMS, OutOfMemory, Sequence};
use wpds_port::{Lexeme, Mark, Words};

/// What is amiss with a query that has its form, or with one of its patterns.
#[derive(Clone, Copy, Debug, PartialEq, Eq)]
pub struct QueryFaults {
    /// Whether a symbol stands twice in a set.
    pub twice: bool,
    /// Whether a control or a symbol is not declared above.
    pub unknown: bool,
    /// Whether a pattern has too many items or edges.
    pub count: bool,
}

impl QueryFaults {
    /// What is amiss with either of two patterns.
    pub(crate) fn or(self, other: QueryFaults) -> QueryFaults
        ensures twice { result.twice ≡ (self.twice || other.twice) }
        ensures unknown { result.unknown ≡ (self.unknown || other.unknown) }
        ensures count { result.count ≡ (self.count || other.count) }
    {
        QueryFaults {
            twice: self.twice || other.twice,
            unknown: self.unknown || other.unknown,
            count: self.count || other.count,
        }
    }
}

/// A pattern as it is read. Where something is amiss, `pattern` says nothing.
#[derive(Drop)]
pub(crate) struct PatternRead {
    pub(crate) pattern: PatternText,
    pub(crate) faults: QueryFaults,
}

// The items of a pattern, as far as they are read. Of too many only the first ones are kept.
#[derive(Drop)]
struct ItemsRead {
    items: Vec<ItemText>,
    // whether they are too many
    long: bool,
    // whether a symbol stands twice in a set
    twice: bool,
    // whether a symbol is not declared above
    unknown: bool,
}

impl ItemsRead {
    fn new(alloc: Global) -> ItemsRead
        ensures { (symbols : List (List ℕ)) → AreItemsRead symbols [] result }
    {
        ItemsRead {
            items: Vec::new(alloc),
            long: false,
            twice: false,
            unknown: false,
        }
    }

    fn add(&mut self, read: SetRead, star: bool) -> Result<(), OutOfMemory>
        ensures { IfOk result (λ _. (symbols : List (List ℕ)) (is : List ItemForm) (i : ItemForm)
            → AreItemsRead symbols is self.old → IsSetRead symbols i.set read → star ≡ i.star
            → AreItemsRead symbols (is ++ i ∷ []) self.new) }
    {
        self.twice |= read.twice;
        self.unknown |= read.unknown;
        if self.items.len() < MOST_ITEMS {
            self.items.push(ItemText {
                set: read.set,
                star,
            })?;
        } else {
            self.long = true;
        }
        Ok(())
    }

    // Whether a pattern of these items is too large.
    fn is_large(&self, all: usize) -> bool
        requires { length self.now.items.items ≤ most_items }
        ensures { result ≡ (self.now.long
            || nat_lt most_edges (edges 1 (map (item_count all) self.now.items.items))) }
    {
        self.long || has_many_edges(all, &self.items)
    }
}

// The words behind the colon with which words begin.
fn split_colon<'t>(words: &Words<'t>) -> Option<Words<'t>>
    ensures { MatchOption result (begins_with_colon words.now ≡ false)
        (λ rest. words.now ≡ Sign Colon ∷ rest) }
{
    match words.split_first() {
        Some((Lexeme::Mark(Mark::Colon), rest)) => Some(rest),
        _ => None,
    }
}

// All words as items; nothing where they are none.
fn read_items(
    alloc: Global,
    symbols: &NameTable,
    words: &Words,
) -> Result<Option<ItemsRead>, OutOfMemory>
    ensures { IfOk result (λ o. MatchOption o (items_of words.now ≡ None)
        (λ r. HasItems symbols.now words.now r [])) }
{
    let mut read = ItemsRead::new(alloc);
    let mut left = words.reborrow();
    while let Some((first, behind)) = left.split_first() {
        let Some(item) = read_item(alloc, symbols, first, &behind)? else {
            return Ok(None);
        };
        read.add(item.set, item.star)?;
        left = item.rest;
    }
    Ok(Some(read))
}

fn set_len(all: usize, set: &SetText) -> usize
    ensures { result ≡ set_count all set.now }
{
    match set {
        SetText::All => all,
        SetText::Listed(symbols) => symbols.len(),
    }
}

// How many states have an edge to an item, where so many before it have one.
fn starts(from: usize, star: bool) -> usize
    requires { from ≤ most_items }
    ensures { result ≡ sources from star }
{
    if star { from + 1 } else { from }
}

// How many states before the next item have an edge to it.
fn starts_behind(from: usize, star: bool) -> usize
    requires { from ≤ most_items }
    ensures { result ≡ (if star then from + 1 else 1) }
{
    if star { from + 1 } else { 1 }
}

// Whether the automaton of the items has more edges than a pattern may have.
fn has_many_edges(all: usize, items: &[ItemText]) -> bool
    requires { length items.now ≤ most_items }
    ensures { result ≡ nat_lt most_edges (edges 1 (map (item_count all) items.now)) }
{
    let mut edges: usize = 0;
    let mut from: usize = 1;
    for item in items {
        let ends = set_len(all, &item.set).saturating_mul(starts(from, item.star));
        edges = edges.saturating_add(ends);
        from = starts_behind(from, item.star);
    }
    edges > MOST_EDGES
}

/// The words as a pattern, in a document that declares so many symbols in all; nothing where they
/// are none.
pub(crate) fn read_pattern(
    alloc: Global,
    all: usize,
    controls: &NameTable,
    symbols: &NameTable,
    words: &Words,
) -> Result<Option<PatternRead>, OutOfMemory>
    ensures { IfOk result (IsPatternOf all controls.now symbols.now words.now) }
{
    let Some((name, behind)) = split_name(words) else {
        return Ok(None);
    };
    let Some(rest) = split_colon(&behind) else {
        return Ok(None);
    };
    let Some(read) = read_items(alloc, symbols, &rest)? else {
        return Ok(None);
    };
    let number = controls.number_of(name);
    let faults = QueryFaults {
        twice: read.twice,
        unknown: number.is_none() || read.unknown,
        count: read.is_large(all),
    };
    let pattern = PatternText {
        control: number.unwrap_or(0),
        items: Sequence::from_vec(read.items),
    };
    Ok(Some(PatternRead { pattern, faults }))
}
