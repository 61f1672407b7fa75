//! The weight of a rule, from its words.

ghost use Rattle.std.specs.Prelude.{◌≡◌, ◌∷◌, [], MatchOption, false, ℕ, ◌^◌, ◌+◌, ◌-◌, ◌*◌, List, IfOk, Some, None, option_map, if◌then◌else◌, nat_lt};
ghost use Rattle.wpds_port.specs.Words.{word_of};
ghost use Rattle.truth_tables.specs.Grammar.{number_of};
ghost use Rattle.document_forms.specs.Weights.{NumberForm, OneForm, cost_of, is_only, own_weight};
ghost use Rattle.rule_reader.specs.WeightReads.{IsRead, IsReadAs, IsWeightRead};
ghost use Rattle.rule_reader.specs.TreeReads.{either};

mod actions;
mod exprs;
mod facts;
mod forms;
mod pieces;

use crate::digits::number;
use crate::names::NameTable;
use crate::weights::actions::read_actions;
use crate::weights::facts::read_facts;
use crate::weights::forms::read_forms;
use document_forms::{WeightText, WeightsLine};
pub use exprs::{TreeRead, ValueRead, read_tree, read_value};
pub use pieces::{Cut, Pieces};
use std::alloc::Global;
use wpds_base::OutOfMemory;
use wpds_port::{Lexeme, Words};

/// What is amiss with a weight that has its form.
#[derive(Clone, Copy, Debug)]
pub struct WeightFaults {
    /// A name is none of the facts or variables.
    pub unknown: bool,
    /// A number is too large, a name stands twice, or an assignment is uneven.
    pub unlawful: bool,
    /// An expression is too deep. This is told only where nothing is unlawful.
    pub deep: bool,
}

impl WeightFaults {
    /// Nothing is amiss.
    pub fn none() -> WeightFaults
        ensures { result ≡ record { unknown = false; unlawful = false; deep = false } }
    {
        WeightFaults {
            unknown: false,
            unlawful: false,
            deep: false,
        }
    }

    /// What is amiss with one of two parts.
    pub fn or(self, other: WeightFaults) -> WeightFaults
        ensures { result ≡ either self other }
    {
        WeightFaults {
            unknown: self.unknown || other.unknown,
            unlawful: self.unlawful || other.unlawful,
            deep: self.deep || other.deep,
        }
    }
}

/// A weight that was read: its value, if nothing is amiss, and what is.
#[derive(Debug, Drop)]
pub struct WeightRead {
    /// The value; it says nothing where something is amiss.
    pub value: WeightText,
    /// What is amiss.
    pub faults: WeightFaults,
}

impl WeightRead {
    /// The weight of a rule that has none.
    pub(crate) fn one() -> WeightRead
        ensures { (items : List (List ℕ)) → IsReadAs items OneForm result }
    {
        WeightRead::without_fault(WeightText::One)
    }

    // A weight with which nothing is amiss.
    fn without_fault(value: WeightText) -> WeightRead
        ensures value { result.value ≡ value }
        ensures faults { result.faults
            ≡ record { unknown = false; unlawful = false; deep = false } }
    {
        WeightRead {
            value,
            faults: WeightFaults::none(),
        }
    }
}

/// Reads the weight of a rule in a document with these weights, over its facts or variables.
///
/// Nothing is returned where the words are no such weight. It answers out of memory where it gets
/// none.
pub fn read_weight<'t>(
    alloc: Global,
    weights: WeightsLine,
    items: &NameTable<'_>,
    words: &Words<'t>,
) -> Result<Option<WeightRead>, OutOfMemory>
    ensures { IfOk result (IsWeightRead weights items.now words.now) }
{
    if let Some(word) = only_word(words) {
        if Lexeme::Name(b"one").is(word) {
            return Ok(Some(WeightRead::without_fault(WeightText::One)));
        }
        if Lexeme::Name(b"none").is(word) {
            return Ok(Some(WeightRead::without_fault(WeightText::Zero)));
        }
    }
    read_own(alloc, weights, items, words)
}

// The word, where the words are one.
fn only_word<'t>(words: &Words<'t>) -> Option<Lexeme<'t>>
    ensures { MatchOption result ((x : List ℕ) → is_only x words.now ≡ false)
        (λ w. words.now ≡ word_of w ∷ []) }
{
    match words.split_first() {
        Some((word, rest)) if rest.split_first().is_none() => Some(word),
        _ => None,
    }
}

// A weight that is written only in documents with these weights.
fn read_own<'t>(
    alloc: Global,
    weights: WeightsLine,
    items: &NameTable<'_>,
    words: &Words<'t>,
) -> Result<Option<WeightRead>, OutOfMemory>
    ensures { IfOk result (IsRead items.now (own_weight weights words.now)) }
{
    match weights {
        WeightsLine::Reach => Ok(None),
        WeightsLine::Cost { .. } => Ok(read_cost(words)),
        WeightsLine::GenKill => read_facts(alloc, items, words),
        WeightsLine::Copy => read_forms(alloc, items, words),
        WeightsLine::Relation => read_actions(alloc, items, words),
    }
}

// A cost. Its form is one number, which 64 bits hold.
fn read_cost(words: &Words<'_>) -> Option<WeightRead>
    ensures { (items : List (List ℕ)) → IsRead items (cost_of words.now) result }
{
    let digits = only_number(words)?;
    let number = number(digits);
    Some(WeightRead {
        value: WeightText::Number(number.unwrap_or(0)),
        faults: WeightFaults {
            unknown: false,
            unlawful: number.is_none(),
            deep: false,
        },
    })
}

// The digits, where the words are one number.
fn only_number<'t>(words: &Words<'t>) -> Option<&'t [u8]>
    ensures { cost_of words.now ≡ option_map (λ digits. NumberForm digits.now) result }
{
    match words.split_first() {
        Some((Lexeme::Number(digits), rest)) if rest.split_first().is_none() => Some(digits),
        _ => None,
    }
}
