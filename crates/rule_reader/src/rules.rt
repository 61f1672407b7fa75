//! Rules, from the words behind `rule`.

ghost use Rattle.std.specs.Prelude.{◌≡◌, ℕ, List, ◌∷◌, ◌==◌, ◌&&◌, ◌||◌, not, false, nat_le, None, IfOk, MatchOption};
ghost use Rattle.wpds_base.specs.Faults.{first_fault};
ghost use Rattle.wpds_port.specs.declared.Mark.TheVariants.{Arrow};
ghost use Rattle.wpds_port.specs.declared.Word.TheVariants.{Name, Mark as Sign};
ghost use Rattle.document_forms.specs.Above.{Above};
ghost use Rattle.document_forms.specs.Words.{each, is_return, name_of};
ghost use Rattle.document_forms.specs.Forms.{RuleForm, rule_of};
ghost use Rattle.document_forms.specs.Kinds.{rule_weight};
ghost use Rattle.rule_reader.specs.NameReads.{AreNumbersRead};
ghost use Rattle.rule_reader.specs.RuleReads.{above_in, IsReadRule, IsRuleRead};
ghost use Rattle.rule_reader.specs.WeightReads.{IsRead};
ghost use Rattle.rule_reader.specs.private.Rules.{right_words, goes_on_right, HasRight, IsEnd, IsBackRead, AreEnds, AreParts, weight_unknown as weight_unknown_of, weight_amiss as weight_amiss_of, weight_deep as weight_deep_of, is_unknown as is_unknown_of, is_misplaced as is_misplaced_of, parts_kind, weight_kept};

use crate::lexemes::split_name;
use crate::name_reads::NamesRead;
use crate::names::NameTable;
use crate::returns::{ReturnRead, read_return};
use crate::scope::Scope;
use crate::weights::{WeightRead, read_weight};
use document_forms::{RuleLine, Symbols, WeightText, WeightsLine};
use std::alloc::Global;
use wpds_base::{MOST_PUSHED, MOST_RULES, OutOfMemory};
use wpds_port::{Kind, Lexeme, Mark, Words};

/// A rule as it is read. Where it is refused, `rule` says nothing.
#[derive(Drop)]
pub struct RuleRead {
    pub rule: RuleLine,
    /// The kind by which it is refused.
    pub kind: Option<Kind>,
}

// What a rule begins with, and the words behind it.
#[derive(Drop)]
struct RuleHead<'t> {
    control: &'t [u8],
    symbol: &'t [u8],
    to: &'t [u8],
    rest: Words<'t>,
}

// What stands behind the right side of a rule: the words of its weight and those of its return, where they are written.
#[derive(Drop)]
struct RuleEnd<'t> {
    weight: Option<Words<'t>>,
    back: Option<Words<'t>>,
}

// The names of a rule but those of its right side, its weight and its return. In place of the
// number of one that is unknown 0 stands.
#[derive(Clone, Copy)]
struct Ends {
    control: u32,
    symbol: u32,
    to: u32,
    unknown: bool,
}

// A rule by its parts.
#[derive(Drop)]
struct RuleParts {
    ends: Ends,
    right: NamesRead,
    // nothing where the words are no weight
    weight: Option<WeightRead>,
    back: ReturnRead,
    // whether a return is written
    given: bool,
    // whether there are as many rules already as there may be
    full: bool,
}

// ---- the words of a rule

fn rule_head<'t>(words: &Words<'t>) -> Option<RuleHead<'t>>
    ensures { MatchOption result (rule_of words.now ≡ None)
        (λ h. words.now
        ≡ Name h.control.now ∷ Name h.symbol.now ∷ Sign Arrow ∷ Name h.to.now ∷ h.rest) }
{
    let (control, rest) = split_name(words)?;
    let (symbol, rest) = split_name(&rest)?;
    let (Lexeme::Mark(Mark::Arrow), rest) = rest.split_first()? else {
        return None;
    };
    let (to, rest) = split_name(&rest)?;
    Some(RuleHead {
        control,
        symbol,
        to,
        rest,
    })
}

// The name with which words begin, unless it is `return`, and the words behind it.
fn right_name<'t>(words: &Words<'t>) -> Option<(&'t [u8], Words<'t>)>
    ensures { MatchOption result (goes_on_right words.now ≡ false)
        (λ p. (words.now ≡ Name p.0.now ∷ p.1) × (is_return (Name p.0.now) ≡ false)) }
{
    match words.split_first() {
        Some((Lexeme::Name(name), rest)) if name != b"return".as_slice() => Some((name, rest)),
        _ => None,
    }
}

// What stands behind a right side; nothing where that is no end of a rule.
fn rule_end<'t>(words: &Words<'t>) -> Option<RuleEnd<'t>>
    requires { goes_on_right words.now ≡ false }
    ensures { MatchOption result (each name_of (right_words words.now) ≡ None) (IsEnd words.now) }
{
    let Some((first, rest)) = words.split_first() else {
        return Some(RuleEnd {
            weight: None,
            back: None,
        });
    };
    match first {
        Lexeme::Mark(Mark::Colon) => {
            let (weight, back) = rest.split_once(Lexeme::Name(b"return"));
            Some(RuleEnd {
                weight: Some(weight),
                back,
            })
        }
        Lexeme::Name(_) => Some(RuleEnd {
            weight: None,
            back: Some(rest),
        }),
        _ => None,
    }
}

// ---- the parts

// Reads the symbols of a right side, and returns them with the words behind it.
fn read_right<'t>(
    alloc: Global,
    symbols: &NameTable<'_>,
    words: &Words<'t>,
) -> Result<(NamesRead, Words<'t>), OutOfMemory>
    ensures right { IfOk result (λ r. (xs : List (List ℕ))
        × AreNumbersRead symbols.now xs r.0 × HasRight words.now xs r.1) }
    ensures end { IfOk result (λ r. goes_on_right r.1 ≡ false) }
{
    let mut read = NamesRead::new(alloc);
    read.numbers.reserve(MOST_PUSHED)?;
    let mut left = words.reborrow();
    while let Some((name, rest)) = right_name(&left) {
        read.add(symbols, name)?;
        left = rest;
    }
    Ok((read, left))
}

// The weight of a rule, which is one where none is written.
fn read_rule_weight(
    alloc: Global,
    weights: WeightsLine,
    items: &NameTable<'_>,
    weight: &Option<Words>,
) -> Result<Option<WeightRead>, OutOfMemory>
    ensures { IfOk result (IsRead items.now (rule_weight weights weight.now)) }
{
    match weight {
        Some(words) => read_weight(alloc, weights, items, words),
        None => Ok(Some(WeightRead::one())),
    }
}

// The return of a rule, which is plain where none is written.
fn read_back(
    alloc: Global,
    weights: WeightsLine,
    items: &NameTable<'_>,
    back: &Option<Words>,
) -> Result<Option<ReturnRead>, OutOfMemory>
    ensures { IfOk result (IsBackRead weights items.now back.now) }
{
    match back {
        Some(words) => read_return(alloc, weights, items, words),
        None => Ok(Some(ReturnRead::plain())),
    }
}

fn read_ends(scope: &Scope<'_>, said: &RuleHead) -> Ends
    ensures { (f : RuleForm) → f.control ≡ said.now.control.now → f.symbol ≡ said.now.symbol.now
        → f.to ≡ said.now.to.now → (rules queries : ℕ)
        → AreEnds (above_in scope.now rules queries) f result }
{
    let control = scope.controls.number_of(said.control);
    let symbol = scope.symbols.number_of(said.symbol);
    let to = scope.controls.number_of(said.to);
    Ends {
        control: control.unwrap_or(0),
        symbol: symbol.unwrap_or(0),
        to: to.unwrap_or(0),
        unknown: control.is_none() | to.is_none() | symbol.is_none(),
    }
}

// ---- what is amiss

fn weight_unknown(weight: &Option<WeightRead>) -> bool
    ensures { result ≡ weight_unknown_of weight.now }
{
    match weight {
        Some(read) => read.faults.unknown,
        None => false,
    }
}

fn weight_amiss(weight: &Option<WeightRead>) -> bool
    ensures { result ≡ weight_amiss_of weight.now }
{
    match weight {
        Some(read) => read.faults.unlawful,
        None => true,
    }
}

fn weight_deep(weight: &Option<WeightRead>) -> bool
    ensures { result ≡ weight_deep_of weight.now }
{
    match weight {
        Some(read) => read.faults.deep,
        None => false,
    }
}

fn is_unknown(parts: &RuleParts) -> bool
    ensures { result ≡ is_unknown_of parts.now }
{
    (parts.ends.unknown || parts.right.unknown)
        || (weight_unknown(&parts.weight) || parts.back.unknown)
}

fn is_misplaced(parts: &RuleParts) -> bool
    ensures { result ≡ is_misplaced_of parts.now }
{
    (parts.given && parts.right.numbers.len() != 2) || parts.back.foreign
}

// The lowest of the kinds by which the rule is refused.
fn kind_of(parts: &RuleParts) -> Option<Kind>
    ensures { result ≡ parts_kind parts.now }
{
    if parts.back.twice {
        return Some(Kind::Twice);
    }
    if is_unknown(parts) {
        return Some(Kind::Unknown);
    }
    if weight_amiss(&parts.weight) {
        return Some(Kind::WeightText);
    }
    if is_misplaced(parts) {
        return Some(Kind::Return);
    }
    if weight_deep(&parts.weight) || parts.full {
        return Some(Kind::Count);
    }
    None
}

// ---- the rule

fn weight_value(weight: Option<WeightRead>) -> WeightText
    ensures { result ≡ weight_kept weight }
{
    match weight {
        Some(read) => read.value,
        None => WeightText::One,
    }
}

fn rule_from(alloc: Global, parts: RuleParts) -> Result<RuleRead, OutOfMemory>
    ensures { IfOk result (λ read. (a : Above) (f : RuleForm)
        → AreParts a f parts → IsReadRule a f read) }
{
    let kind = kind_of(&parts);
    Ok(RuleRead {
        rule: RuleLine {
            control: parts.ends.control,
            symbol: parts.ends.symbol,
            to: parts.ends.to,
            right: Symbols::from_vec(alloc, parts.right.numbers)?,
            weight: weight_value(parts.weight),
            map: parts.back.map,
        },
        kind,
    })
}

/// The words behind `rule` as a rule in this scope, behind so many others; nothing where they are
/// none.
///
/// It answers out of memory where it gets none.
pub fn read_rule(
    alloc: Global,
    scope: &Scope<'_>,
    rules: usize,
    words: &Words,
) -> Result<Option<RuleRead>, OutOfMemory>
    ensures { IfOk result (λ read. (queries : ℕ)
        → IsRuleRead (above_in scope.now rules queries) words.now read) }
{
    let Some(head) = rule_head(words) else {
        return Ok(None);
    };
    let (right, behind) = read_right(alloc, &scope.symbols, &head.rest)?;
    if right.numbers.len() > MOST_PUSHED {
        return Ok(None);
    }
    let Some(end) = rule_end(&behind) else {
        return Ok(None);
    };
    let Some(back) = read_back(alloc, scope.weights, &scope.items, &end.back)? else {
        return Ok(None);
    };
    let weight = read_rule_weight(alloc, scope.weights, &scope.items, &end.weight)?;
    let parts = RuleParts {
        ends: read_ends(scope, &head),
        right,
        weight,
        back,
        given: end.back.is_some(),
        full: rules >= MOST_RULES,
    };
    Ok(Some(rule_from(alloc, parts)?))
}
