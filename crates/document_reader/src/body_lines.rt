//! Lines behind the weights line.

ghost use Rattle.std.specs.Prelude.{◌≡◌, ◌||◌, ◌∷◌, [], ℕ, true, not, IfOk, IfNone, IfSome, Some, option_map};
ghost use Rattle.wpds_base.specs.Faults.{first_fault};
ghost use Rattle.wpds_port.specs.Words.{word_of};
ghost use Rattle.document_forms.specs.Lines.{is_text as is_text_as};
ghost use Rattle.document_forms.specs.Above.{Above};
ghost use Rattle.document_forms.specs.FirstRefusal.{by_form};
ghost use Rattle.document_forms.specs.Forms.{Controls, Symbols, Facts, Variables, OfWeights, OfRule, weights_of, rule_of, query_of, form_behind, line_form};
ghost use Rattle.document_forms.specs.Kinds.{conditions};
ghost use Rattle.document_reader.specs.private.Readings.{kind_on, above_now, all_behind, Takes};
ghost use Rattle.rule_reader.specs.RuleReads.{HasFewItems, IsRuleRead};
ghost use Rattle.document_reader.specs.private.LineReads.{IsAnswered, AreAnswered};

use crate::lines::{Lines, is_text, line_front};
use crate::name_lines::declare;
use crate::patterns::QueryFaults;
use crate::queries::read_query;
use crate::reading::Reading;
use crate::symbols::all_symbols;
use crate::weights_lines::said_weights;
use document_forms::WeightsLine;
use rule_reader::{RuleRead, is_name, read_rule};
use std::alloc::Global;
use wpds_base::{
    MOST_CONTROLS, MOST_COPIED, MOST_FACTS, MOST_QUERIES, MOST_RELATED, MOST_SYMBOLS, OutOfMemory,
};
use wpds_port::{Kind, Lexeme, Words};

// The kind by which a further weights line is refused.
fn weights_kind(words: &Words) -> Kind
    ensures { (all : ℕ) (a : Above) → Some result
        ≡ first_fault (by_form (conditions all a) (option_map OfWeights (weights_of words.now))) }
{
    match said_weights(words) {
        Some(_) => Kind::Twice,
        None => Kind::Form,
    }
}

// Declares the controls that the words behind `controls` are.
fn declare_controls<'t>(
    reading: &mut Reading<'t>,
    words: &Words<'t>,
) -> Result<Option<Kind>, OutOfMemory>
    ensures { IfOk result (AreAnswered reading.old reading.new Controls words.now) }
{
    declare(&mut reading.scope.controls, MOST_CONTROLS, words)
}

// Declares the symbols that the words behind `symbols` are.
fn declare_symbols<'t>(
    reading: &mut Reading<'t>,
    words: &Words<'t>,
) -> Result<Option<Kind>, OutOfMemory>
    ensures { IfOk result (AreAnswered reading.old reading.new Symbols words.now) }
{
    declare(&mut reading.scope.symbols, MOST_SYMBOLS, words)
}

// Declares facts, which gen-kill weights alone have.
fn declare_facts<'t>(
    reading: &mut Reading<'t>,
    words: &Words<'t>,
) -> Result<Option<Kind>, OutOfMemory>
    ensures { IfOk result (AreAnswered reading.old reading.new Facts words.now) }
{
    match reading.scope.weights {
        WeightsLine::GenKill => declare(&mut reading.scope.items, MOST_FACTS, words),
        _ => Ok(Some(Kind::Form)),
    }
}

// Declares variables, which copies and relations alone have.
fn declare_variables<'t>(
    reading: &mut Reading<'t>,
    words: &Words<'t>,
) -> Result<Option<Kind>, OutOfMemory>
    ensures { IfOk result (AreAnswered reading.old reading.new Variables words.now) }
{
    match reading.scope.weights {
        WeightsLine::Copy => declare(&mut reading.scope.items, MOST_COPIED, words),
        WeightsLine::Relation => declare(&mut reading.scope.items, MOST_RELATED, words),
        _ => Ok(Some(Kind::Form)),
    }
}

// The rule that the words behind `rule` are, below what was read.
fn next_rule(
    alloc: Global,
    reading: &Reading<'_>,
    words: &Words,
) -> Result<Option<RuleRead>, OutOfMemory>
    ensures { IfOk result (IsRuleRead (above_now reading.now) words.now) }
{
    read_rule(alloc, &reading.scope, reading.rules.len(), words)
}

// Takes the rule that the words behind `rule` are.
fn take_rule(
    alloc: Global,
    reading: &mut Reading<'_>,
    words: &Words,
) -> Result<Option<Kind>, OutOfMemory>
    requires few { HasFewItems (above_now reading.old) }
    ensures { IfOk result (λ k. (all : ℕ) → IsAnswered all reading.old reading.new
        (option_map OfRule (rule_of words.now)) k) }
{
    let Some(read) = next_rule(alloc, reading, words)? else {
        return Ok(Some(Kind::Form));
    };
    if let Some(kind) = read.kind {
        return Ok(Some(kind));
    }
    reading.rules.push(read.rule)?;
    Ok(None)
}

// The kind by which a query is refused.
fn query_kind(faults: QueryFaults, many: bool) -> Option<Kind>
    ensures { result ≡ first_fault ((faults.twice, Kind.Twice) ∷ (faults.unknown, Kind.Unknown)
        ∷ (faults.count || many, Kind.Count) ∷ []) }
{
    if faults.twice {
        return Some(Kind::Twice);
    }
    if faults.unknown {
        return Some(Kind::Unknown);
    }
    if faults.count || many {
        return Some(Kind::Count);
    }
    None
}

// Takes the query that the words behind `query` are.
fn take_query(
    alloc: Global,
    all: usize,
    reading: &mut Reading<'_>,
    words: &Words,
) -> Result<Option<Kind>, OutOfMemory>
    ensures { IfOk result (IsAnswered all reading.old reading.new (query_of words.now)) }
{
    let scope = &reading.scope;
    let Some(read) = read_query(alloc, all, &scope.controls, &scope.symbols, words)? else {
        return Ok(Some(Kind::Form));
    };
    let many = reading.queries.len() >= MOST_QUERIES;
    if let Some(kind) = query_kind(read.faults, many) {
        return Ok(Some(kind));
    }
    reading.queries.push(read.query)?;
    Ok(None)
}

// Takes what the words behind the first one declare or ask. How many symbols all lines declare may be known, and is
// counted where they ask. Most lines are rules.
fn take_words<'t>(
    alloc: Global,
    known: &mut Option<usize>,
    left: &Lines<'t>,
    reading: &mut Reading<'t>,
    first: Lexeme<'t>,
    words: &Words<'t>,
) -> Result<Option<Kind>, OutOfMemory>
    requires few { HasFewItems (above_now reading.old) }
    requires known { let form = form_behind (word_of first) words.now in
        IfSome known.old (λ n. n ≡ all_behind reading.old.scope.symbols form left.now.lines) }
    ensures answered { let form = form_behind (word_of first.entry) words.now in
        let all = all_behind reading.old.scope.symbols form left.now.lines in
        IfOk result (IsAnswered all reading.old reading.new form) }
    ensures known { let form = form_behind (word_of first.entry) words.now in
        let all = all_behind reading.old.scope.symbols form left.now.lines in
        IfOk result (λ _. IfSome known.new (λ n. n ≡ all)) }
{
    if is_name(first, b"rule") {
        return take_rule(alloc, reading, words);
    }
    if is_name(first, b"query") {
        let all = all_symbols(alloc, known, &reading.scope.symbols, left)?;
        return take_query(alloc, all, reading, words);
    }
    if is_name(first, b"weights") {
        return Ok(Some(weights_kind(words)));
    }
    if is_name(first, b"controls") {
        return declare_controls(reading, words);
    }
    if is_name(first, b"symbols") {
        return declare_symbols(reading, words);
    }
    if is_name(first, b"facts") {
        return declare_facts(reading, words);
    }
    if is_name(first, b"variables") {
        return declare_variables(reading, words);
    }
    Ok(Some(Kind::Form))
}

// The kind by which a line is refused that has no form.
fn formless_kind(line: &[u8]) -> Kind
    ensures { Some result
        ≡ first_fault ((not (is_text_as line.now), Kind.NotText) ∷ (true, Kind.Form) ∷ []) }
{
    if is_text(line) {
        Kind::Form
    } else {
        Kind::NotText
    }
}

/// Reads a line behind the weights line: takes what it declares or asks, or tells the kind by
/// which it is refused. These lines are left behind it. How many symbols all lines declare is known from the first query
/// on.
pub(crate) fn read_line<'t>(
    alloc: Global,
    known: &mut Option<usize>,
    left: &Lines<'t>,
    reading: &mut Reading<'t>,
    line: &'t [u8],
) -> Result<Option<Kind>, OutOfMemory>
    requires few { HasFewItems (above_now reading.old) }
    requires known { let form = line_form line.now in
        IfSome known.old (λ n. n ≡ all_behind reading.old.scope.symbols form left.now.lines) }
    ensures few { IfOk result (λ k. IfNone k (HasFewItems (above_now reading.new))) }
    ensures kind { let form = line_form line.now in
        let all = all_behind reading.old.scope.symbols form left.now.lines in
        IfOk result (λ k. k ≡ kind_on all (above_now reading.old) line.now) }
    ensures taken { IfOk result (λ k. IfNone k (Takes reading.old reading.new line.now)) }
    ensures known { let form = line_form line.now in
        let all = all_behind reading.old.scope.symbols form left.now.lines in
        IfOk result (λ _. IfSome known.new (λ n. n ≡ all)) }
{
    reading.scope.items.stands_once();
    let Some((first, words)) = line_front(line) else {
        return Ok(Some(formless_kind(line)));
    };
    take_words(alloc, known, left, reading, first, &words)
}
