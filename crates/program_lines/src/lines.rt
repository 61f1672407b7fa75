//! Lines.

ghost use Rattle.std.specs.Prelude.{◌≡◌, ◌∷◌, IfOk, MatchOption, Some, false, option_map};
ghost use Rattle.wpds_port.specs.Words.{word_of};
ghost use Rattle.wpds_port.specs.declared.Mark.TheVariants.{Colon};
ghost use Rattle.wpds_port.specs.declared.Word.TheVariants.{Name, Mark as Sign};
ghost use Rattle.truth_tables.specs.Grammar.{number_of};
ghost use Rattle.document_forms.specs.Words.{guarded};
ghost use Rattle.document_forms.specs.Forms.{names_of};
ghost use Rattle.program_forms.specs.Forms.{GlobalForm, LocalForm, Stating, is_count, returns_of, params_with, proc_of, query_of, single_of, special_of, labelled_of, statement_of, form_of};
ghost use Rattle.program_lines.specs.Texts.{IsRead, line_said, label_said};
ghost use Rattle.program_lines.specs.private.Labels.{begins_with_label};

use crate::calls::split_opened;
use crate::lists::are_free_params;
use crate::statements::read_statement;
use crate::texts::LineText;
use document_reader::{are_names, is_reserved};
use rule_reader::{is_name, number, split_name};
use std::alloc::Global;
use wpds_base::{MOST_RELATED, OutOfMemory};
use wpds_port::{Lexeme, Mark, Words};

// ---- lines that declare

fn read_globals<'t>(words: &Words<'t>) -> Option<LineText<'t>>
    ensures { IsRead (option_map GlobalForm (names_of words.now)) line_said result }
{
    if !are_names(words) {
        return None;
    }
    Some(LineText::Global {
        names: words.reborrow(),
    })
}

fn read_locals<'t>(words: &Words<'t>) -> Option<LineText<'t>>
    ensures { IsRead (option_map LocalForm (names_of words.now)) line_said result }
{
    if !are_names(words) {
        return None;
    }
    Some(LineText::Local {
        names: words.reborrow(),
    })
}

// The number, if a procedure may return so many values.
fn returned(digits: &[u8]) -> Option<u32>
    ensures { result
        ≡ guarded (is_count (number_of digits.now)) (Some (number_of digits.now)) }
{
    let count = number(digits)?;
    if count == 0 || count > MOST_RELATED as u64 {
        return None;
    }
    u32::try_from(count).ok()
}

// How many values a procedure returns, by the words behind its parameters.
fn read_returns(words: &Words<'_>) -> Option<u32>
    ensures { result ≡ returns_of words.now }
{
    let Some((first, rest)) = words.split_first() else {
        return Some(0);
    };
    let (Lexeme::Number(digits), rest) = rest.split_first()? else {
        return None;
    };
    if rest.split_first().is_some() {
        return None;
    }
    if !is_name(first, b"returns") {
        return None;
    }
    returned(digits)
}

// The procedure of this name, by the words behind its opening bracket.
fn read_params<'t>(name: &'t [u8], words: &Words<'t>) -> Option<LineText<'t>>
    ensures { IsRead (params_with name.now words.now) line_said result }
{
    let (params, behind) = words.split_once(Lexeme::Mark(Mark::Close));
    let rest = behind?;
    let returns = read_returns(&rest)?;
    if is_reserved(name) {
        return None;
    }
    if !are_free_params(&params) {
        return None;
    }
    Some(LineText::Proc {
        name,
        params,
        returns,
    })
}

fn read_proc<'t>(words: &Words<'t>) -> Option<LineText<'t>>
    ensures { IsRead (proc_of words.now) line_said result }
{
    let (name, inside) = split_opened(words)?;
    read_params(name, &inside)
}

// ---- other lines that are no statement

fn read_query<'t>(words: &Words<'t>) -> Option<LineText<'t>>
    ensures { IsRead (query_of words.now) line_said result }
{
    let (first, rest) = words.split_first()?;
    let (label, rest) = split_name(&rest)?;
    if rest.split_first().is_some() {
        return None;
    }
    if is_name(first, b"reach") {
        return Some(LineText::Query {
            fails: false,
            label,
        });
    }
    if is_name(first, b"fails") {
        return Some(LineText::Query { fails: true, label });
    }
    None
}

// The line that is one word.
fn read_single<'t>(word: Lexeme<'t>) -> Option<LineText<'t>>
    ensures { IsRead (single_of (word_of word.entry)) line_said result }
{
    if is_name(word, b"else") {
        return Some(LineText::Else);
    }
    if is_name(word, b"end") {
        return Some(LineText::End);
    }
    None
}

// A line that is no statement.
fn read_special<'t>(words: &Words<'t>) -> Option<LineText<'t>>
    ensures { IsRead (special_of words.now) line_said result }
{
    let (first, rest) = words.split_first()?;
    if rest.split_first().is_none() {
        return read_single(first);
    }
    if is_name(first, b"global") {
        return read_globals(&rest);
    }
    if is_name(first, b"local") {
        return read_locals(&rest);
    }
    if is_name(first, b"proc") {
        return read_proc(&rest);
    }
    if is_name(first, b"query") {
        return read_query(&rest);
    }
    None
}

// ---- statements with their label

// The label with which words begin, and the words behind its colon.
fn split_label<'t>(words: &Words<'t>) -> Option<(&'t [u8], Words<'t>)>
    ensures { MatchOption result (begins_with_label words.now ≡ false)
        (λ p. words.now ≡ Name p.0.now ∷ Sign Colon ∷ p.1) }
{
    let (name, rest) = split_name(words)?;
    match rest.split_first() {
        Some((Lexeme::Mark(Mark::Colon), behind)) => Some((name, behind)),
        _ => None,
    }
}

// The statement that the words are, behind this label.
fn read_behind_label<'t>(
    alloc: Global,
    label: Option<&'t [u8]>,
    words: &Words<'t>,
) -> Result<Option<LineText<'t>>, OutOfMemory>
    ensures { IfOk result
        (IsRead (option_map (Stating (label_said label.entry)) (statement_of words.now))
        line_said) }
{
    match read_statement(alloc, words)? {
        Some(statement) => Ok(Some(LineText::Statement { label, statement })),
        None => Ok(None),
    }
}

// The statement that the words are, with a label before it or without one.
fn read_labelled<'t>(alloc: Global, words: &Words<'t>) -> Result<Option<LineText<'t>>, OutOfMemory>
    ensures { IfOk result (IsRead (labelled_of words.now) line_said) }
{
    let Some((label, rest)) = split_label(words) else {
        return read_behind_label(alloc, None, words);
    };
    if is_reserved(label) {
        return Ok(None);
    }
    read_behind_label(alloc, Some(label), &rest)
}

/// Reads the form of a line behind the header from its words; nothing where they have none.
///
/// It takes memory to look at expressions, and answers out of memory where it gets none.
pub fn read_form<'t>(alloc: Global, words: &Words<'t>) -> Result<Option<LineText<'t>>, OutOfMemory>
    ensures { IfOk result (IsRead (form_of words.now) line_said) }
{
    let lawful = words.reborrow();
    if let Some(special) = read_special(&lawful) {
        return Ok(Some(special));
    }
    read_labelled(alloc, &lawful)
}
