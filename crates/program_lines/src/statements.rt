//! Statements.

ghost use Rattle.std.specs.Prelude.{◌≡◌, IfOk, option_map};
ghost use Rattle.truth_tables.specs.Stacks.{tree_of};
ghost use Rattle.document_forms.specs.Words.{name_of, each_of_some};
ghost use Rattle.document_forms.specs.Weights.{value_of};
ghost use Rattle.program_forms.specs.Forms.{GotoForm, AssumeForm, AssertForm, ReturnForm, IfForm, WhileForm, some_values_of, skip_of, worded_of, statement_of};
ghost use Rattle.program_lines.specs.Texts.{IsRead, statement_said};

use crate::calls::{read_becomes, read_call};
use crate::lists::{are_labels, are_some_values, is_tree, is_value};
use crate::texts::StatementText;
use rule_reader::is_name;
use std::alloc::Global;
use wpds_base::OutOfMemory;
use wpds_port::{Lexeme, Mark, Words};

fn read_skip<'t>(words: &Words<'t>) -> Option<StatementText<'t>>
    ensures { IsRead (skip_of words.now) statement_said result }
{
    if words.split_first().is_some() {
        return None;
    }
    Some(StatementText::Skip)
}

fn read_goto<'t>(words: &Words<'t>) -> Option<StatementText<'t>>
    ensures { IsRead (option_map GotoForm (each_of_some name_of words.now)) statement_said
        result }
{
    if !are_labels(words) {
        return None;
    }
    Some(StatementText::Goto {
        labels: words.reborrow(),
    })
}

fn read_assume<'t>(
    alloc: Global,
    words: &Words<'t>,
) -> Result<Option<StatementText<'t>>, OutOfMemory>
    ensures { IfOk result (IsRead (option_map AssumeForm (tree_of words.now)) statement_said) }
{
    if !is_tree(alloc, words)? {
        return Ok(None);
    }
    Ok(Some(StatementText::Assume(words.reborrow())))
}

fn read_assert<'t>(
    alloc: Global,
    words: &Words<'t>,
) -> Result<Option<StatementText<'t>>, OutOfMemory>
    ensures { IfOk result (IsRead (option_map AssertForm (tree_of words.now)) statement_said) }
{
    if !is_tree(alloc, words)? {
        return Ok(None);
    }
    Ok(Some(StatementText::Assert(words.reborrow())))
}

fn read_return<'t>(
    alloc: Global,
    words: &Words<'t>,
) -> Result<Option<StatementText<'t>>, OutOfMemory>
    ensures { IfOk result
        (IsRead (option_map ReturnForm (some_values_of words.now)) statement_said) }
{
    if !are_some_values(alloc, words)? {
        return Ok(None);
    }
    Ok(Some(StatementText::Return {
        values: words.reborrow(),
    }))
}

fn read_if<'t>(alloc: Global, words: &Words<'t>) -> Result<Option<StatementText<'t>>, OutOfMemory>
    ensures { IfOk result (IsRead (option_map IfForm (value_of words.now)) statement_said) }
{
    if !is_value(alloc, words)? {
        return Ok(None);
    }
    Ok(Some(StatementText::If(words.reborrow())))
}

fn read_while<'t>(
    alloc: Global,
    words: &Words<'t>,
) -> Result<Option<StatementText<'t>>, OutOfMemory>
    ensures { IfOk result (IsRead (option_map WhileForm (value_of words.now)) statement_said) }
{
    if !is_value(alloc, words)? {
        return Ok(None);
    }
    Ok(Some(StatementText::While(words.reborrow())))
}

// A statement without `:=`.
fn read_worded<'t>(
    alloc: Global,
    words: &Words<'t>,
) -> Result<Option<StatementText<'t>>, OutOfMemory>
    ensures { IfOk result (IsRead (worded_of words.now) statement_said) }
{
    let Some((first, rest)) = words.split_first() else {
        return Ok(None);
    };
    if is_name(first, b"skip") {
        return Ok(read_skip(&rest));
    }
    if is_name(first, b"goto") {
        return Ok(read_goto(&rest));
    }
    if is_name(first, b"assume") {
        return read_assume(alloc, &rest);
    }
    if is_name(first, b"assert") {
        return read_assert(alloc, &rest);
    }
    if is_name(first, b"return") {
        return read_return(alloc, &rest);
    }
    if is_name(first, b"if") {
        return read_if(alloc, &rest);
    }
    if is_name(first, b"while") {
        return read_while(alloc, &rest);
    }
    read_call(alloc, None, words)
}

/// The statement that the words are.
pub(crate) fn read_statement<'t>(
    alloc: Global,
    words: &Words<'t>,
) -> Result<Option<StatementText<'t>>, OutOfMemory>
    ensures { IfOk result (IsRead (statement_of words.now) statement_said) }
{
    let (front, back) = words.split_once(Lexeme::Mark(Mark::Becomes));
    match back {
        Some(back) => read_becomes(alloc, &front, &back),
        None => read_worded(alloc, words),
    }
}
