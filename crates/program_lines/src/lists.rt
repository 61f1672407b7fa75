//! Names and values with commas between.

ghost use Rattle.std.specs.Prelude.{◌≡◌, IfOk, false, not, is_some, option_map, unwrap_or};
ghost use Rattle.truth_tables.specs.Stacks.{tree_of};
ghost use Rattle.document_forms.specs.Names.{is_reserved as is_reserved_of};
ghost use Rattle.document_forms.specs.Words.{name_of, each_of_some};
ghost use Rattle.document_forms.specs.Weights.{target_of, value_of};
ghost use Rattle.program_forms.specs.Forms.{list_of, params_of, are_free, values_of, some_values_of};

use document_reader::is_reserved;
use rule_reader::{Cut, NameTable, Pieces, read_tree, read_value, split_name};
use std::alloc::Global;
use wpds_base::OutOfMemory;
use wpds_port::{Lexeme, Words};

/// The name, where the words are one name.
pub fn single_name<'t>(words: &Words<'t>) -> Option<&'t [u8]>
    ensures { target_of words.now ≡ option_map (λ name. name.now) result }
{
    match words.split_first() {
        Some((Lexeme::Name(name), rest)) if rest.split_first().is_none() => Some(name),
        _ => None,
    }
}

/// Whether the words are names, one at least.
pub(crate) fn are_labels(words: &Words<'_>) -> bool
    ensures { result ≡ is_some (each_of_some name_of words.now) }
{
    let mut left = words.reborrow();
    while let Some((_, rest)) = split_name(&left) {
        left = rest;
    }
    left.split_first().is_none() && words.split_first().is_some()
}

/// Whether the words are names with commas between.
pub(crate) fn is_list(words: &Words<'_>) -> bool
    ensures { result ≡ is_some (list_of words.now) }
{
    let mut pieces = Pieces::new(Cut::Commas, words);
    while let Some(piece) = pieces.next() {
        if single_name(&piece).is_none() {
            return false;
        }
    }
    true
}

// Whether the words are one name, which may be declared.
fn is_free_name(words: &Words<'_>) -> bool
    ensures { result
        ≡ unwrap_or (option_map (λ x. not (is_reserved_of x)) (target_of words.now)) false }
{
    match single_name(words) {
        Some(name) => !is_reserved(name),
        None => false,
    }
}

// Whether the words are names with commas between, which may be declared.
fn is_free_list(words: &Words<'_>) -> bool
    ensures { result ≡ unwrap_or (option_map are_free (list_of words.now)) false }
{
    let mut pieces = Pieces::new(Cut::Commas, words);
    while let Some(piece) = pieces.next() {
        if !is_free_name(&piece) {
            return false;
        }
    }
    true
}

/// Whether there are no words, or names with commas between, which may be declared.
pub(crate) fn are_free_params(words: &Words<'_>) -> bool
    ensures { result ≡ unwrap_or (option_map are_free (params_of words.now)) false }
{
    if words.split_first().is_none() {
        return true;
    }
    is_free_list(words)
}

/// Whether the words are an expression.
pub(crate) fn is_tree(alloc: Global, words: &Words<'_>) -> Result<bool, OutOfMemory>
    ensures { IfOk result (λ said. said ≡ is_some (tree_of words.now)) }
{
    let no_names = NameTable::new(alloc);
    Ok(read_tree(alloc, &no_names, words)?.is_some())
}

/// Whether the words are `*` or an expression.
pub(crate) fn is_value(alloc: Global, words: &Words<'_>) -> Result<bool, OutOfMemory>
    ensures { IfOk result (λ said. said ≡ is_some (value_of words.now)) }
{
    let no_names = NameTable::new(alloc);
    Ok(read_value(alloc, &no_names, words)?.is_some())
}

/// Whether the words are values with commas between.
pub(crate) fn are_values(alloc: Global, words: &Words<'_>) -> Result<bool, OutOfMemory>
    ensures { IfOk result (λ said. said ≡ is_some (values_of words.now)) }
{
    let mut pieces = Pieces::new(Cut::OutsideCommas, words);
    while let Some(piece) = pieces.next() {
        if !is_value(alloc, &piece)? {
            return Ok(false);
        }
    }
    Ok(true)
}

/// Whether there are no words, or values with commas between.
pub(crate) fn are_some_values(alloc: Global, words: &Words<'_>) -> Result<bool, OutOfMemory>
    ensures { IfOk result (λ said. said ≡ is_some (some_values_of words.now)) }
{
    if words.split_first().is_none() {
        return Ok(true);
    }
    are_values(alloc, words)
}
