//! Patterns are written with the names of controls and symbols.

ghost use Rattle.std.specs.Prelude.{◌≡◌, ◌++◌, OnOk, map, codes};
ghost use Rattle.document_forms.specs.Names.{name};
ghost use Rattle.document_forms.specs.Writing.{spaced, set_text, item_text, pattern_text};
ghost use Rattle.document_forms.specs.declared.pattern.SetText.TheVariants.{Listed};
ghost use Rattle.document_writer.specs.private.Rows.{behind_blanks};

use crate::names::{push_name, push_spaced};
use crate::rows::{push, push_mark};
use document_forms::{Document, ItemText, PatternText, SetText};
use wpds_base::{OutOfMemory, Sequence};
use wpds_port::Text;

// Adds symbols in braces.
fn push_braced(out: &mut Vec<u8>, symbols: &[Text], set: &[u32]) -> Result<(), OutOfMemory>
    ensures { OnOk result (out.new.items
        ≡ out.old.items ++ codes "{" ++ spaced (map (name symbols.now) set.now) ++ codes "}") }
{
    push(out, b"{")?;
    push_spaced(out, symbols, set)?;
    push(out, b"}")
}

// Adds the symbols of an item: one without a star stands alone, and others in braces.
fn push_listed(
    out: &mut Vec<u8>,
    symbols: &[Text],
    set: &[u32],
    star: bool,
) -> Result<(), OutOfMemory>
    ensures { OnOk result (
        out.new.items ≡ out.old.items ++ set_text symbols.now (Listed set.now) star) }
{
    if !star && set.len() == 1 {
        return push_name(out, symbols, set[0]);
    }
    push_braced(out, symbols, set)
}

// Adds the set of an item.
fn push_set(
    out: &mut Vec<u8>,
    symbols: &[Text],
    set: &SetText,
    star: bool,
) -> Result<(), OutOfMemory>
    ensures { OnOk result (
        out.new.items ≡ out.old.items ++ set_text symbols.now set.now star) }
{
    match set {
        SetText::All => push(out, b"."),
        SetText::Listed(set) => push_listed(out, symbols, set.as_slice(), star),
    }
}

// Adds an item.
fn push_item(out: &mut Vec<u8>, symbols: &[Text], item: &ItemText) -> Result<(), OutOfMemory>
    ensures { OnOk result (out.new.items ≡ out.old.items ++ item_text symbols.now item.now) }
{
    push_set(out, symbols, &item.set, item.star)?;
    push_mark(out, b"*", item.star)
}

// Adds items, a blank before each.
fn push_items(out: &mut Vec<u8>, symbols: &[Text], items: &[ItemText]) -> Result<(), OutOfMemory>
    ensures { OnOk result (
        out.new.items ≡ out.old.items ++ behind_blanks (map (item_text symbols.now) items.now)) }
{
    for item in items {
        push(out, b" ")?;
        push_item(out, symbols, item)?;
    }
    Ok(())
}

/// Adds a pattern over the controls and symbols of a document.
pub(crate) fn push_pattern(
    out: &mut Vec<u8>,
    document: &Document<Sequence<Text>>,
    pattern: &PatternText,
) -> Result<(), OutOfMemory>
    ensures { OnOk result (
        out.new.items ≡ out.old.items ++ pattern_text document.now pattern.now) }
{
    push_name(out, document.controls.as_slice(), pattern.control)?;
    push(out, b":")?;
    push_items(out, document.symbols.as_slice(), pattern.items.as_slice())
}
