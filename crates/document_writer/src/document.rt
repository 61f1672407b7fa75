//! Documents are written.

ghost use Rattle.std.specs.Prelude.{◌≡◌, ◌++◌, OnOk, IfOk};
ghost use Rattle.document_forms.specs.Writing.{weights_text, names_lines, item_word, written};
ghost use Rattle.document_writer.specs.private.Documents.{head_lines};
ghost use Rattle.document_writer.specs.private.Rows.{behind_blanks, lines};

use crate::numbers::push_number;
use crate::rows::push;
use crate::rules::{push_queries, push_rules};
use document_forms::{Document, WeightsLine};
use std::alloc::Global;
use wpds_base::{OutOfMemory, Sequence};
use wpds_port::Text;

// Adds what the weights are.
fn push_weights(out: &mut Vec<u8>, weights: WeightsLine) -> Result<(), OutOfMemory>
    ensures { OnOk result (out.new.items ≡ out.old.items ++ weights_text weights) }
{
    match weights {
        WeightsLine::Reach => push(out, b"weights reach"),
        WeightsLine::Cost { cap } => {
            push(out, b"weights cost ")?;
            push_number(out, cap)
        }
        WeightsLine::GenKill => push(out, b"weights genkill"),
        WeightsLine::Copy => push(out, b"weights copy"),
        WeightsLine::Relation => push(out, b"weights relation"),
    }
}

// Adds texts, a blank before each.
fn push_texts(out: &mut Vec<u8>, texts: &[Text]) -> Result<(), OutOfMemory>
    ensures { OnOk result (out.new.items ≡ out.old.items ++ behind_blanks texts.now) }
{
    for text in texts {
        push(out, b" ")?;
        push(out, text.as_bytes())?;
    }
    Ok(())
}

// Adds the line of the names of a class, if it has names.
fn push_class(out: &mut Vec<u8>, word: &[u8], names: &Sequence<Text>) -> Result<(), OutOfMemory>
    ensures { OnOk result (
        out.new.items ≡ out.old.items ++ lines (names_lines word.now names.now)) }
{
    let names = names.as_slice();
    if names.is_empty() {
        return Ok(());
    }
    push(out, word)?;
    push_texts(out, names)?;
    push(out, b"\n")
}

// What names the facts or variables.
fn item_word(weights: WeightsLine) -> &'static [u8]
    ensures { result.now ≡ item_word weights }
{
    match weights {
        WeightsLine::GenKill => b"facts",
        _ => b"variables",
    }
}

// Adds the lines before the rules.
fn push_head(out: &mut Vec<u8>, document: &Document<Sequence<Text>>) -> Result<(), OutOfMemory>
    ensures { OnOk result (out.new.items ≡ out.old.items ++ lines (head_lines document.now)) }
{
    push(out, b"wpds 1\n")?;
    push_weights(out, document.weights)?;
    push(out, b"\n")?;
    push_class(out, b"controls", &document.controls)?;
    push_class(out, b"symbols", &document.symbols)?;
    push_class(out, item_word(document.weights), &document.items)
}

/// The text of a document: the header, the weights, the names of each class, the rules and the
/// queries, each on a line of its own. A class without names has no line.
///
/// By the law `written_documents_read_back` of `document_forms`, a document that was read is read
/// back from its text, where that is no longer than a document may be.
///
/// Any document is written: a number without a name writes nothing in its place. The recursion goes
/// as deep as an expression is.
pub fn write_system(alloc: Global, document: &Document<Sequence<Text>>) -> Result<Text, OutOfMemory>
    ensures { IfOk result (λ text. text ≡ written document.now) }
{
    let mut out = Vec::new(alloc);
    push_head(&mut out, document)?;
    push_rules(&mut out, document)?;
    push_queries(&mut out, document)?;
    Ok(Text::from_vec(out))
}
