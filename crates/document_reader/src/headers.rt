//! The first two lines of a document that count: its header and its weights line.

ghost use Rattle.std.specs.Prelude.{◌≡◌, IfOk, option_and_then};
ghost use Rattle.std.specs.Result.{result_err};
ghost use Rattle.document_forms.specs.Forms.{line_words, is_first_version as is_first_version_of};
ghost use Rattle.document_forms.specs.Languages.{language_named, language_of};
ghost use Rattle.document_reader.specs.FirstLines.{first_line as first_line_of};
ghost use Rattle.document_reader.specs.private.Readings.{header_kind_on, weights_kind_on, SaysWeights};

use crate::lines::{Lines, is_text};
use crate::weights_lines::weights_line;
use document_forms::{Language, WeightsLine};
use rule_reader::is_name;
use wpds_port::{Kind, Lexeme, Words};

/// Whether the words are this name and the number 1.
pub fn is_first_version(words: &Words, name: &[u8]) -> bool
    ensures { result ≡ is_first_version_of name.now words.now }
{
    let Some((first, rest)) = words.split_first() else {
        return false;
    };
    let Some((second, rest)) = rest.split_first() else {
        return false;
    };
    if rest.split_first().is_some() {
        return false;
    }
    match second {
        Lexeme::Number(digits) => is_name(first, name) && digits == b"1".as_slice(),
        _ => false,
    }
}

// The language whose header the line is.
fn header(line: &[u8]) -> Option<Language>
    ensures { result ≡ option_and_then language_named (line_words line.now) }
{
    let words = Words::of(line)?;
    if is_first_version(&words, b"wpds") {
        return Some(Language::System);
    }
    if is_first_version(&words, b"bool") {
        return Some(Language::Program);
    }
    None
}

/// The language whose header the first line is that counts, if it is a header. It takes no memory.
pub fn language(bytes: &[u8]) -> Option<Language>
    ensures { result ≡ language_of bytes.now }
{
    let line = Lines::new(bytes).next()?;
    header(line.bytes)
}

/// The number of the first line that counts, from 1, and 0 where there is none. It takes no memory.
pub fn first_line(bytes: &[u8]) -> u64
    ensures { result ≡ first_line_of bytes.now }
{
    match Lines::new(bytes).next() {
        Some(line) => line.number,
        None => 0,
    }
}

/// The kind by which the first line that counts is refused.
pub(crate) fn header_kind(line: &[u8]) -> Option<Kind>
    ensures { result ≡ header_kind_on line.now }
{
    if !is_text(line) {
        return Some(Kind::NotText);
    }
    match header(line) {
        Some(Language::System) => None,
        _ => Some(Kind::Header),
    }
}

/// The weights that the second line declares, or the kind by which it is refused.
pub(crate) fn read_weights(line: &[u8]) -> Result<WeightsLine, Kind>
    ensures weights { IfOk result (SaysWeights line.now) }
    ensures kind { result_err result ≡ weights_kind_on line.now }
{
    if !is_text(line) {
        return Err(Kind::NotText);
    }
    weights_line(line)
}
