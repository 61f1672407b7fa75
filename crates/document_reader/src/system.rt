//! Systems are read.

ghost use Rattle.std.specs.Prelude.{◌≡◌, ℕ, [], IfOk, Some, None, Err, map};
ghost use Rattle.wpds_port.specs.declared.Refusal.{Refusal as RefusalValue};
ghost use Rattle.document_forms.specs.Documents.{reads_as};
ghost use Rattle.document_forms.specs.FirstRefusal.{all_symbols, counted, missing, FirstRefusal};
ghost use Rattle.document_reader.specs.private.Readings.{HasRead, HasFirstTwo, above_now, document_now};
ghost use Rattle.rule_reader.specs.RuleReads.{HasFewItems};
ghost use Rattle.document_reader.specs.private.Found.{found_first};

use crate::headers::{header_kind, read_weights};
use crate::lines::Lines;
use crate::reading::{Reading, read_body, refused};
use document_forms::{Document, QueryLines, RuleLines, found_line_by_line};
use std::alloc::Global;
use wpds_base::{MOST_BYTES, OutOfMemory, Sequence};
use wpds_port::{Kind, ReadFault, Text};

/// Reads the text of a pushdown system.
///
/// Of its lines that count the first that has a kind of refusal is refused, by the lowest of its
/// kinds; then what is missing, on the line after the last. A text that is too long is refused
/// before all. The other fault is want of memory.
pub fn read_system(alloc: Global, bytes: &[u8]) -> Result<Document<Sequence<Text>>, ReadFault>
    ensures document { IfOk result (reads_as bytes.now) }
    ensures refused { (r : RefusalValue) → result ≡ Err (ReadFault.Refused r)
        → FirstRefusal bytes.now r }
{
    found_line_by_line();
    if bytes.len() > MOST_BYTES {
        return Err(refused(0, Kind::TooLong));
    }
    let reading = read_lines(alloc, Lines::new(bytes))?;
    Ok(document(alloc, reading)?)
}

// Reads all lines.
fn read_lines<'t>(alloc: Global, mut lines: Lines<'t>) -> Result<Reading<'t>, ReadFault>
    ensures read { let ls = map counted lines.entry.lines in
        IfOk result (HasRead (all_symbols ls) ls) }
    ensures whole { IfOk result (λ _. missing (map counted lines.entry.lines) ≡ None) }
    ensures refused { let ls = map counted lines.entry.lines in
        (r : RefusalValue) → result ≡ Err (ReadFault.Refused r)
        → found_first (all_symbols ls) lines.entry.after ls ≡ Some r }
{
    let mut reading = read_first_two(alloc, &mut lines)?;
    read_body(alloc, &mut reading, &mut lines)?;
    if reading.queries.is_empty() {
        return Err(refused(lines.after(), Kind::NothingAsked));
    }
    Ok(reading)
}

// Reads the header and the weights line.
fn read_first_two<'t>(alloc: Global, lines: &mut Lines<'t>) -> Result<Reading<'t>, ReadFault>
    ensures read { IfOk result (HasFirstTwo lines.old.lines lines.new.lines) }
    ensures few { IfOk result (λ r. HasFewItems (above_now r)) }
    ensures none { IfOk result (λ r. r.scope.symbols ≡ []) }
    ensures refused { (all : ℕ) (r : RefusalValue) → result ≡ Err (ReadFault.Refused r)
        → found_first all lines.old.after (map counted lines.old.lines) ≡ Some r }
    ensures after { lines.new.after ≡ lines.old.after }
{
    let Some(first) = lines.next() else {
        return Err(refused(lines.after(), Kind::Header));
    };
    if let Some(kind) = header_kind(first.bytes) {
        return Err(refused(first.number, kind));
    }
    let Some(second) = lines.next() else {
        return Err(refused(lines.after(), Kind::NothingAsked));
    };
    match read_weights(second.bytes) {
        Ok(weights) => Ok(Reading::new(alloc, weights)),
        Err(kind) => Err(refused(second.number, kind)),
    }
}

// The document of a reading.
fn document(alloc: Global, reading: Reading<'_>) -> Result<Document<Sequence<Text>>, OutOfMemory>
    ensures { IfOk result (λ d. d ≡ document_now reading.entry) }
{
    let scope = reading.scope;
    Ok(Document {
        weights: scope.weights,
        controls: scope.controls.into_names(alloc)?,
        symbols: scope.symbols.into_names(alloc)?,
        items: scope.items.into_names(alloc)?,
        rules: RuleLines::from_vec(reading.rules),
        queries: QueryLines::from_vec(reading.queries),
    })
}
