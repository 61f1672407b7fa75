//! Programs are read.

ghost use Rattle.std.specs.Prelude.{◌≡◌, ◌+◌, ◌<◌, ◌==◌, ◌∷◌, [], ℕ, List, length, nat_lt, is_none, unwrap_or, not, option_map, option_and_then, codes, IfOk, Some, None, Ok, Err};
ghost use Rattle.wpds_base.specs.Faults.{first_fault};
ghost use Rattle.wpds_port.specs.declared.Refusal.{Refusal as RefusalValue};
ghost use Rattle.wpds_port.specs.Refusals.{refusal};
ghost use Rattle.wpds_port.specs.Words.{text_words};
ghost use Rattle.document_forms.specs.Lines.{Line as LineValue, lines, is_text as is_text_as};
ghost use Rattle.program_forms.specs.Declared.{Whole, whole};
ghost use Rattle.program_forms.specs.FirstRefusal.{lines_refusal, said_lines, header_conditions};
ghost use Rattle.program_forms.specs.Places.{Said, said, Stated};
ghost use Rattle.program_forms.specs.Programs.{read_as};
ghost use Rattle.program_tables.specs.Judging.{IsStated};
ghost use Rattle.program_tables.specs.Tables.{AreTablesOf};
ghost use Rattle.boolean_syntax.specs.private.Found.{stated_lines, found_in, IsBehindHeader, AreWalked};
ghost use Rattle.boolean_syntax.specs.private.Readings.{HasRead, IsGone, end_kind_of, program_now};

use crate::body::take_line;
use crate::reading::Reading;
use boolean_programs::{Program, ProgramQueries};
use document_reader::{Lines, is_first_version, is_text};
use program_tables::{Place, StatedLine, StatedLines, Tables, read_tables};
use std::alloc::Global;
use wpds_base::{MOST_BYTES, OutOfMemory};
use wpds_port::{Kind, ReadFault, Refusal, Words};

/// Reads the text of a Boolean program.
///
/// Of its lines that count the first that has a kind of refusal is refused, by the lowest of its
/// kinds; then what is missing, on the line after the last. A text that is too long is refused
/// before all. The other fault is want of memory.
pub fn read_program(alloc: Global, bytes: &[u8]) -> Result<Program, ReadFault>
    ensures program { IfOk result (λ p. read_as bytes.now ≡ Ok p) }
    ensures refused { (r : RefusalValue) → result ≡ Err (ReadFault.Refused r)
        → read_as bytes.now ≡ Err r }
{
    if bytes.len() > MOST_BYTES {
        return Err(refused(0, Kind::TooLong));
    }
    let header = read_header(bytes)?;
    let (tables, stated) = read_tables(alloc, header)?;
    let reading = read_body(alloc, &tables, stated, Lines::new(bytes))?;
    Ok(program(alloc, tables, reading)?)
}

// A line is refused.
fn refused(line: u64, kind: Kind) -> ReadFault
    ensures { result ≡ ReadFault.Refused (refusal line kind) }
{
    ReadFault::Refused(Refusal { line, kind })
}

// The kind by which the first line that counts is refused.
fn header_kind(line: &[u8]) -> Option<Kind>
    ensures { (n : ℕ) → result
        ≡ first_fault (header_conditions (said (record { number = n; bytes = line.now }))) }
{
    if !is_text(line) {
        return Some(Kind::NotText);
    }
    match Words::of(line) {
        Some(words) if is_first_version(&words, b"bool") => None,
        _ => Some(Kind::Header),
    }
}

// The lines behind the header.
fn read_header<'t>(bytes: &'t [u8]) -> Result<Lines<'t>, ReadFault>
    ensures header { IfOk result (IsBehindHeader bytes.now) }
    ensures refused { (r : RefusalValue) → result ≡ Err (ReadFault.Refused r)
        → lines_refusal (length (lines bytes.now) + 1) (said_lines bytes.now) ≡ Some r }
{
    let mut lines = Lines::new(bytes);
    let Some(first) = lines.next() else {
        return Err(refused(lines.after(), Kind::Header));
    };
    match header_kind(first.bytes) {
        Some(kind) => Err(refused(first.number, kind)),
        None => Ok(lines),
    }
}

// Reads a line that may stand at a place, and goes behind it; or tells the kind by which it is
// refused below those above it.
fn read_line<'t>(
    alloc: Global,
    tables: &Tables<'t>,
    place: &mut Place,
    reading: &mut Reading<'t>,
    line: &StatedLine<'t>,
) -> Result<Option<Kind>, OutOfMemory>
    ensures { (w : Whole) (above : List Stated) (l : LineValue) → AreTablesOf w tables.now
        → HasRead w above reading.old → IsStated place.old l line.now
        → IfOk result (IsGone w above place.old place.new l reading.new) }
{
    let number = u32::try_from(line.number).map_err(|_| OutOfMemory)?;
    if let Some(kind) = take_line(alloc, tables, place, reading, number, &line.text)? {
        return Ok(Some(kind));
    }
    place.advance(&line.text)?;
    Ok(None)
}

// The kind that stands on the line after the last, below so many `proc` lines.
fn end_kind(tables: &Tables<'_>, begun: u32, reading: &Reading<'_>) -> Option<Kind>
    ensures { (w : Whole) → AreTablesOf w tables.now
        → result ≡ end_kind_of w begun reading.now }
{
    if reading.closed < begun {
        return Some(Kind::Form);
    }
    if tables.proc(b"main").is_none() {
        return Some(Kind::Unknown);
    }
    if reading.queries.is_empty() {
        return Some(Kind::NothingAsked);
    }
    None
}

// Reads what the first walk over the lines behind the header kept of them, and lets it go. The
// number of the line after the last is that of all lines.
fn read_body<'t>(
    alloc: Global,
    tables: &Tables<'t>,
    stated: StatedLines<'t>,
    lines: Lines<'_>,
) -> Result<Reading<'t>, ReadFault>
    ensures read { (ls : List LineValue) → AreWalked ls tables.now stated.entry
        → IfOk result (HasRead (whole (stated_lines ls)) (stated_lines ls)) }
    ensures whole { (ls : List LineValue) → AreWalked ls tables.now stated.entry
        → IfOk result (λ _. found_in lines.entry.after ls ≡ None) }
    ensures refused { (ls : List LineValue) (r : RefusalValue)
        → AreWalked ls tables.now stated.entry
        → result ≡ Err (ReadFault.Refused r)
        → found_in lines.entry.after ls ≡ Some r }
{
    let mut reading = Reading::new(alloc, tables)?;
    let mut place = Place::at_top(alloc);
    for line in &stated.lines {
        if let Some(kind) = read_line(alloc, tables, &mut place, &mut reading, line)? {
            return Err(refused(line.number, kind));
        }
    }
    if let Some(refusal) = stated.refused {
        return Err(ReadFault::Refused(refusal));
    }
    match end_kind(tables, place.begun(), &reading) {
        Some(kind) => Err(refused(lines.after(), kind)),
        None => Ok(reading),
    }
}

// The program of a reading.
fn program(alloc: Global, tables: Tables<'_>, reading: Reading<'_>) -> Result<Program, OutOfMemory>
    ensures { IfOk result (λ p. p ≡ program_now tables.entry.globals reading.entry) }
{
    Ok(Program {
        globals: tables.globals.into_names(alloc)?,
        procs: reading.procs.into_list(alloc)?,
        queries: ProgramQueries::from_vec(reading.queries),
    })
}
