//! Body lines, and each line by its form.

ghost use Rattle.std.specs.Prelude.{◌≡◌, ◌∷◌, ◌++◌, ◌||◌, if◌then◌else◌, [], ℕ, List, IfOk, Option, Some, None};
ghost use Rattle.wpds_base.specs.Faults.{first_fault};
ghost use Rattle.program_forms.specs.Above.{points_on, closes_proc};
ghost use Rattle.program_forms.specs.Declared.{Whole};
ghost use Rattle.program_forms.specs.Forms.{StatementForm, Stating, ElseForm, EndForm};
ghost use Rattle.program_forms.specs.Kinds.{listed};
ghost use Rattle.program_forms.specs.Places.{Stated};
ghost use Rattle.program_forms.specs.Programs.{end_of};
ghost use Rattle.program_lines.specs.Texts.{statement_said, line_said, label_said};
ghost use Rattle.program_tables.specs.Tables.{AreTablesOf};
ghost use Rattle.boolean_syntax.specs.private.Readings.{HasRead, IsAnswered, HasSeen, IsTakenIn};

use crate::declarations::{take_globals, take_locals, take_proc, take_query};
use crate::reading::Reading;
use boolean_programs::{BodyLine, Statement};
use program_lines::{LineText, StatementText};
use program_statements::{StatementFaults, read_statement};
use program_tables::{Block, Place, Tables};
use rule_reader::NameTable;
use std::alloc::Global;
use wpds_base::OutOfMemory;
use wpds_port::{Kind, Text};

// What the `end` at a place closes.
fn end_statement(place: &Place) -> Statement
    ensures { result ≡ end_of place.now.blocks }
{
    match place.newest() {
        Some(Block::If) => Statement::EndIf,
        Some(Block::Else) => Statement::EndIf,
        Some(Block::While) => Statement::EndWhile,
        None => Statement::EndProc,
    }
}

// How many procedures the `end` at a place closes.
fn closings(place: &Place) -> u32
    ensures { result ≡ (if closes_proc EndForm place.now.blocks then 1 else 0) }
{
    match place.newest() {
        Some(_) => 0,
        None => 1,
    }
}

// The kind of a statement's line, where its label stands above, and a limit is passed.
fn statement_kind(again: bool, faults: StatementFaults, past: bool) -> Option<Kind>
    ensures { result ≡ first_fault ((again || faults.twice, Kind.Twice)
        ∷ (faults.unknown, Kind.Unknown) ∷ (faults.large, Kind.WeightText)
        ∷ (faults.deep || past, Kind.Count) ∷ (faults.misfits, Kind.Arity)
        ∷ (faults.leaves, Kind.Label) ∷ []) }
{
    if again || faults.twice {
        return Some(Kind::Twice);
    }
    if faults.unknown {
        return Some(Kind::Unknown);
    }
    if faults.large {
        return Some(Kind::WeightText);
    }
    if faults.deep || past {
        return Some(Kind::Count);
    }
    if faults.misfits {
        return Some(Kind::Arity);
    }
    if faults.leaves {
        return Some(Kind::Label);
    }
    None
}

// A label as a text of its own.
fn label_text(alloc: Global, label: Option<&[u8]>) -> Result<Option<Text>, OutOfMemory>
    ensures { IfOk result (λ text. text ≡ label_said label.entry) }
{
    match label {
        Some(name) => Ok(Some(Text::of(alloc, name)?)),
        None => Ok(None),
    }
}

// Adds a label to those that stand above, and returns whether it stood there.
fn see_label<'t>(seen: &mut NameTable<'t>, label: Option<&'t [u8]>) -> Result<bool, OutOfMemory>
    ensures { IfOk result (HasSeen seen.old seen.new (listed (label_said label.entry))) }
{
    match label {
        Some(name) => Ok(!seen.add(name)?),
        None => Ok(false),
    }
}

// How many points a statement has.
fn points_of(text: &StatementText<'_>) -> u32
    ensures { (s : StatementForm) → statement_said text.now ≡ Some s
        → (label : Option (List ℕ)) → result ≡ points_on (Stating label s) }
{
    match text {
        StatementText::Assert(_) => 2,
        _ => 1,
    }
}

// Takes a statement with its label, or tells the kind by which it is refused.
fn take_statement<'t>(
    alloc: Global,
    tables: &Tables<'t>,
    place: &Place,
    reading: &mut Reading<'t>,
    line: u32,
    label: Option<&'t [u8]>,
    text: &StatementText<'t>,
) -> Result<Option<Kind>, OutOfMemory>
    ensures { (w : Whole) (above : List Stated) (l : Stated) (s : StatementForm)
        → AreTablesOf w tables.now → HasRead w above reading.old
        → statement_said text.now ≡ Some s → l.form ≡ Stating (label_said label.entry) s
        → l.place ≡ place.now → l.number ≡ line
        → IfOk result (IsAnswered w above l reading.new) }
{
    let again = see_label(&mut reading.seen_labels, label)?;
    let Some(read) = read_statement(alloc, tables, &reading.scope, place.begun(), text)? else {
        return Ok(Some(Kind::Form));
    };
    let points = points_of(text);
    let past = reading.passes_limit(points, read.rules);
    if let Some(kind) = statement_kind(again, read.faults, past) {
        return Ok(Some(kind));
    }
    let line = BodyLine {
        line,
        label: label_text(alloc, label)?,
        statement: read.statement,
    };
    reading.add_line(points, read.rules, line)?;
    Ok(None)
}

// Takes a line of a block's or a procedure's frame, or tells the kind by which it is refused.
fn take_frame_line(
    reading: &mut Reading<'_>,
    line: u32,
    statement: Statement,
) -> Result<Option<Kind>, OutOfMemory>
    ensures { IfOk result (IsTakenIn reading.old reading.new line statement) }
{
    if reading.passes_limit(1, 1) {
        return Ok(Some(Kind::Count));
    }
    let line = BodyLine {
        line,
        label: None,
        statement,
    };
    reading.add_line(1, 1, line)?;
    Ok(None)
}

// Takes an `else`, or tells the kind by which it is refused.
fn take_else(reading: &mut Reading<'_>, line: u32) -> Result<Option<Kind>, OutOfMemory>
    ensures { (w : Whole) (above : List Stated) (l : Stated) → HasRead w above reading.old
        → l.form ≡ ElseForm → l.number ≡ line
        → IfOk result (IsAnswered w above l reading.new) }
{
    take_frame_line(reading, line, Statement::Else)
}

// Takes an `end`, or tells the kind by which it is refused.
fn take_end(
    place: &Place,
    reading: &mut Reading<'_>,
    line: u32,
) -> Result<Option<Kind>, OutOfMemory>
    ensures { (w : Whole) (above : List Stated) (l : Stated) → HasRead w above reading.old
        → l.form ≡ EndForm → l.place ≡ place.now → l.number ≡ line
        → IfOk result (IsAnswered w above l reading.new) }
{
    let closed = reading.closed.checked_add(closings(place));
    reading.closed = closed.ok_or(OutOfMemory)?;
    take_frame_line(reading, line, end_statement(place))
}

/// Takes a line that may stand at this place, or tells the kind by which it is refused.
pub(crate) fn take_line<'t>(
    alloc: Global,
    tables: &Tables<'t>,
    place: &Place,
    reading: &mut Reading<'t>,
    line: u32,
    text: &LineText<'t>,
) -> Result<Option<Kind>, OutOfMemory>
    ensures { (w : Whole) (above : List Stated) (l : Stated) → AreTablesOf w tables.now
        → HasRead w above reading.old → line_said text.now ≡ Some l.form
        → l.place ≡ place.now → l.number ≡ line
        → IfOk result (IsAnswered w above l reading.new) }
{
    match text {
        LineText::Global { names } => take_globals(reading, names),
        LineText::Proc {
            name,
            params,
            returns,
        } => take_proc(alloc, tables, reading, *name, params, *returns),
        LineText::Local { names } => take_locals(alloc, tables, reading, names),
        LineText::Statement { label, statement } => {
            take_statement(alloc, tables, place, reading, line, *label, statement)
        }
        LineText::Else => take_else(reading, line),
        LineText::End => take_end(place, reading, line),
        LineText::Query { fails, label } => take_query(tables, reading, *fails, *label),
    }
}
