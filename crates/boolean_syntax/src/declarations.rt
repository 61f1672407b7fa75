//! Lines that declare names, and queries.

ghost use Rattle.std.specs.Prelude.{◌≡◌, ◌∷◌, ◌+◌, ◌&&◌, ◌||◌, ◌==◌, [], ℕ, List, IfOk, Some, not, nat_lt, nat_le};
ghost use Rattle.wpds_base.specs.Faults.{first_fault};
ghost use Rattle.wpds_base.specs.Limits.{most_related, most_queries};
ghost use Rattle.document_forms.specs.Forms.{names_of};
ghost use Rattle.program_forms.specs.Declared.{Whole};
ghost use Rattle.program_forms.specs.Forms.{GlobalForm, ProcForm, LocalForm, QueryForm, params_of};
ghost use Rattle.program_forms.specs.Kinds.{is_main};
ghost use Rattle.program_forms.specs.Places.{Stated};
ghost use Rattle.program_tables.specs.Tables.{AreTablesOf};
ghost use Rattle.boolean_syntax.specs.private.Readings.{HasRead, IsAnswered};

use crate::reading::Reading;
use boolean_programs::Point;
use document_reader::add_names;
use program_statements::Scope;
use program_tables::Tables;
use std::alloc::Global;
use wpds_base::{MOST_QUERIES, MOST_RELATED, OutOfMemory};
use wpds_port::{Kind, Words};

/// Takes globals, or tells the kind by which they are refused.
pub(crate) fn take_globals<'t>(
    reading: &mut Reading<'t>,
    names: &Words<'t>,
) -> Result<Option<Kind>, OutOfMemory>
    ensures { (w : Whole) (above : List Stated) (l : Stated) (xs : List (List ℕ))
        → HasRead w above reading.old → names_of names.now ≡ Some xs → l.form ≡ GlobalForm xs
        → IfOk result (IsAnswered w above l reading.new) }
{
    if add_names(&mut reading.globals, names)? {
        return Ok(Some(Kind::Twice));
    }
    Ok(None)
}

// Whether so many globals and names of a procedure are too many beside so many return slots.
fn is_too_wide(slots: u32, names: usize) -> bool
    ensures { result ≡ nat_lt most_related (names + slots) }
{
    names.saturating_add(slots as usize) > MOST_RELATED
}

// Whether a procedure is `main`, and has names beside so many globals or returns values.
fn is_unlike_main(name: &[u8], names: usize, globals: usize, returns: u32) -> bool
    ensures { result ≡ (is_main name.now && not (names == globals && returns == 0)) }
{
    name == b"main".as_slice() && !(names == globals && returns == 0)
}

// The kind of a `proc` line, whose name was added to those above or not.
fn proc_kind(added: bool, repeated: bool, unlike_main: bool, wide: bool) -> Option<Kind>
    ensures { result ≡ first_fault ((not added || repeated, Kind.Twice)
        ∷ (unlike_main, Kind.Arity) ∷ (wide, Kind.TooWide) ∷ []) }
{
    if !added || repeated {
        return Some(Kind::Twice);
    }
    if unlike_main {
        return Some(Kind::Arity);
    }
    if wide {
        return Some(Kind::TooWide);
    }
    None
}

/// Begins a procedure, or tells the kind by which it is refused.
///
/// Its names are looked up in one table with the globals. These are few below a `proc` line that is
/// taken; where they are many the first such line is refused, and no second one is read.
pub(crate) fn take_proc<'t>(
    alloc: Global,
    tables: &Tables<'t>,
    reading: &mut Reading<'t>,
    name: &'t [u8],
    params: &Words<'t>,
    returns: u32,
) -> Result<Option<Kind>, OutOfMemory>
    ensures { (w : Whole) (above : List Stated) (l : Stated) (ps : List (List ℕ))
        → AreTablesOf w tables.now → HasRead w above reading.old
        → params_of params.now ≡ Some ps → l.form ≡ ProcForm name.now ps returns
        → IfOk result (IsAnswered w above l reading.new) }
{
    tables.globals.stands_once();
    let added = reading.seen_procs.add(name)?;
    let mut names = tables.globals.copy(alloc)?;
    let repeated = add_names(&mut names, params)?;
    let unlike_main = is_unlike_main(name, names.len(), tables.globals.len(), returns);
    let wide = is_too_wide(tables.slots, names.len());
    if let Some(kind) = proc_kind(added, repeated, unlike_main, wide) {
        return Ok(Some(kind));
    }
    reading.procs.begin(alloc, name, params, returns)?;
    reading.scope = Scope { names, returns };
    Ok(None)
}

/// Takes locals, or tells the kind by which they are refused.
pub(crate) fn take_locals<'t>(
    alloc: Global,
    tables: &Tables<'t>,
    reading: &mut Reading<'t>,
    names: &Words<'t>,
) -> Result<Option<Kind>, OutOfMemory>
    ensures { (w : Whole) (above : List Stated) (l : Stated) (xs : List (List ℕ))
        → AreTablesOf w tables.now → HasRead w above reading.old
        → names_of names.now ≡ Some xs → l.form ≡ LocalForm xs
        → IfOk result (IsAnswered w above l reading.new) }
{
    reading.scope.names.stands_once();
    if add_names(&mut reading.scope.names, names)? {
        return Ok(Some(Kind::Twice));
    }
    if is_too_wide(tables.slots, reading.scope.names.len()) {
        return Ok(Some(Kind::TooWide));
    }
    reading.procs.add_locals(alloc, names)?;
    Ok(None)
}

// The kind of a query for a label that is declared, below so many queries.
fn query_kind(asked: usize, fails: bool, asserts: bool) -> Option<Kind>
    ensures { result ≡ first_fault
        ((nat_le most_queries asked, Kind.Count) ∷ (fails && not asserts, Kind.Label) ∷ []) }
{
    if asked >= MOST_QUERIES {
        return Some(Kind::Count);
    }
    if fails && !asserts {
        return Some(Kind::Label);
    }
    None
}

/// Takes a query, or tells the kind by which it is refused.
pub(crate) fn take_query(
    tables: &Tables<'_>,
    reading: &mut Reading<'_>,
    fails: bool,
    label: &[u8],
) -> Result<Option<Kind>, OutOfMemory>
    ensures { (w : Whole) (above : List Stated) (l : Stated) → AreTablesOf w tables.now
        → HasRead w above reading.old
        → l.form ≡ QueryForm fails label.now
        → IfOk result (IsAnswered w above l reading.new) }
{
    let Some(row) = tables.label(label) else {
        return Ok(Some(Kind::Unknown));
    };
    if let Some(kind) = query_kind(reading.queries.len(), fails, row.asserts) {
        return Ok(Some(kind));
    }
    reading.queries.push(Point {
        line: row.line,
        failed: fails,
    })?;
    Ok(None)
}
