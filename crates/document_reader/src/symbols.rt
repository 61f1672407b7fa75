//! How many symbols a document declares.

ghost use Rattle.std.specs.Prelude.{◌≡◌, ◌++◌, [], IfOk, IfSome, Some, false, map};
ghost use Rattle.document_forms.specs.FirstRefusal.{counted};
ghost use Rattle.document_forms.specs.Forms.{Symbols};
ghost use Rattle.document_forms.specs.Names.{once};
ghost use Rattle.document_reader.specs.private.Readings.{declared_on, names_in, symbols_with};

use crate::lines::{Lines, line_front};
use crate::name_lines::symbols_on;
use rule_reader::{NameTable, is_name};
use std::alloc::Global;
use wpds_base::OutOfMemory;

/// How many symbols a document declares in all, where these stand above and these lines are left: a query may be
/// refused for symbols that are declared below. They are counted for the first query, and known from then on.
pub(crate) fn all_symbols<'t>(
    alloc: Global,
    known: &mut Option<usize>,
    symbols: &NameTable<'t>,
    left: &Lines<'t>,
) -> Result<usize, OutOfMemory>
    requires known { IfSome known.old (λ n. n ≡ symbols_with symbols.now left.now.lines) }
    ensures all { IfOk result (λ n. n ≡ symbols_with symbols.now left.now.lines) }
    ensures known { IfOk result (λ n. known.new ≡ Some n) }
{
    if let Some(all) = *known {
        return Ok(all);
    }
    let all = count_symbols(alloc, symbols, left)?;
    *known = Some(all);
    Ok(all)
}

// Counts the symbols above and those of the lines that are left. The names above are copied only where the lines
// declare some.
fn count_symbols<'t>(
    alloc: Global,
    symbols: &NameTable<'t>,
    left: &Lines<'t>,
) -> Result<usize, OutOfMemory>
    ensures { IfOk result (λ n. n ≡ symbols_with symbols.now left.now.lines) }
{
    symbols.stands_once();
    if !are_declared(left) {
        return Ok(symbols.len());
    }
    let all = with_lines(symbols.copy(alloc)?, left)?;
    Ok(all.len())
}

// Adds the symbols of lines to those of a table.
fn with_lines<'t>(symbols: NameTable<'t>, left: &Lines<'t>) -> Result<NameTable<'t>, OutOfMemory>
    ensures { IfOk result
        (λ all. all ≡ once (symbols.entry ++ names_in Symbols (map counted left.now.lines))) }
{
    symbols.stands_once();
    let mut all = symbols;
    let mut lines = left.reborrow();
    while let Some(line) = lines.next() {
        symbols_on(&mut all, line.bytes)?;
    }
    Ok(all)
}

// Whether lines declare symbols.
fn are_declared(left: &Lines) -> bool
    ensures { result ≡ false → names_in Symbols (map counted left.now.lines) ≡ [] }
{
    let mut lines = left.reborrow();
    while let Some(line) = lines.next() {
        if is_of_symbols(line.bytes) {
            return true;
        }
    }
    false
}

// Whether a line begins with the word of symbols.
fn is_of_symbols(line: &[u8]) -> bool
    ensures { result ≡ false → declared_on Symbols line.now ≡ [] }
{
    match line_front(line) {
        Some((first, _)) => is_name(first, b"symbols"),
        None => false,
    }
}
