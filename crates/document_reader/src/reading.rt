//! What is read of a document, line by line.

ghost use Rattle.std.specs.Prelude.{◌≡◌, [], ◌++◌, List, map, IfOk, Some, Err};
ghost use Rattle.wpds_port.specs.Refusals.{refusal};
ghost use Rattle.wpds_port.specs.declared.Refusal.{Refusal as RefusalValue};
ghost use Rattle.document_forms.specs.FirstRefusal.{Counted, counted, first_refused};
ghost use Rattle.document_reader.specs.private.Readings.{HasRead, above_now, only_weights, symbols_with};
ghost use Rattle.rule_reader.specs.RuleReads.{HasFewItems};

use crate::body_lines::read_line;
use crate::lines::Lines;
use document_forms::{QueryLine, RuleLine, WeightsLine, above_with_a_line};
use rule_reader::{NameTable, Scope};
use std::alloc::Global;
use wpds_port::{Kind, ReadFault, Refusal};

/// What the lines that were read declare and ask.
#[derive(Drop)]
pub(crate) struct Reading<'t> {
    pub scope: Scope<'t>,
    pub rules: Vec<RuleLine>,
    pub queries: Vec<QueryLine>,
}

impl<'t> Reading<'t> {
    /// What a weights line declares.
    pub(crate) fn new(alloc: Global, weights: WeightsLine) -> Reading<'t>
        ensures above { above_now result ≡ only_weights weights }
        ensures rules { result.rules.items ≡ [] }
        ensures queries { result.queries.items ≡ [] }
    {
        Reading {
            scope: Scope {
                weights,
                controls: NameTable::new(alloc),
                symbols: NameTable::new(alloc),
                items: NameTable::new(alloc),
            },
            rules: Vec::new(alloc),
            queries: Vec::new(alloc),
        }
    }
}

/// A line is refused.
pub(crate) fn refused(line: u64, kind: Kind) -> ReadFault
    ensures { result ≡ ReadFault.Refused (refusal line kind) }
{
    ReadFault::Refused(Refusal { line, kind })
}

/// Reads the lines behind the weights line, up to the first that is refused.
pub(crate) fn read_body<'t>(
    alloc: Global,
    reading: &mut Reading<'t>,
    lines: &mut Lines<'t>,
) -> Result<(), ReadFault>
    requires few { HasFewItems (above_now reading.old) }
    ensures read { let all = symbols_with reading.old.scope.symbols lines.old.lines in
        (ls : List Counted) → HasRead all ls reading.old
        → IfOk result (λ _. HasRead all (ls ++ map counted lines.old.lines) reading.new) }
    ensures refused { let all = symbols_with reading.old.scope.symbols lines.old.lines in
        (ls : List Counted) (r : RefusalValue) → HasRead all ls reading.old
        → result ≡ Err (ReadFault.Refused r)
        → first_refused all [] (ls ++ map counted lines.old.lines) ≡ Some r }
    ensures after { lines.new.after ≡ lines.old.after }
{
    above_with_a_line();
    let mut known = None;
    while let Some(line) = lines.next() {
        if let Some(kind) = read_line(alloc, &mut known, lines, reading, line.bytes)? {
            return Err(refused(line.number, kind));
        }
    }
    Ok(())
}
