ghost use Rattle.std.specs.Prelude.{IfOk};
ghost use Rattle.document_reader.specs.QueryReading.{IsQueryRead};

use crate::patterns::{QueryFaults, read_pattern};
use document_forms::QueryLine;
use rule_reader::NameTable;
use std::alloc::Global;
use wpds_base::OutOfMemory;
use wpds_port::{Lexeme, Mark, Words};

/// A query as it is read. Where something is amiss, `query` says nothing.
#[derive(Drop)]
pub struct QueryRead {
    /// The query; it says nothing where something is amiss.
    pub query: QueryLine,
    /// What is amiss.
    pub faults: QueryFaults,
}

/// The words behind `query` as a query, in a document that declares so many symbols in all; nothing
/// where they are none.
pub fn read_query(
    alloc: Global,
    all: usize,
    controls: &NameTable,
    symbols: &NameTable,
    words: &Words,
) -> Result<Option<QueryRead>, OutOfMemory>
    ensures { IfOk result (IsQueryRead all controls.now symbols.now words.now) }
{
    let (before, behind) = words.split_once(Lexeme::Mark(Mark::Implies));
    let Some(behind) = behind else {
        return Ok(None);
    };
    let Some(from) = read_pattern(alloc, all, controls, symbols, &before)? else {
        return Ok(None);
    };
    let Some(to) = read_pattern(alloc, all, controls, symbols, &behind)? else {
        return Ok(None);
    };
    let faults = from.faults.or(to.faults);
    let query = QueryLine {
        from: from.pattern,
        to: to.pattern,
    };
    Ok(Some(QueryRead { query, faults }))
}
