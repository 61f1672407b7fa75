ghost use Rattle.std.specs.Prelude.{◌≡◌, ◌≤◌, ◌∷◌, [], IfOk};
ghost use Rattle.wpds_base.specs.Limits.{most_rungs};
ghost use Rattle.ladder.specs.Ladders.{question as question_of, ladder_document as document_of};

use crate::names::{controls, symbols};
use crate::rules::rules;
use document_forms::{
    Document, ItemText, ItemTexts, PatternText, QueryLine, QueryLines, SetText, Symbols,
    WeightsLine,
};
use std::alloc::Global;
use wpds_base::{OutOfMemory, Sequence};
use wpds_port::Text;

/// Where costs are cut.
pub const LADDER_CAP: u64 = 1_000_000_000;

// The query: from the first entry to the empty stack.
fn question(alloc: Global) -> Result<QueryLine, OutOfMemory>
    ensures { IfOk result (λ q. q ≡ question_of) }
{
    let mut items = Vec::new(alloc);
    items.push(ItemText {
        set: SetText::Listed(Symbols::one(0)),
        star: false,
    })?;
    Ok(QueryLine {
        from: PatternText {
            control: 0,
            items: ItemTexts::from_vec(items),
        },
        to: PatternText {
            control: 0,
            items: ItemTexts::from_vec(Vec::new(alloc)),
        },
    })
}

/// The ladder of so many rungs, as a document that was read. It is refused only when out of memory.
///
/// Each rung calls the next one twice, and the last entry costs one: of n rungs the one run has 4 * 2^n - 3 rules
/// and costs 2^n, cut at a cap of 1,000,000,000.
pub fn ladder_document(alloc: Global, rungs: u32) -> Result<Document<Sequence<Text>>, OutOfMemory>
    requires { rungs ≤ most_rungs }
    ensures { IfOk result (λ d. d ≡ document_of rungs) }
{
    let mut queries = Vec::new(alloc);
    queries.push(question(alloc)?)?;
    Ok(Document {
        weights: WeightsLine::Cost { cap: LADDER_CAP },
        controls: controls(alloc)?,
        symbols: symbols(alloc, rungs)?,
        items: Sequence::from_vec(Vec::new(alloc)),
        rules: rules(alloc, rungs)?,
        queries: QueryLines::from_vec(queries),
    })
}
