ghost use Rattle.std.specs.Prelude.{◌≡◌, IfOk};
ghost use Rattle.command_words.specs.Commands.{IsWithin};
ghost use Rattle.command_words.specs.declared.options.Request.TheVariants.{Generate};
ghost use Rattle.wpds_app.specs.Generating.{ladder_line as line_of, IsLadderAnswer};

use crate::crew::Crew;
use crate::report::costs;
use command_words::Generation;
use document_systems::{DocumentWeights, pattern_from, system_from};
use ladder::{LADDER_CAP, ladder_document, ladders_are_documents};
use query_answers::value;
use std::alloc::Global;
use std::sync::Wait;
use std::thread::Threads;
use wpds_base::OutOfMemory;
use wpds_port::{Gate, Text};

// The line of a ladder of so many rungs and rules.
fn ladder_line(alloc: Global, rungs: u32, rules: usize, value: &Text) -> Result<Text, OutOfMemory>
    ensures { IfOk result (λ t. t ≡ line_of rungs rules value.now) }
{
    let mut line = format!(in alloc; "gen {rungs}: ")?.into_bytes();
    let count = format!(in alloc; "{rules} rules, value ")?;
    line.extend_from_slice(count.as_bytes())?;
    line.extend_from_slice(value.as_bytes())?;
    line.push(b'\n')?;
    Ok(Text::from_vec(line))
}

/// Makes a ladder, and answers its query.
pub(crate) fn answer_ladder<H: Threads + Wait + Sync, G: Gate>(
    crew: &Crew<'_, H, G>,
    alloc: Global,
    generation: Generation,
) -> Result<Text, OutOfMemory>
    requires { IsWithin (Generate generation) }
    ensures { IfOk result (IsLadderAnswer generation) }
{
    ladders_are_documents();
    let Generation { rungs, by, workers } = generation;
    let document = ladder_document(alloc, rungs)?;
    let system = system_from(alloc, costs(LADDER_CAP), &document)?;
    let query = &document.queries.as_slice()[0];
    let from = pattern_from(alloc, &system, &query.from)?;
    let to = pattern_from(alloc, &system, &query.to)?;
    let cost = value(crew.rt, alloc, &system, by, workers, &from, &to, crew.gate)?;
    let text = system.semiring().text_of(alloc, &document.items, &cost)?;
    ladder_line(alloc, rungs, document.rules.len(), &text)
}
