ghost use Rattle.std.specs.Prelude.{◌≡◌, ◌<◌, ◌≤◌, All, IfOk, OnOk, None, Some, length, slice_set};
ghost use Rattle.wpds_base.specs.Limits.{most_copied, most_cost, most_related};
ghost use Rattle.document_forms.specs.Lawful.{IsDocument, IsQueryOf};
ghost use Rattle.document_forms.specs.declared.weight.WeightsLine.TheVariants.{Relation};
ghost use Rattle.genkill_weights.specs.Widths.{width_for};
ghost use Rattle.document_systems.specs.CopyWeights.{copy_kind};
ghost use Rattle.document_systems.specs.FactWeights.{genkill_kind};
ghost use Rattle.document_systems.specs.RelationWeights.{relation_kind};
ghost use Rattle.document_systems.specs.Systems.{system_of, side_of, AreTaken};
ghost use Rattle.worker_pool.specs.Workers.{IsWorkerCount};
ghost use Rattle.query_answers.specs.Answering.{IsFinished, IsSaturated, saturated_system};
ghost use Rattle.report_text.specs.Listings.{query_line as line_of_query};
ghost use Rattle.report_text.specs.Reports.{query_text as text_of_query};
ghost use Rattle.wpds_app.specs.Reports.{TellsQuery, IsReported, IsReport};
ghost use Rattle.wpds_app.specs.private.Groups.{values_over};
ghost use Rattle.wpds_app.specs.private.Kept.{AreKept, TellsAt, opened_text, summed_text};

use crate::alike::same_pattern;
use crate::crew::Crew;
use crate::together::lines_by_values;
use copy_weights::CopyConst;
use cost_weights::Cost;
use document_forms::{Document, PatternText, QueryLine, WeightsLine};
use document_systems::{DocumentWeights, Names, pattern_from, system_from};
use genkill_weights::with_width;
use node_weigher::NodeWeigher;
use path_sum::Answer;
use pushdown_rules::System;
use query_answers::{Saturation, Values, answer_over, saturate};
use relation_weights::Relations;
use report_text::{Options, query_line, query_text};
use semiring_laws::Reach;
use std::alloc::Global;
use std::sync::Wait;
use std::thread::Threads;
use weight_tables::{PlainWeigher, Weigher};
use witness_graph::Side;
use wpds_base::OutOfMemory;
use wpds_port::{Gate, Text};

// The lines of an answer to the query with a number.
fn answer_lines<S: DocumentWeights>(
    alloc: Global,
    semiring: &S,
    items: &Names,
    number: u64,
    answer: &Answer<S>,
    options: Options,
) -> Result<Text, OutOfMemory>
    ensures { let value = S.kind.written semiring.now items.now answer.now.value in
        IfOk result (λ t. t ≡ text_of_query number options value answer.now.listing) }
{
    let value = semiring.text_of(alloc, items, &answer.value)?;
    query_text(alloc, number, &value, &answer.listing, options)
}

/// The line of the value of the query with a number.
pub(crate) fn value_line<S: DocumentWeights>(
    alloc: Global,
    semiring: &S,
    items: &Names,
    number: u64,
    value: &S::W,
) -> Result<Text, OutOfMemory>
    ensures { let value = S.kind.written semiring.now items.now value.now in
        IfOk result (λ t. t ≡ line_of_query number value) }
{
    let value = semiring.text_of(alloc, items, value)?;
    query_line(alloc, number, &value)
}

// The pattern of a query that a saturation starts from.
fn opened_text(by: Side, query: &QueryLine) -> &PatternText
    ensures { result.now ≡ opened_text by query.now }
{
    match by {
        Side::Pre => &query.to,
        Side::Post => &query.from,
    }
}

// The pattern of a query that is summed over.
fn summed_text(by: Side, query: &QueryLine) -> &PatternText
    ensures { result.now ≡ summed_text by query.now }
{
    match by {
        Side::Pre => &query.from,
        Side::Post => &query.to,
    }
}

// The lines of the query with a number, over the saturation from the pattern where it starts.
fn query_lines<S: DocumentWeights>(
    alloc: Global,
    saturation: &Saturation<'_, S>,
    document: &Document<Names>,
    options: Options,
    number: u64,
    query: &QueryLine,
) -> Result<Text, OutOfMemory>
    requires system { let p = saturated_system saturation.now in
        p ≡ system_of S.kind p.semiring document.now }
    requires query { IsQueryOf document.now query.now }
    requires finished { IsFinished saturation.now }
    requires saturated { let opened = side_of document.now (opened_text options.by query.now) in
        let p = saturated_system saturation.now in
        IsSaturated S.operations p options.by options.workers opened saturation.now }
    ensures { let semiring = (saturated_system saturation.now).semiring in
        IfOk result (TellsQuery S.kind options semiring document.now number query.now) }
{
    let system = saturation.system();
    let summed = pattern_from(alloc, system, summed_text(options.by, query))?;
    let answer = answer_over(alloc, saturation, &summed)?;
    answer_lines(
        alloc,
        system.semiring(),
        &document.items,
        number,
        &answer,
        options,
    )
}

/// Keeps lines at a place.
pub(crate) fn keep(kept: &mut [Option<Text>], place: usize, lines: Text)
    requires { place < length kept.old }
    ensures { kept.new ≡ slice_set kept.old place (Some lines) }
{
    kept[place] = Some(lines);
}

// Keeps the lines of each query from a place on that starts from this pattern.
fn keep_alike<S: DocumentWeights>(
    alloc: Global,
    saturation: &Saturation<'_, S>,
    document: &Document<Names>,
    options: Options,
    opened: &PatternText,
    place: usize,
    kept: &mut [Option<Text>],
) -> Result<(), OutOfMemory>
    requires document { IsDocument document.now }
    requires system { let p = saturated_system saturation.now in
        p ≡ system_of S.kind p.semiring document.now }
    requires finished { IsFinished saturation.now }
    requires saturated { let pattern = side_of document.now opened.now in
        let p = saturated_system saturation.now in
        IsSaturated S.operations p options.by options.workers pattern saturation.now }
    requires room { length kept.old ≡ length document.now.queries }
    requires kept { let semiring = (saturated_system saturation.now).semiring in
        AreKept S.kind options semiring document.now kept.old }
    ensures kept { let semiring = (saturated_system saturation.now).semiring in
        OnOk result (AreKept S.kind options semiring document.now kept.new) }
    ensures room { length kept.new ≡ length kept.old }
{
    let queries = document.queries.as_slice();
    for k in place..queries.len() {
        let query = &queries[k];
        if !same_pattern(opened_text(options.by, query), opened) {
            continue;
        }
        let number = k as u64 + 1;
        let lines = query_lines(alloc, saturation, document, options, number, query)?;
        keep(kept, k, lines);
    }
    Ok(())
}

// The lines of the query at a place. Those of the later queries that start from the same pattern are kept: one saturation
// serves them all.
fn lines_by_saturation<
    H: Threads + Wait + Sync,
    S: DocumentWeights<W: Send + Sync, Ret: Send + Sync> + Send + Sync,
    G: Gate,
>(
    crew: &Crew<'_, H, G>,
    alloc: Global,
    system: &System<S>,
    document: &Document<Names>,
    options: Options,
    place: usize,
    kept: &mut [Option<Text>],
) -> Result<Text, OutOfMemory>
    requires document { IsDocument document.now }
    requires system { system.now ≡ system_of S.kind system.now.semiring document.now }
    requires place { place < length document.now.queries }
    requires room { length kept.old ≡ length document.now.queries }
    requires kept { AreKept S.kind options system.now.semiring document.now kept.old }
    requires workers { IsWorkerCount options.workers }
    ensures lines { let semiring = system.now.semiring in
        IfOk result (TellsAt S.kind options semiring document.now place) }
    ensures kept { let semiring = system.now.semiring in
        OnOk result (AreKept S.kind options semiring document.now kept.new) }
    ensures room { length kept.new ≡ length kept.old }
{
    let query = &document.queries.as_slice()[place];
    let opened = opened_text(options.by, query);
    let pattern = pattern_from(alloc, system, opened)?;
    let saturation = saturate(
        crew.rt,
        alloc,
        system,
        options.by,
        options.workers,
        &pattern,
        crew.gate,
    )?;
    let number = place as u64 + 1;
    let lines = query_lines(alloc, &saturation, document, options, number, query)?;
    keep_alike(
        alloc,
        &saturation,
        document,
        options,
        opened,
        place + 1,
        kept,
    )?;
    Ok(lines)
}

// The lines of the query at a place. Lines of later queries that are found with them are kept.
fn lines_at<
    H: Threads + Wait + Sync,
    S: DocumentWeights<W: Send + Sync, Ret: Send + Sync> + Send + Sync,
    M: Weigher<S>,
    G: Gate,
>(
    crew: &Crew<'_, H, G>,
    alloc: Global,
    system: &System<S>,
    document: &Document<Names>,
    options: Options,
    place: usize,
    kept: &mut [Option<Text>],
    values: &mut Values<'_, S, M>,
) -> Result<Text, OutOfMemory>
    requires document { IsDocument document.now }
    requires system { system.now ≡ system_of S.kind system.now.semiring document.now }
    requires place { place < length document.now.queries }
    requires room { length kept.old ≡ length document.now.queries }
    requires kept { AreKept S.kind options system.now.semiring document.now kept.old }
    requires values { values.old ≡ values_over system.now options }
    requires workers { IsWorkerCount options.workers }
    ensures lines { let semiring = system.now.semiring in
        IfOk result (TellsAt S.kind options semiring document.now place) }
    ensures kept { let semiring = system.now.semiring in
        OnOk result (AreKept S.kind options semiring document.now kept.new) }
    ensures room { length kept.new ≡ length kept.old }
    ensures values { values.new ≡ values.old }
{
    if let Some(lines) = kept[place].take() {
        return Ok(lines);
    }
    if options.is_brief() {
        lines_by_values(crew, alloc, system, document, options, place, kept, values)
    } else {
        lines_by_saturation(crew, alloc, system, document, options, place, kept)
    }
}

// As many places for lines, where nothing is kept yet.
fn nothing_kept(alloc: Global, count: usize) -> Result<Vec<Option<Text>>, OutOfMemory>
    ensures room { IfOk result (λ kept. length kept.items ≡ count) }
    ensures empty { IfOk result (λ kept. All (λ lines. lines ≡ None) kept.items) }
{
    let mut kept = Vec::with_capacity(alloc, count)?;
    for _ in 0..count {
        kept.push(None)?;
    }
    Ok(kept)
}

// The lines of all queries of a document, in order, over its system. One worker's search makes its weights by others like the given object.
fn lines_over<
    H: Threads + Wait + Sync,
    S: DocumentWeights<W: Send + Sync, Ret: Send + Sync> + Send + Sync,
    M: Weigher<S>,
    G: Gate,
>(
    crew: &Crew<'_, H, G>,
    alloc: Global,
    system: &System<S>,
    weigher: M,
    document: &Document<Names>,
    options: Options,
) -> Result<Text, OutOfMemory>
    requires weigher { M.pushdown weigher ≡ system.now }
    requires document { IsDocument document.now }
    requires system { system.now ≡ system_of S.kind system.now.semiring document.now }
    requires workers { IsWorkerCount options.workers }
    ensures { IfOk result (IsReported S.kind options system.now.semiring document.now) }
{
    let count = document.queries.len();
    let mut kept = nothing_kept(alloc, count)?;
    let mut values = Values::new(system, options.by, options.workers, weigher);
    let mut text = Vec::new(alloc);
    for place in 0..count {
        let lines = lines_at(
            crew,
            alloc,
            system,
            document,
            options,
            place,
            &mut kept,
            &mut values,
        )?;
        text.extend_from_slice(lines.as_bytes())?;
    }
    Ok(Text::from_vec(text))
}

// The report on a document over a semiring that takes its rules.
fn report_over<
    H: Threads + Wait + Sync,
    S: DocumentWeights<W: Send + Sync, Ret: Send + Sync> + Send + Sync,
    G: Gate,
>(
    crew: &Crew<'_, H, G>,
    alloc: Global,
    semiring: S,
    document: &Document<Names>,
    options: Options,
) -> Result<Text, OutOfMemory>
    requires document { IsDocument document.now }
    requires taken { AreTaken S.kind semiring document.now }
    requires workers { IsWorkerCount options.workers }
    ensures { IfOk result (IsReported S.kind options semiring document.now) }
{
    let system = system_from(alloc, semiring, document)?;
    let weigher = PlainWeigher::new(alloc, &system);
    lines_over(crew, alloc, &system, weigher, document, options)
}

/// The costs up to a cap that a document names.
pub(crate) fn costs(cap: u64) -> Cost
    requires some { 0 < cap }
    requires few { cap ≤ most_cost }
    ensures { result ≡ cap }
{
    match Cost::new(cap) {
        Ok(cost) => cost,
        Err(_) => unreachable!(),
    }
}

// The report on a document over facts, by weights of the least width that has room for them.
fn facts_report<H: Threads + Wait + Sync, G: Gate>(
    crew: &Crew<'_, H, G>,
    alloc: Global,
    document: &Document<Names>,
    options: Options,
) -> Result<Text, OutOfMemory>
    requires document { IsDocument document.now }
    requires workers { IsWorkerCount options.workers }
    ensures { let n = width_for (length document.now.items) in
        IfOk result (IsReported (genkill_kind n) options (record {}) document.now) }
{
    with_width!(document.items.len(), genkill => report_over(crew, alloc, genkill, document, options))
}

// The report on a document over variables.
fn copies_report<H: Threads + Wait + Sync, G: Gate>(
    crew: &Crew<'_, H, G>,
    alloc: Global,
    document: &Document<Names>,
    options: Options,
) -> Result<Text, OutOfMemory>
    requires document { IsDocument document.now }
    requires workers { IsWorkerCount options.workers }
    requires few { length document.now.items ≤ most_copied }
    ensures { let variables = length document.now.items in
        IfOk result (IsReported copy_kind options variables document.now) }
{
    let variables = document.items.len() as u32;
    report_over(crew, alloc, CopyConst::new(variables), document, options)
}

// The report on a document over relations between variables.
fn relations_report<H: Threads + Wait + Sync, G: Gate>(
    crew: &Crew<'_, H, G>,
    alloc: Global,
    document: &Document<Names>,
    options: Options,
) -> Result<Text, OutOfMemory>
    requires document { IsDocument document.now }
    requires workers { IsWorkerCount options.workers }
    requires weights { document.now.weights ≡ Relation }
    requires few { length document.now.items ≤ most_related }
    ensures { let variables = length document.now.items in
        IfOk result (IsReported relation_kind options variables document.now) }
{
    let variables = document.items.len() as u32;
    let relations = Relations::keeping_results(alloc, variables);
    let system = system_from(alloc, relations, document)?;
    let weigher = NodeWeigher::new(alloc, &system)?;
    lines_over(crew, alloc, &system, weigher, document, options)
}

/// The report on a document, over the semiring that its weights name.
pub(crate) fn report<H: Threads + Wait + Sync, G: Gate>(
    crew: &Crew<'_, H, G>,
    alloc: Global,
    document: &Document<Names>,
    options: Options,
) -> Result<Text, OutOfMemory>
    requires document { IsDocument document.now }
    requires workers { IsWorkerCount options.workers }
    ensures { IfOk result (IsReport options document.now) }
{
    match document.weights {
        WeightsLine::Reach => report_over(crew, alloc, Reach, document, options),
        WeightsLine::Cost { cap } => report_over(crew, alloc, costs(cap), document, options),
        WeightsLine::GenKill => facts_report(crew, alloc, document, options),
        WeightsLine::Copy => copies_report(crew, alloc, document, options),
        WeightsLine::Relation => relations_report(crew, alloc, document, options),
    }
}
