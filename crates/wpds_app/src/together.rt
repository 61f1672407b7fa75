//! Queries that begin at one pattern are answered together where values alone are asked for.

ghost use Rattle.std.specs.Prelude.{◌≡◌, ◌<◌, [], ◌∷◌, ◌++◌, IfOk, OnOk, length};
ghost use Rattle.pattern_openings.specs.PatternOpenings.{IsOver};
ghost use Rattle.document_forms.specs.Lawful.{IsDocument, IsQueryOf};
ghost use Rattle.document_systems.specs.Systems.{system_of, side_of};
ghost use Rattle.report_text.specs.Reports.{IsBrief};
ghost use Rattle.wpds_app.specs.private.Groups.{IsGroup, values_over};
ghost use Rattle.wpds_app.specs.private.Kept.{AreKept, TellsAt};

use crate::alike::same_pattern;
use crate::crew::Crew;
use crate::report::{keep, value_line};
use config_patterns::Pattern;
use document_forms::{Document, QueryLine};
use document_systems::{DocumentWeights, Names, pattern_from};
use pushdown_rules::System;
use query_answers::Values;
use report_text::Options;
use semiring_laws::Semiring;
use std::alloc::Global;
use std::sync::Wait;
use std::thread::Threads;
use weight_tables::Weigher;
use wpds_base::OutOfMemory;
use wpds_port::{Gate, Text};

/// Queries that begin at one pattern, by their places, with the patterns where they end.
#[derive(Drop)]
struct Group {
    places: Vec<usize>,
    ends: Vec<Pattern>,
}

impl Group {
    // The query at a place alone, which ends at this pattern.
    fn alone(alloc: Global, place: usize, end: Pattern) -> Result<Group, OutOfMemory>
        ensures places { IfOk result (λ g. g.places.items ≡ place ∷ []) }
        ensures ends { IfOk result (λ g. g.ends.items ≡ end ∷ []) }
    {
        let mut places = Vec::new(alloc);
        let mut ends = Vec::new(alloc);
        places.push(place)?;
        ends.push(end)?;
        Ok(Group { places, ends })
    }

    // Adds the query at a place, which ends at this pattern.
    fn add(&mut self, place: usize, end: Pattern) -> Result<(), OutOfMemory>
        ensures places { OnOk result (self.new.places.items ≡ self.old.places.items ++ place ∷ []) }
        ensures ends { OnOk result (self.new.ends.items ≡ self.old.ends.items ++ end ∷ []) }
    {
        self.places.push(place)?;
        self.ends.push(end)?;
        Ok(())
    }
}

// The pattern where a query begins.
fn begin_of<S: DocumentWeights>(
    alloc: Global,
    system: &System<S>,
    document: &Document<Names>,
    query: &QueryLine,
) -> Result<Pattern, OutOfMemory>
    requires system { system.now ≡ system_of S.kind system.now.semiring document.now }
    requires query { IsQueryOf document.now query.now }
    ensures value { IfOk result (λ p. p ≡ side_of document.now query.now.from) }
    ensures over { IfOk result (IsOver system.now.controls system.now.symbols) }
{
    pattern_from(alloc, system, &query.from)
}

// The pattern where it ends.
fn end_of<S: DocumentWeights>(
    alloc: Global,
    system: &System<S>,
    document: &Document<Names>,
    query: &QueryLine,
) -> Result<Pattern, OutOfMemory>
    requires system { system.now ≡ system_of S.kind system.now.semiring document.now }
    requires query { IsQueryOf document.now query.now }
    ensures value { IfOk result (λ p. p ≡ side_of document.now query.now.to) }
    ensures over { IfOk result (IsOver system.now.controls system.now.symbols) }
{
    pattern_from(alloc, system, &query.to)
}

// The query at a place, and those of the later ones that begin at the same pattern.
fn gather<S: DocumentWeights>(
    alloc: Global,
    system: &System<S>,
    document: &Document<Names>,
    place: usize,
) -> Result<Group, OutOfMemory>
    requires document { IsDocument document.now }
    requires system { system.now ≡ system_of S.kind system.now.semiring document.now }
    requires place { place < length document.now.queries }
    ensures { IfOk result (IsGroup document.now place) }
{
    let queries = document.queries.as_slice();
    let first = &queries[place];
    let mut group = Group::alone(alloc, place, end_of(alloc, system, document, first)?)?;
    for k in place + 1..queries.len() {
        let query = &queries[k];
        if !same_pattern(&query.from, &first.from) {
            continue;
        }
        let end = end_of(alloc, system, document, query)?;
        group.add(k, end)?;
    }
    Ok(group)
}

// A semiring computes what documents mean by it.
fn kind_computes<S: DocumentWeights>()
    ensures { S.kind.operations ≡ S.operations }
{}

/// The line of the query at a place, where values alone are written. Those of later queries that begin at the same pattern are
/// kept: the values of all of them are found together. All values of the document are asked of the same [`Values`].
pub(crate) fn lines_by_values<
    H: Threads + Wait + Sync,
    S: DocumentWeights<W: Send + Sync, Ret: Send + Sync> + Send + Sync,
    M: Weigher<S>,
    G: Gate,
>(
    crew: &Crew<'_, H, G>,
    alloc: Global,
    system: &System<S>,
    document: &Document<Names>,
    options: Options,
    place: usize,
    kept: &mut [Option<Text>],
    values: &mut Values<'_, S, M>,
) -> Result<Text, OutOfMemory>
    requires document { IsDocument document.now }
    requires system { system.now ≡ system_of S.kind system.now.semiring document.now }
    requires place { place < length document.now.queries }
    requires room { length kept.old ≡ length document.now.queries }
    requires kept { AreKept S.kind options system.now.semiring document.now kept.old }
    requires values { values.old ≡ values_over system.now options }
    requires brief { IsBrief options }
    ensures lines { let semiring = system.now.semiring in
        IfOk result (TellsAt S.kind options semiring document.now place) }
    ensures kept { let semiring = system.now.semiring in
        OnOk result (AreKept S.kind options semiring document.now kept.new) }
    ensures room { length kept.new ≡ length kept.old }
    ensures values { values.new ≡ values.old }
{
    kind_computes::<S>();
    let group = gather(alloc, system, document, place)?;
    let query = &document.queries.as_slice()[place];
    let from = begin_of(alloc, system, document, query)?;
    let ends = group.ends.as_slice();
    let found = values.values_from(crew.rt, alloc, &from, ends, crew.gate)?;
    let (semiring, names) = (system.semiring(), &document.items);
    for j in 1..found.len() {
        let later = group.places[j];
        prove!(later < kept.len());
        let line = value_line(alloc, semiring, names, later as u64 + 1, &found[j])?;
        keep(kept, later, line);
    }
    value_line(alloc, semiring, names, place as u64 + 1, &found[0])
}
