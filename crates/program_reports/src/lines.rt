//! The lines of a query.

ghost use Rattle.std.specs.Prelude.{◌≡◌, ◌++◌, IfOk, is_some};
ghost use Rattle.report_text.specs.Listings as listings;
ghost use Rattle.report_text.specs.Reports as reports;
ghost use Rattle.program_reports.specs.private.Verdicts.{verdict};

use report_text::{Options, listed, query_line};
use std::alloc::Global;
use witness_graph::Listing;
use wpds_base::{OutOfMemory, Text};

// What is told of a point that is reached or not.
fn verdict(alloc: Global, reached: bool) -> Result<Text, OutOfMemory>
    ensures { IfOk result (λ t. t ≡ verdict reached) }
{
    if reached {
        Text::of(alloc, b"reachable")
    } else {
        Text::of(alloc, b"unreachable")
    }
}

/// The line of the query with a number, for a point that is reached or not.
pub(crate) fn point_line(alloc: Global, number: u64, reached: bool) -> Result<Text, OutOfMemory>
    ensures { IfOk result (λ t. t ≡ listings.query_line number (verdict reached)) }
{
    query_line(alloc, number, &verdict(alloc, reached)?)
}

/// The lines of the query with a number, by the listing of its answer: there is one exactly where
/// the point is reached. Last come the lines of its trace.
pub(crate) fn point_lines(
    alloc: Global,
    number: u64,
    listing: &Option<Listing>,
    trace: &Text,
    options: Options,
) -> Result<Text, OutOfMemory>
    ensures { let line = listings.query_line number (verdict (is_some listing.now)) in
        IfOk result (λ t. t ≡ (line ++ reports.listed options listing.now) ++ trace.now) }
{
    let mut text = point_line(alloc, number, listing.is_some())?.into_vec();
    text.extend_from_slice(listed(alloc, listing, options)?.as_bytes())?;
    text.extend_from_slice(trace.as_bytes())?;
    Ok(Text::from_vec(text))
}
