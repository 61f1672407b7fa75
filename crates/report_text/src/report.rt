ghost use Rattle.std.specs.Prelude.{◌≡◌, ◌++◌, IfOk, OnOk};
ghost use Rattle.report_text.specs.Reports as reports;

use crate::listing::add_listing;
use crate::{Options, query_line, traces_text};
use std::alloc::Global;
use witness_graph::Listing;
use wpds_base::{MOST_TRACED, OutOfMemory, Text};

// Adds the lines of a listing, unless they are left out or there is none.
fn add_listed(
    text: &mut Vec<u8>,
    listing: &Option<Listing>,
    options: Options,
) -> Result<(), OutOfMemory>
    ensures { OnOk result (text.new.items
        ≡ text.old.items ++ reports.listed options listing.now) }
{
    match listing {
        Some(listing) if !options.brief => add_listing(text, listing),
        _ => Ok(()),
    }
}

/// The lines of a listing, unless they are left out or there is none.
pub fn listed(
    alloc: Global,
    listing: &Option<Listing>,
    options: Options,
) -> Result<Text, OutOfMemory>
    ensures { IfOk result (λ t. t ≡ reports.listed options listing.now) }
{
    let mut text = Vec::new(alloc);
    add_listed(&mut text, listing, options)?;
    Ok(Text::from_vec(text))
}

/// The lines of the runs of a listing where they are asked for: none where there is no listing.
pub fn traced(
    alloc: Global,
    listing: &Option<Listing>,
    options: Options,
) -> Result<Text, OutOfMemory>
    ensures { IfOk result (λ t. t ≡ reports.traced options listing.now) }
{
    match listing {
        Some(listing) if options.traces => {
            let text = traces_text(alloc, listing, MOST_TRACED)?;
            Ok(Text::from_vec(text.into_bytes()))
        }
        _ => Ok(Text::from_vec(Vec::new(alloc))),
    }
}

/// The lines of an answer to the query with a number, over a system: its value, its listing and its runs.
pub fn query_text(
    alloc: Global,
    number: u64,
    value: &Text,
    listing: &Option<Listing>,
    options: Options,
) -> Result<Text, OutOfMemory>
    ensures { IfOk result (λ t. t ≡ reports.query_text number options value.now listing.now) }
{
    let mut text = query_line(alloc, number, value)?.into_vec();
    add_listed(&mut text, listing, options)?;
    text.extend_from_slice(traced(alloc, listing, options)?.as_bytes())?;
    Ok(Text::from_vec(text))
}
