ghost use Rattle.std.specs.Prelude.{◌≡◌, ◌≤◌, ◌<◌, true, false, [], length, slice_set};
ghost use Rattle.wpds_base.specs.Limits.{most_items};
ghost use Rattle.config_patterns.specs.Membership.{items_match};
ghost use Rattle.config_patterns.specs.private.Places.{place_matches, advanced};

use crate::Item;
use pushdown_rules::Config;
use wpds_base::MOST_ITEMS;

// Puts the walk before the first item.
fn begin(places: &mut [bool])
    requires { 0 < length places.old }
    ensures { places.new ≡ slice_set places.old 0 true }
{
    places[0] = true;
}

// Takes a symbol: from the places where the walk may stand to those where it may stand after it.
fn advance(items: &[Item], symbol: u32, places: &mut [bool])
    requires { length items.now < length places.old }
    ensures { places.new ≡ advanced symbol false false items.now places.old }
{
    let mut skipped = false;
    let mut entered = false;
    for (i, item) in items.iter().enumerate() {
        let here = places[i] || skipped;
        let takes = here && item.set.has(symbol);
        places[i] = entered || takes && item.star;
        skipped = here && item.star;
        entered = takes && !item.star;
    }
    places[items.len()] = entered;
}

// Whether the walk may skip from one of the places to the end.
fn may_end(items: &[Item], places: &[bool]) -> bool
    requires { length items.now < length places.now }
    ensures { result ≡ place_matches items.now places.now [] }
{
    let mut reached = false;
    for (i, item) in items.iter().enumerate() {
        reached = (reached || places[i]) && item.star;
    }
    reached || places[items.len()]
}

/// Whether the items match the stack of a configuration. It takes no memory; for each symbol it goes over the items
/// once.
pub(crate) fn match_stack(items: &[Item], config: &Config) -> bool
    requires { length items.now ≤ most_items }
    ensures { result ≡ items_match items.now config.now.stack }
{
    let mut places = [false; MOST_ITEMS + 1];
    begin(&mut places);
    for k in 0..config.depth() {
        advance(items, config.at(k), &mut places);
    }
    may_end(items, &places)
}
