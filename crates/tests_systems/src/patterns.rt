ghost use Rattle.std.specs.Prelude.{IfOk};
ghost use Rattle.pattern_openings.specs.PatternOpenings.{IsOver};

use config_patterns::{Pattern, PatternFault, is_set};
use pattern_openings::is_over;
use pushdown_rules::System;
use semiring_laws::Semiring;
use std::alloc::Global;
use std::test::Fail;

/// The sets and stars of a pattern's items.
pub type Items<'a> = &'a [(&'a [u32], bool)];

/// The first symbol.
pub const A: (&[u32], bool) = (&[0], false);

/// The second symbol.
pub const B: (&[u32], bool) = (&[1], false);

/// The third symbol.
pub const C: (&[u32], bool) = (&[2], false);

/// The fourth symbol.
pub const D: (&[u32], bool) = (&[3], false);

/// Any number of the first symbol.
pub const SOME_A: (&[u32], bool) = (&[0], true);

// A pattern of those of the items that are sets.
fn pattern(
    alloc: Global,
    control: u32,
    symbols: u32,
    items: Items<'_>,
) -> Result<Pattern, PatternFault> {
    let mut pattern = Pattern::new(alloc, control, symbols);
    for (set, star) in items {
        if is_set(set) {
            pattern.add_item(alloc, set, *star)?;
        }
    }
    Ok(pattern)
}

/// A pattern of these items over a system, if that has the control.
pub fn pattern_over<S: Semiring>(
    alloc: Global,
    system: &System<S>,
    control: u32,
    items: Items<'_>,
) -> Result<Pattern, Fail>
    ensures { IfOk result (IsOver system.now.controls system.now.symbols) }
{
    let pattern = pattern(alloc, control, system.symbols(), items)?;
    if !is_over(&pattern, system.controls(), system.symbols()) {
        return Err(Fail::new("the system lacks the control"));
    }
    Ok(pattern)
}
