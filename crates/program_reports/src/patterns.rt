//! Patterns of stacks over the symbols of a lowering.

ghost use Rattle.std.specs.Prelude.{◌≡◌, ◌<◌, ◌≤◌, IfOk};
ghost use Rattle.wpds_base.specs.Limits.{most_symbols};
ghost use Rattle.program_reports.specs.private.Patterns.{alone, on_top};

use config_patterns::{Pattern, unrefused};
use std::alloc::Global;
use wpds_base::OutOfMemory;

/// The stack of one symbol alone, over so many symbols.
pub(crate) fn alone(alloc: Global, symbols: u32, symbol: u32) -> Result<Pattern, OutOfMemory>
    requires { symbol < symbols }
    ensures { IfOk result (λ p. p ≡ alone symbols symbol) }
{
    let mut pattern = Pattern::new(alloc, 0, symbols);
    unrefused(pattern.add_item(alloc, &[symbol], false))?;
    Ok(pattern)
}

/// The stacks with one symbol on any others, over so many symbols.
pub(crate) fn on_top(alloc: Global, symbols: u32, symbol: u32) -> Result<Pattern, OutOfMemory>
    requires within { symbol < symbols }
    requires few { symbols ≤ most_symbols }
    ensures { IfOk result (λ p. p ≡ on_top symbols symbol) }
{
    let mut pattern = alone(alloc, symbols, symbol)?;
    unrefused(pattern.add_all(true))?;
    Ok(pattern)
}
