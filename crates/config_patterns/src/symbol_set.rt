ghost use Rattle.std.specs.Prelude.{◌≡◌, ◌↔◌, ◌<◌, IfOk, IsTrue, Some, length, slice_get};
ghost use Rattle.std.specs.List.{range_with_len};
ghost use Rattle.config_patterns.specs.Membership.{has_symbol};

use std::alloc::Global;
use std::marker::Model;
use wpds_base::OutOfMemory;

#[derive(Debug, Drop)]
enum Symbols {
    // all below a count
    All(u32),
    Listed(Vec<u32>),
}

/// The symbols that an item may take, in order: all below a count, in no memory, or those that were listed.
#[derive(Debug, Drop)]
pub struct SymbolSet {
    symbols: Symbols,
}

impl Model for SymbolSet {
    ghost use Rattle.std.specs.Prelude.{List, ℕ};
    ghost use Rattle.config_patterns.specs.private.Symbols.{symbols_of};

    ghost Value = { List ℕ };

    ghost view = { λ s. symbols_of s.symbols };
}

impl SymbolSet {
    /// All symbols below a count. It takes no memory.
    pub fn all(count: u32) -> SymbolSet
        ensures { result ≡ range_with_len 0 count }
    {
        SymbolSet {
            symbols: Symbols::All(count),
        }
    }

    /// These symbols, in their order. It takes no memory.
    pub fn listed(symbols: Vec<u32>) -> SymbolSet
        ensures { result ≡ symbols.items }
    {
        SymbolSet {
            symbols: Symbols::Listed(symbols),
        }
    }

    /// How many symbols it has.
    pub fn len(&self) -> usize
        ensures { result ≡ length self.now }
    {
        match &self.symbols {
            Symbols::All(count) => *count as usize,
            Symbols::Listed(symbols) => symbols.len(),
        }
    }

    /// One of its symbols, counted from 0.
    pub fn at(&self, k: usize) -> u32
        requires { k < length self.now }
        ensures { slice_get self.now k ≡ Some result }
    {
        match &self.symbols {
            Symbols::All(count) => {
                prove!(k < *count as usize);
                k as u32
            }
            Symbols::Listed(symbols) => symbols[k],
        }
    }

    /// Whether it has a symbol: one comparison where it has all below a count, else a walk over those listed.
    pub fn has(&self, symbol: u32) -> bool
        ensures { result ≡ has_symbol symbol self.now }
    {
        match &self.symbols {
            Symbols::All(count) => symbol < *count,
            Symbols::Listed(symbols) => symbols.contains(&symbol),
        }
    }

    /// Whether another has the same symbols in the same order: one comparison where both have all below a count.
    pub fn same(&self, other: &SymbolSet) -> bool
        ensures { IsTrue result ↔ (self.now ≡ other.now) }
    {
        match (&self.symbols, &other.symbols) {
            (Symbols::All(one), Symbols::All(other)) => one == other,
            _ => self.len() == other.len() && agrees(self, other),
        }
    }
}

// Whether two sets of as many symbols have the same at each place.
fn agrees(one: &SymbolSet, other: &SymbolSet) -> bool
    requires { length one.now ≡ length other.now }
    ensures { IsTrue result ↔ (one.now ≡ other.now) }
{
    for k in 0..one.len() {
        if one.at(k) != other.at(k) {
            return false;
        }
    }
    true
}

/// A copy of these symbols, as a set.
pub(crate) fn copy_set(alloc: Global, symbols: &[u32]) -> Result<SymbolSet, OutOfMemory>
    ensures { IfOk result (λ set. set ≡ symbols.now) }
{
    Ok(SymbolSet::listed(symbols.to_vec(alloc)?))
}
