ghost use Rattle.std.specs.Prelude.{◌≡◌};
ghost use Rattle.config_patterns.specs.Validity.{is_set};

use crate::SymbolSet;

/// Whether no symbol stands twice. Its time is quadratic.
#[tactic(auto, using(crate::proofs::SetLemmas::symbol_more))]
pub fn is_set(symbols: &[u32]) -> bool
    ensures { result ≡ is_set symbols.now }
{
    for (i, symbol) in symbols.iter().enumerate() {
        if symbols[i + 1..].contains(symbol) {
            return false;
        }
    }
    true
}

/// An item of a pattern. It takes one symbol of its set, or with a star any number of them.
#[derive(Drop)]
pub struct Item {
    pub set: SymbolSet,
    pub star: bool,
}
