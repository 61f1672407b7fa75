ghost use Rattle.std.specs.Prelude.{◌≡◌, ◌≤◌, ◌∷◌, [], length, IsOk, IfOk};

use std::alloc::Global;
use std::marker::Model;
use wpds_base::OutOfMemory;

/// Numbers of symbols, in the order in which they are written, which contracts see as a list.
///
/// Up to two take no memory of their own: most items have one symbol, and no rule more than two on
/// its right side.
#[derive(Debug, Drop)]
pub struct Symbols {
    held: Held,
}

// How symbols are held. More than two are behind a pointer, so that each of the many items of a
// pattern takes little room.
#[derive(Debug, Drop)]
enum Held {
    Zero,
    One([u32; 1]),
    Two([u32; 2]),
    More(Box<Vec<u32>>),
}

impl Model for Symbols {
    ghost use Rattle.std.specs.Prelude.{List, ℕ};

    ghost Value = { List ℕ };

    ghost use Rattle.document_forms.specs.HeldSymbols.{held_symbols};

    ghost view = { λ s. held_symbols s.held };
}

impl Symbols {
    /// This symbol alone. It takes no memory.
    pub fn one(symbol: u32) -> Symbols
        ensures { result ≡ symbol ∷ [] }
    {
        Symbols {
            held: Held::One([symbol]),
        }
    }

    /// These symbols. Where they are more than two, it answers out of memory where it gets none, and they are gone then.
    pub fn from_vec(alloc: Global, symbols: Vec<u32>) -> Result<Symbols, OutOfMemory>
        ensures symbols { IfOk result (λ s. s ≡ symbols.items) }
        ensures short { length symbols.items ≤ 2 → IsOk result }
    {
        let held = match symbols.len() {
            0 => Held::Zero,
            1 => Held::One([symbols[0]]),
            2 => Held::Two([symbols[0], symbols[1]]),
            _ => Held::More(Box::new(alloc, symbols)?),
        };
        Ok(Symbols { held })
    }

    /// The symbols.
    pub fn as_slice(&self) -> &[u32]
        ensures { result.now ≡ self.now }
    {
        match &self.held {
            Held::Zero => &[],
            Held::One(symbol) => symbol.as_slice(),
            Held::Two(symbols) => symbols.as_slice(),
            Held::More(symbols) => symbols.as_slice(),
        }
    }

    /// How many symbols there are.
    pub fn len(&self) -> usize
        ensures { result ≡ length self.now }
    {
        self.as_slice().len()
    }
}
