ghost use Rattle.std.specs.Prelude.{◌≡◌, ◌↔◌, ◌≤◌, ◌<◌, ℕ, true, IsTrue, length};
ghost use Rattle.config_patterns.specs.Membership.{has_symbol};
ghost use Rattle.config_patterns.specs.Validity.{IsItem};
ghost use Rattle.walk_pairs.specs.Ways.{TakesAt};

use config_patterns::{Item, Pattern, SymbolSet};

/// Whether an item takes each of so many symbols. It takes no time.
pub fn takes_all(item: &Item, symbols: u32) -> bool
    requires { IsItem symbols item.now }
    ensures { result ≡ true → (g : ℕ) → g < symbols → IsTrue (has_symbol g item.now.set) }
{
    item.set.len() == symbols as usize
}

// Whether one of the symbols of a set is in another.
fn are_shared(set: &SymbolSet, other: &SymbolSet) -> bool
    ensures { IsTrue result ↔ ((g : ℕ) × IsTrue (has_symbol g set.now)
        × IsTrue (has_symbol g other.now)) }
{
    for k in 0..set.len() {
        if other.has(set.at(k)) {
            return true;
        }
    }
    false
}

/// Whether an edge to a state of one pattern and an edge to a state of another can read the same symbol. The symbols of the
/// smaller of the two sets are looked for in the other.
pub(crate) fn is_shared(one: &Pattern, i: u32, other: &Pattern, j: u32) -> bool
    requires above { 1 ≤ i }
    requires within { i ≤ length one.now.items }
    requires above_other { 1 ≤ j }
    requires within_other { j ≤ length other.now.items }
    ensures { IsTrue result ↔ ((g : ℕ) × TakesAt one.now.items i g × TakesAt other.now.items j g) }
{
    let a = &one.item(i - 1).set;
    let b = &other.item(j - 1).set;
    if a.len() <= b.len() {
        are_shared(a, b)
    } else {
        are_shared(b, a)
    }
}
