ghost use Rattle.std.specs.Prelude.{◌≡◌, ◌+◌, ◌<◌, ◌≤◌, ℕ, suc, length, IfNone, IfSome, IsTrue, drop, false, true};
ghost use Rattle.std.specs.List.{list_any};
ghost use Rattle.wpds_base.specs.Lists.{IsIn};
ghost use Rattle.config_patterns.specs.Membership.{has_symbol};
ghost use Rattle.config_patterns.specs.Edges.{edges_of, leads_to, stays_on};

use config_patterns::Pattern;

// The next state above one that has an edge from it over a symbol: the items between are skipped, each of which has a star.
fn above(target: &Pattern, from: u32, symbol: u32) -> Option<u32>
    requires { from ≤ length target.now.items }
    ensures none { IfNone result ((k : ℕ) →
        IsTrue (leads_to (drop from target.now.items) k symbol) → ⊥) }
    ensures some { IfSome result (λ to. (k : ℕ) × (to ≡ suc (from + k))
        × IsTrue (leads_to (drop from target.now.items) k symbol)
        × ((j : ℕ) → j < k → IsTrue (leads_to (drop from target.now.items) j symbol) → ⊥)) }
{
    for i in from..target.items() {
        let item = target.item(i);
        if item.set.has(symbol) {
            return Some(i + 1);
        }
        if !item.star {
            return None;
        }
    }
    None
}

// Whether an edge leads from a state over a symbol back to it: that of an item with a star.
fn stays(target: &Pattern, from: u32, symbol: u32) -> bool
    ensures yes { result ≡ true → (k : ℕ) × (from ≡ suc k)
        × IsTrue (stays_on target.now.items k symbol) }
    ensures no { result ≡ false → (k : ℕ) → from ≡ suc k →
        IsTrue (stays_on target.now.items k symbol) → ⊥ }
{
    if from == 0 {
        return false;
    }
    if from > target.items() {
        return false;
    }
    let item = target.item(from - 1);
    if !item.star {
        return false;
    }
    item.set.has(symbol)
}

/// The first state to which an edge of a pattern leads from a state over a symbol.
pub(crate) fn first_edge(target: &Pattern, from: u32, symbol: u32) -> Option<u32>
    ensures none { IfNone result ((to : ℕ) →
        IsIn (record { from = from; symbol = symbol; to = to }) (edges_of target.now.items) → ⊥) }
    ensures edge { IfSome result (λ n.
        IsIn (record { from = from; symbol = symbol; to = n }) (edges_of target.now.items)) }
    ensures next { IfSome result (λ n. (to : ℕ) → to < n →
        IsIn (record { from = from; symbol = symbol; to = to }) (edges_of target.now.items) → ⊥) }
    ensures within { IfSome result (λ n. n ≤ length target.now.items) }
{
    if from > target.items() {
        return None;
    }
    if stays(target, from, symbol) {
        return Some(from);
    }
    above(target, from, symbol)
}

/// The next one behind a state to which such an edge leads.
pub(crate) fn next_edge(target: &Pattern, from: u32, symbol: u32, to: u32) -> Option<u32>
    requires within { to ≤ length target.now.items }
    requires edge { IsIn (record { from = from; symbol = symbol; to = to })
        (edges_of target.now.items) }
    ensures none { IfNone result ((n : ℕ) → to < n →
        IsIn (record { from = from; symbol = symbol; to = n }) (edges_of target.now.items) → ⊥) }
    ensures edge { IfSome result (λ n.
        IsIn (record { from = from; symbol = symbol; to = n }) (edges_of target.now.items)) }
    ensures next { IfSome result (λ n. (m : ℕ) → to < m → m < n →
        IsIn (record { from = from; symbol = symbol; to = m }) (edges_of target.now.items) → ⊥) }
    ensures later { IfSome result (λ n. to < n) }
    ensures within { IfSome result (λ n. n ≤ length target.now.items) }
{
    if to != from {
        let item = target.item(to - 1);
        if !item.star {
            return None;
        }
    }
    above(target, to, symbol)
}
