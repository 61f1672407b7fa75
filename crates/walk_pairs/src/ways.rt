ghost use Rattle.std.specs.Prelude.{◌≡◌, ◌↔◌, ◌≤◌, IsTrue, length};
ghost use Rattle.walk_pairs.specs.Ways.{AreWays, IsLastWay, StaysAt};

use config_patterns::Pattern;

/// Where the edges of a pattern lead from a state: to the states from `first` on up to before `end`, each over the symbols of
/// its item.
#[derive(Clone, Copy, Debug, PartialEq, Eq)]
pub struct Ways {
    pub first: u32,
    pub end: u32,
}

/// Where the edges from a state lead. A starred item leads to itself; above a state come the items up to the first without
/// star. From a number that is no state no edge leads.
pub fn ways_from(pattern: &Pattern, state: u32) -> Ways
    ensures { AreWays pattern.now.items state result }
{
    if state > pattern.items() {
        return Ways { first: 1, end: 1 };
    }
    let first = if stays_at(pattern, state) {
        state
    } else {
        state + 1
    };
    let last = last_way(pattern, state);
    Ways {
        first,
        end: last + 1,
    }
}

/// Whether a state is that of a starred item.
pub(crate) fn stays_at(pattern: &Pattern, state: u32) -> bool
    requires { state ≤ length pattern.now.items }
    ensures { IsTrue result ↔ StaysAt pattern.now.items state }
{
    state > 0 && pattern.item(state - 1).star
}

// The highest state that an edge from a state leads to, and the state itself where none leads above it.
fn last_way(pattern: &Pattern, state: u32) -> u32
    requires { state ≤ length pattern.now.items }
    ensures { IsLastWay pattern.now.items state result }
{
    let items = pattern.items();
    for k in state..items {
        if !pattern.item(k).star {
            return k + 1;
        }
    }
    items
}
