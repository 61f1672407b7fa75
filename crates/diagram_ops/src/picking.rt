ghost use Rattle.std.specs.Prelude.{◌≡◌, ℕ, Bool, true, false, IfOk, MatchOption, length};
ghost use Rattle.diagram_store.specs.Diagrams.{IsOver, meaning};
ghost use Rattle.diagram_store.specs.Meaning.{bits_of};

use diagram_store::{Diagram, node, value_by_branch};
use std::alloc::Global;
use wpds_base::{OutOfMemory, Sequence};

/// A list of bits, one for each variable.
pub type Bits = Sequence<bool>;

/// So many bits on which the diagram is true, or `None` for the false diagram.
///
/// Which of several lists of bits it gives is not said.
pub fn pick(alloc: Global, a: &Diagram, count: u32) -> Result<Option<Bits>, OutOfMemory>
    requires { IsOver count a.now }
    ensures { IfOk result (λ o. MatchOption o ((bits : ℕ → Bool) → meaning a.now bits ≡ false)
        (λ list. (length list ≡ count) × (meaning a.now (bits_of list) ≡ true))) }
{
    // the law by which the walk keeps the value
    value_by_branch();
    if a.root == 0 {
        return Ok(None);
    }
    let mut bits = vec![in alloc; false; count as usize]?;
    let mut at = a.root;
    while let Some(found) = node(a.nodes(), at) {
        let high = found.low == 0;
        bits[found.var as usize] = high;
        at = if high { found.high } else { found.low };
    }
    Ok(Some(Bits::from_vec(bits)))
}
