ghost use Rattle.std.specs.Prelude.{◌≡◌, ◌≤◌};
ghost use Rattle.wpds_base.specs.Limits.{most_facts};
ghost use Rattle.genkill_weights.specs.Widths.{width_for, IsLeastWidth};

use crate::{GenKill, with_width};

/// Takes a number of facts, at most 1,024, to the semiring of the least width that has room for them:
/// `with_width!(facts, genkill => report(genkill))` is `report(GenKill::<N>)` for `N` of 1, 2, 4, 8 or 16.
///
/// The expression stands once for each width, and one of them is computed.
#[macro_export]
macro_rules! with_width {
    ($facts:expr, $genkill:ident => $answer:expr) => {
        match $facts {
            0..=64 => {
                let $genkill = $crate::GenKill::<1>;
                $answer
            }
            65..=128 => {
                let $genkill = $crate::GenKill::<2>;
                $answer
            }
            129..=256 => {
                let $genkill = $crate::GenKill::<4>;
                $answer
            }
            257..=512 => {
                let $genkill = $crate::GenKill::<8>;
                $answer
            }
            _ => {
                let $genkill = $crate::GenKill::<16>;
                $answer
            }
        }
    };
}

// The width of a semiring.
fn words<const N: usize>(_genkill: GenKill<N>) -> usize
    ensures { result ≡ N }
{
    N
}

/// The width that `with_width!` takes for so many facts, in words of 64 facts.
pub fn words_for(facts: u32) -> usize
    ensures value { result ≡ width_for facts }
    ensures least { facts ≤ most_facts → IsLeastWidth facts result }
{
    with_width!(facts, genkill => words(genkill))
}
