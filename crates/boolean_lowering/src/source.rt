//! What the weight of a rule is made from.

use crate::ways::Condition;
use boolean_programs::Choice;

/// What a weight is made from. Lines with equal sources have equal weights.
#[derive(Clone, Copy)]
pub(crate) enum Source<'p> {
    /// A condition, under which all stays.
    Assumption(Condition<'p>),
    /// Names that are set to values.
    Assignment {
        targets: &'p [u32],
        values: &'p [Choice],
    },
    /// Variables one after the other, which get values, and as many behind them that are free.
    Filling {
        first: u32,
        values: &'p [Choice],
        free: u32,
    },
}
