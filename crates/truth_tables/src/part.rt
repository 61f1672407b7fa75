ghost use Rattle.std.specs.Prelude.{◌≡◌, slice_index_or};
ghost use Rattle.truth_tables.specs.Postfix.{leaf, part_renamed};

/// A part of an expression that stands behind its operands. It takes 8 bytes.
#[derive(Clone, Copy, Debug, PartialEq, Eq)]
pub enum Part {
    Const(bool),
    Var(u32),
    Not,
    /// An operator of two places by its table, which is below 16.
    Two(u8),
    /// An operator of three places by its table.
    Three(u8),
}

impl Part {
    /// This part, where each variable has its number in this list, and 0 behind its end.
    pub fn renumbered(self, numbers: &[u32]) -> Part
        ensures { result ≡ part_renamed (λ k. slice_index_or numbers.now k 0) self }
    {
        match self {
            Part::Var(place) => Part::Var(numbers.get(place as usize).copied().unwrap_or(0)),
            other => other,
        }
    }
    /// This part, if it takes no operands.
    pub(crate) fn leaf(self) -> Option<Part>
        ensures { result ≡ leaf self }
    {
        match self {
            Part::Const(_) | Part::Var(_) => Some(self),
            Part::Not | Part::Two(_) | Part::Three(_) => None,
        }
    }
}
