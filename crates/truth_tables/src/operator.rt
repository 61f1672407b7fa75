ghost use Rattle.std.specs.Prelude.{◌≡◌};
ghost use Rattle.truth_tables.specs.Grammar.{table_of, operator_level, least_left};
ghost use Rattle.truth_tables.specs.Stacks.{operator_of};

use wpds_port::Mark;

/// An operator that stands between its operands.
#[derive(Clone, Copy, Debug, PartialEq, Eq)]
pub enum Operator {
    Then,
    Same,
    Other,
    Or,
    Xor,
    And,
}

impl Operator {
    /// The operator that is written so.
    pub fn of(mark: Mark) -> Option<Operator>
        ensures { result ≡ operator_of mark }
    {
        match mark {
            Mark::Implies => Some(Operator::Then),
            Mark::Equal => Some(Operator::Same),
            Mark::Differs => Some(Operator::Other),
            Mark::Or => Some(Operator::Or),
            Mark::Xor => Some(Operator::Xor),
            Mark::And => Some(Operator::And),
            _ => None,
        }
    }

    /// The operator's table of two places.
    pub fn table(self) -> u8
        ensures { result ≡ table_of self }
    {
        match self {
            Operator::Then => 11,
            Operator::Same => 9,
            Operator::Other => 6,
            Operator::Or => 14,
            Operator::Xor => 6,
            Operator::And => 8,
        }
    }

    /// How strongly it binds, from 1 to 5.
    pub fn level(self) -> u8
        ensures { result ≡ operator_level self }
    {
        match self {
            Operator::Then => 1,
            Operator::Same => 2,
            Operator::Other => 2,
            Operator::Or => 3,
            Operator::Xor => 4,
            Operator::And => 5,
        }
    }

    /// How strongly what is open before its left operand must bind, so that it is a part of that operand.
    ///
    /// `=>` groups to the right, and the others to the left.
    pub fn least_left(self) -> u8
        ensures { result ≡ least_left self }
    {
        match self {
            Operator::Then => 2,
            other => other.level(),
        }
    }
}
