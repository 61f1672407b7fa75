ghost use Rattle.std.specs.Prelude.{◌≡◌};
ghost use Rattle.boolean_programs.specs.Lines.{bracket};

use crate::Expression;
use wpds_base::Sequence;

/// Numbers of variables or of lines, in the order in which they are written.
pub type Numbers = Sequence<u32>;

/// A value or a condition.
#[derive(Debug, Drop)]
pub enum Choice {
    /// `*`: either bit.
    Star,
    /// The value of an expression.
    Is(Expression),
}

/// Values, in the order in which they are written.
pub type ChoiceList = Sequence<Choice>;

/// What a body line says. Names are numbers: a number below the number of globals is that global,
/// and the numbers after it are the procedure's parameters and then its other locals.
#[derive(Debug, Drop)]
pub enum Statement {
    Skip,
    /// `X, .. := V, ..`: the targets get the values, all taken in the old state.
    Assign {
        targets: Numbers,
        values: ChoiceList,
    },
    /// The numbers of the lines that bear the labels.
    Goto {
        lines: Numbers,
    },
    Assume(Expression),
    Assert(Expression),
    /// A call of the procedure at this place, from 0, which returns a value for each target.
    Call {
        targets: Numbers,
        callee: u32,
        arguments: ChoiceList,
    },
    Return {
        values: ChoiceList,
    },
    If(Choice),
    Else,
    While(Choice),
    /// The `end` of an `if`.
    EndIf,
    /// The `end` of a `while`.
    EndWhile,
    /// The `end` of a procedure.
    EndProc,
}

/// What a line is to the blocks of its body.
#[derive(Clone, Copy, Debug, PartialEq, Eq)]
pub enum Bracket {
    /// It opens a block.
    Opens,
    /// It parts its block in two.
    Parts,
    /// It closes its block.
    Closes,
    /// It is none of these.
    Inside,
}

impl Statement {
    /// What a line with this statement is to the blocks.
    pub fn bracket(&self) -> Bracket
        ensures { result ≡ bracket self.now }
    {
        match self {
            Statement::If(_) | Statement::While(_) => Bracket::Opens,
            Statement::Else => Bracket::Parts,
            Statement::EndIf | Statement::EndWhile => Bracket::Closes,
            _ => Bracket::Inside,
        }
    }
}
