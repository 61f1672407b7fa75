use wpds_port::Words;

/// A statement, whose names and values are words still.
#[derive(Drop)]
pub enum StatementText<'t> {
    Skip,
    /// Names with commas between, and values with commas between.
    Assign {
        targets: Words<'t>,
        values: Words<'t>,
    },
    Goto {
        labels: Words<'t>,
    },
    Assume(Words<'t>),
    Assert(Words<'t>),
    Call {
        /// Nothing where no `:=` is written.
        targets: Option<Words<'t>>,
        callee: &'t [u8],
        /// No words, or values with commas between.
        arguments: Words<'t>,
    },
    Return {
        /// No words, or values with commas between.
        values: Words<'t>,
    },
    /// A condition is `*` or an expression.
    If(Words<'t>),
    While(Words<'t>),
}

/// A line of a program behind the header, whose names and values are words still.
#[derive(Drop)]
pub enum LineText<'t> {
    Global {
        names: Words<'t>,
    },
    Proc {
        name: &'t [u8],
        /// No words, or names with commas between.
        params: Words<'t>,
        /// From 0, which is not written, to 24.
        returns: u32,
    },
    Local {
        names: Words<'t>,
    },
    Statement {
        label: Option<&'t [u8]>,
        statement: StatementText<'t>,
    },
    Else,
    End,
    Query {
        /// Whether the failure of the assert on the line is asked for.
        fails: bool,
        label: &'t [u8],
    },
}
