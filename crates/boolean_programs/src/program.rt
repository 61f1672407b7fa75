use crate::{ProgramQueries, Statement};
use wpds_base::Sequence;
use wpds_port::Text;

/// Names in the order of their declaration.
pub type Names = Sequence<Text>;

/// A line of a procedure's body.
#[derive(Debug, Drop)]
pub struct BodyLine {
    /// The number of the line in the document, from 1.
    pub line: u32,
    pub label: Option<Text>,
    pub statement: Statement,
}

/// The lines of a body, in order. The last is the `end` of the procedure.
pub type BodyList = Sequence<BodyLine>;

/// A procedure.
#[derive(Debug, Drop)]
pub struct Proc {
    pub name: Text,
    pub params: Names,
    /// The locals other than the parameters.
    pub locals: Names,
    /// How many values it returns.
    pub returns: u32,
    pub body: BodyList,
}

/// Procedures, in the order of their lines.
pub type ProcList = Sequence<Proc>;

/// A Boolean program: what a document of `bool 1` says.
#[derive(Debug, Drop)]
pub struct Program {
    pub globals: Names,
    pub procs: ProcList,
    pub queries: ProgramQueries,
}
