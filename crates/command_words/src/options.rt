use report_text::Options;
use witness_graph::Side;

/// How a ladder is answered that the program makes for itself.
#[derive(Clone, Copy, Debug, PartialEq, Eq)]
pub struct Generation {
    /// How many rungs it has, from 1 to 10,000.
    pub rungs: u32,
    /// Which way the saturation goes.
    pub by: Side,
    /// How many workers saturate, from 1 to 64.
    pub workers: u32,
}

/// What the words ask for.
#[derive(Clone, Copy, Debug, PartialEq, Eq)]
pub enum Request {
    /// What the program is for and which words it takes.
    Help,
    /// The program's version.
    Version,
    /// The answers to the queries of the document on standard input.
    Check(Options),
    /// The answer to a ladder.
    Generate(Generation),
}
