use crate::{Numbers, PatternText, Symbols, WeightText, WeightsLine};
use wpds_base::Sequence;

/// `X=Y` of a return map: the caller's `X` becomes the callee's `Y`.
#[derive(Clone, Copy, Debug, PartialEq, Eq)]
pub struct Move {
    pub to: u32,
    pub from: u32,
}

pub type Moves = Sequence<Move>;

/// The return map of a push, where it is not plain.
#[derive(Debug, Drop)]
pub struct MapText {
    pub restore: Numbers,
    pub moves: Moves,
}

/// A rule, with numbers in place of names.
#[derive(Debug, Drop)]
pub struct RuleLine {
    pub control: u32,
    pub symbol: u32,
    pub to: u32,
    pub right: Symbols,
    pub weight: WeightText,
    /// Nothing for the plain map, also where it is written.
    pub map: Option<MapText>,
}

/// The rules of a document, in the order of their lines.
pub type RuleLines = Sequence<RuleLine>;

/// A query: what the runs from one set of configurations to another are worth.
#[derive(Debug, Drop)]
pub struct QueryLine {
    pub from: PatternText,
    pub to: PatternText,
}

/// The queries of a document, in the order of their lines.
pub type QueryLines = Sequence<QueryLine>;

/// A document, with numbers in place of names. `N` keeps the names of a class, in the order in
/// which they are declared: a name's number is its place, from 0.
#[derive(Debug, Drop)]
pub struct Document<N: Drop> {
    pub weights: WeightsLine,
    pub controls: N,
    pub symbols: N,
    /// The facts or variables that weights name.
    pub items: N,
    pub rules: RuleLines,
    pub queries: QueryLines,
}
