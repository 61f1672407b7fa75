/// A language of documents, as their header names it.
#[derive(Clone, Copy, Debug, PartialEq, Eq)]
pub enum Language {
    /// `wpds 1`: a weighted pushdown system.
    System,
    /// `bool 1`: a Boolean program.
    Program,
}
