/// Which of the tables of a search.
#[derive(Clone, Copy, Debug, PartialEq, Eq)]
pub enum Layer {
    /// What is kept for all queries.
    Base,
    /// What leads to one target.
    Target,
    /// What one walk goes over.
    Walk,
}
