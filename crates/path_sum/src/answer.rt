use semiring_laws::Semiring;
use witness_graph::Listing;

/// The answer to a query.
#[derive(Drop)]
pub struct Answer<S: Semiring> {
    /// The weight of all runs between the two sets, zero where there is none of another weight.
    pub value: S::W,
    /// Runs whose weights combine to the value. There is none exactly where the value is zero.
    pub listing: Option<Listing>,
}
