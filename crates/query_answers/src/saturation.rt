ghost use Rattle.std.specs.Prelude.{◌≡◌};
ghost use Rattle.query_answers.specs.Answering.{saturated_system};

use poststar::Post;
use prestar::Pre;
use pushdown_rules::System;
use saturation_core::Book;
use semiring_laws::Semiring;

/// A finished saturation from a pattern, a book that its workers closed: all queries that start or end there are answered over it,
/// with listings.
#[derive(Drop)]
pub enum Saturation<'s, S: Semiring> {
    /// Backwards, from where the runs of its queries end.
    Backward(Book<'s, S, Pre>),
    /// Forwards, from where they begin.
    Forward(Book<'s, S, Post>),
}

impl<'s, S: Semiring> Saturation<'s, S> {
    /// The system over which it is saturated.
    pub fn system(&self) -> &System<S>
        ensures { result.now ≡ saturated_system self.now }
    {
        match self {
            Saturation::Backward(book) => book.system(),
            Saturation::Forward(book) => book.system(),
        }
    }
}
