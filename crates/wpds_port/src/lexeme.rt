ghost use Rattle.std.specs.Prelude.{◌≡◌};
ghost use Rattle.wpds_port.specs.Tokens.{word_text};
ghost use Rattle.wpds_port.specs.Words.{word_of, same_word};

use crate::Mark;

/// A word of a text: bytes of it, or a mark.
#[derive(Clone, Copy, Debug, PartialEq, Eq)]
pub enum Lexeme<'t> {
    Name(&'t [u8]),
    Number(&'t [u8]),
    Mark(Mark),
}

impl<'t> Lexeme<'t> {
    /// How the word is written.
    pub fn text(self) -> &'t [u8]
        ensures { result.now ≡ word_text (word_of self.entry) }
    {
        match self {
            Lexeme::Name(bytes) => bytes,
            Lexeme::Number(bytes) => bytes,
            Lexeme::Mark(mark) => mark.text(),
        }
    }

    /// Whether it is the same word as another.
    pub fn is(self, other: Lexeme) -> bool
        ensures { result ≡ same_word (word_of self.entry) (word_of other.entry) }
    {
        match (self, other) {
            (Lexeme::Name(x), Lexeme::Name(y)) => x == y,
            (Lexeme::Number(x), Lexeme::Number(y)) => x == y,
            (Lexeme::Mark(m), Lexeme::Mark(n)) => m.text() == n.text(),
            _ => false,
        }
    }
}
