ghost use Rattle.std.specs.Prelude.{◌≡◌, length};
ghost use Rattle.wpds_port.specs.Tokens.{mark_text, word_text, has_leading_zero, is_lawful_word};

use crate::Text;
use wpds_base::Sequence;

/// A mark of the two languages.
#[derive(Clone, Copy, Debug, PartialEq, Eq)]
pub enum Mark {
    Arrow,
    Implies,
    Becomes,
    Differs,
    Colon,
    Semicolon,
    Comma,
    Dot,
    Star,
    Plus,
    Minus,
    Equal,
    Question,
    Not,
    And,
    Or,
    Xor,
    Open,
    Close,
    OpenBrace,
    CloseBrace,
}

impl Mark {
    /// How the mark is written.
    pub fn text(self) -> &'static [u8]
        ensures { result.now ≡ mark_text self }
    {
        match self {
            Mark::Arrow => b"->",
            Mark::Implies => b"=>",
            Mark::Becomes => b":=",
            Mark::Differs => b"!=",
            Mark::Colon => b":",
            Mark::Semicolon => b";",
            Mark::Comma => b",",
            Mark::Dot => b".",
            Mark::Star => b"*",
            Mark::Plus => b"+",
            Mark::Minus => b"-",
            Mark::Equal => b"=",
            Mark::Question => b"?",
            Mark::Not => b"!",
            Mark::And => b"&",
            Mark::Or => b"|",
            Mark::Xor => b"^",
            Mark::Open => b"(",
            Mark::Close => b")",
            Mark::OpenBrace => b"{",
            Mark::CloseBrace => b"}",
        }
    }
}

/// What a token is: a name, a run of digits, or a mark.
///
/// Names and numbers are copies of the line's bytes. A number may begin with zeros, and be of any length.
#[derive(Debug, Drop)]
pub enum Word {
    Name(Text),
    Number(Text),
    Mark(Mark),
}

impl Word {
    /// How the token is written.
    pub fn text(&self) -> &[u8]
        ensures { result.now ≡ word_text self.now }
    {
        match self {
            Word::Name(text) => text.as_bytes(),
            Word::Number(text) => text.as_bytes(),
            Word::Mark(mark) => mark.text(),
        }
    }

    /// Whether a form takes the word: a name has at most 64 bytes, and a number no leading zero.
    pub fn is_lawful(&self) -> bool
        ensures { result ≡ is_lawful_word self.now }
    {
        match self {
            Word::Name(text) => text.len() <= 64,
            Word::Number(text) => !leads_with_zero(text.as_bytes()),
            Word::Mark(_) => true,
        }
    }
}

pub(crate) fn leads_with_zero(digits: &[u8]) -> bool
    ensures { result ≡ has_leading_zero digits.now }
{
    match digits {
        [first, _, ..] => *first == b'0',
        _ => false,
    }
}

/// A token, and the bytes of its line that it is: from `start` up to `end`.
#[derive(Debug, Drop)]
pub struct Token {
    pub word: Word,
    pub start: usize,
    pub end: usize,
}

/// The tokens of a line, in order.
pub type TokenList = Sequence<Token>;
