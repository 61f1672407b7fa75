//! Words cut into pieces at a mark.

ghost use Rattle.std.specs.Prelude.{◌≡◌, [], ◌∷◌, MatchOption, Some};
ghost use Rattle.rule_reader.specs.Pieces.{pieces_of, pieces_left};

use std::marker::Model;
use wpds_port::{Lexeme, Mark, Words};

/// Where words are cut.
#[derive(Clone, Copy, Debug)]
pub enum Cut {
    Commas,
    Semicolons,
    /// At commas outside brackets.
    OutsideCommas,
}

/// The pieces of words, one after another. There is one more than there are marks.
#[derive(Drop)]
pub struct Pieces<'t> {
    cut: Cut,
    left: Option<Words<'t>>,
}

impl<'t> Model for Pieces<'t> {
    ghost use Rattle.std.specs.Prelude.{List};
    ghost use Rattle.wpds_port.specs.declared.Word.{Word};

    ghost Value = { List (List Word) };

    ghost use Rattle.rule_reader.specs.Pieces.{pieces_left};

    ghost view = { λ p. pieces_left p.cut p.left };
}

impl<'t> Pieces<'t> {
    /// The pieces of words, none taken yet.
    pub fn new(cut: Cut, words: &Words<'t>) -> Pieces<'t>
        ensures { result ≡ pieces_of cut words.now }
    {
        Pieces {
            cut,
            left: Some(words.reborrow()),
        }
    }

    /// The next piece, if there is one. Behind the last there is none, however often it is asked for.
    pub fn next(&mut self) -> Option<Words<'t>>
        ensures piece { MatchOption result (self.old ≡ []) (λ piece. self.old ≡ piece ∷ self.new) }
        ensures none { self.old ≡ [] → self.new ≡ [] }
    {
        match self.left.take() {
            Some(words) => {
                let (piece, left) = first_piece(self.cut, &words);
                self.left = left;
                Some(piece)
            }
            None => None,
        }
    }
}

// The first piece, and the words behind the mark after it.
fn first_piece<'t>(cut: Cut, words: &Words<'t>) -> (Words<'t>, Option<Words<'t>>)
    ensures { pieces_of cut words.now ≡ result.0 ∷ pieces_left cut result.1 }
{
    match cut {
        Cut::Commas => words.split_once(Lexeme::Mark(Mark::Comma)),
        Cut::Semicolons => words.split_once(Lexeme::Mark(Mark::Semicolon)),
        Cut::OutsideCommas => words.split_outside(Lexeme::Mark(Mark::Comma)),
    }
}
