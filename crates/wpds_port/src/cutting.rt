ghost use Rattle.std.specs.Prelude.{◌≡◌, ◌≤◌, IfOk, IfSome, IfNone, ◌∷◌, [], cond, option_map, length, take};
ghost use Rattle.wpds_port.specs.Tokens.{mark_at, word_text, word_at, is_digit, goes_on_name, bytes_while, tokens as tokens_of, AreTokens, IsStuck};
ghost use Rattle.wpds_port.specs.Words.{word_of};

use crate::classes::{blank, digit, name_begins, name_goes_on};
use crate::{Lexeme, Mark, OutOfMemory, Text, Token, TokenList, Word};
use std::alloc::Global;

/// The longest mark that the text begins with.
pub(crate) fn mark_in(text: &[u8]) -> Option<Mark>
    ensures { result ≡ mark_at text.now }
{
    match text {
        [first, next, ..] => mark_of(*first, *next),
        [first] => mark_of(*first, 0),
        [] => None,
    }
}

// The longest mark that a text with these two bytes in front begins with.
fn mark_of(first: u8, next: u8) -> Option<Mark>
    ensures { result ≡ mark_at (first ∷ next ∷ []) }
{
    match first {
        b'-' => Some(pair_if(next == b'>', Mark::Arrow, Mark::Minus)),
        b'=' => Some(pair_if(next == b'>', Mark::Implies, Mark::Equal)),
        b':' => Some(pair_if(next == b'=', Mark::Becomes, Mark::Colon)),
        b'!' => Some(pair_if(next == b'=', Mark::Differs, Mark::Not)),
        b';' => Some(Mark::Semicolon),
        b',' => Some(Mark::Comma),
        b'.' => Some(Mark::Dot),
        b'*' => Some(Mark::Star),
        b'+' => Some(Mark::Plus),
        b'?' => Some(Mark::Question),
        b'&' => Some(Mark::And),
        b'|' => Some(Mark::Or),
        b'^' => Some(Mark::Xor),
        b'(' => Some(Mark::Open),
        b')' => Some(Mark::Close),
        b'{' => Some(Mark::OpenBrace),
        b'}' => Some(Mark::CloseBrace),
        _ => None,
    }
}

// The mark of two bytes where it stands, and else the one of the first byte alone.
fn pair_if(stands: bool, pair: Mark, single: Mark) -> Mark
    ensures { result ≡ cond stands pair single }
{
    if stands { pair } else { single }
}

// How long the name is that the text begins with.
pub(crate) fn name_len(text: &[u8]) -> usize
    ensures within { result ≤ length text.now }
    ensures bytes { take result text.now ≡ bytes_while goes_on_name text.now }
{
    let mut n = 0;
    for b in text {
        if !name_goes_on(*b) {
            return n;
        }
        n += 1;
    }
    n
}

pub(crate) fn digits_len(text: &[u8]) -> usize
    ensures within { result ≤ length text.now }
    ensures bytes { take result text.now ≡ bytes_while is_digit text.now }
{
    let mut n = 0;
    for b in text {
        if !digit(*b) {
            return n;
        }
        n += 1;
    }
    n
}

/// The longest word that the text begins with.
pub(crate) fn lexeme_in(text: &[u8]) -> Option<Lexeme>
    ensures word { option_map word_of result ≡ word_at text.now }
    ensures within { IfSome result (λ l. length (word_text (word_of l)) ≤ length text.now) }
{
    if text.is_empty() {
        return None;
    }
    if name_begins(text[0]) {
        return Some(Lexeme::Name(&text[..name_len(text)]));
    }
    if digit(text[0]) {
        return Some(Lexeme::Number(&text[..digits_len(text)]));
    }
    match mark_in(text) {
        Some(mark) => Some(Lexeme::Mark(mark)),
        None => None,
    }
}

// The word, with bytes of its own.
fn copied(alloc: Global, lexeme: Lexeme) -> Result<Word, OutOfMemory>
    ensures { IfOk result (λ w. w ≡ word_of lexeme.entry) }
{
    match lexeme {
        Lexeme::Name(bytes) => Ok(Word::Name(Text::of(alloc, bytes)?)),
        Lexeme::Number(bytes) => Ok(Word::Number(Text::of(alloc, bytes)?)),
        Lexeme::Mark(mark) => Ok(Word::Mark(mark)),
    }
}

/// The longest word that the text begins with.
fn word_in(alloc: Global, text: &[u8]) -> Result<Option<Word>, OutOfMemory>
    ensures { IfOk result (λ o. o ≡ word_at text.now) }
{
    match lexeme_in(text) {
        Some(lexeme) => Ok(Some(copied(alloc, lexeme)?)),
        None => Ok(None),
    }
}

fn word_len(word: &Word) -> usize
    ensures { result ≡ length (word_text word.now) }
{
    word.text().len()
}

// The tokens up to the end of the line, or up to a place that begins none.
fn cut(alloc: Global, line: &[u8]) -> Result<Option<Vec<Token>>, OutOfMemory>
    ensures { IfOk result (λ o. option_map (λ v. v.items) o ≡ tokens_of line.now) }
{
    let mut found = Vec::new(alloc);
    let mut place = 0;
    while place < line.len() {
        if blank(line[place]) {
            place += 1;
        } else {
            match word_in(alloc, &line[place..])? {
                None => return Ok(None),
                Some(word) => {
                    let end = place + word_len(&word);
                    found.push(Token {
                        word,
                        start: place,
                        end,
                    })?;
                    place = end;
                }
            }
        }
    }
    Ok(Some(found))
}

/// Cuts a line into tokens, each as long as it can be, with blanks between them as one likes.
///
/// The answer is `None` where the cutting meets a byte that begins no token.
#[tactic(auto, using(crate::proofs::TokenLemmas::tokens_given, crate::proofs::StopLemmas::stuck_given))]
pub fn tokens(alloc: Global, line: &[u8]) -> Result<Option<TokenList>, OutOfMemory>
    ensures tokens { IfOk result (λ o. IfSome o (AreTokens 0 line.now)) }
    ensures stuck { IfOk result (λ o. IfNone o (IsStuck line.now)) }
    ensures cutting { IfOk result (λ o. o ≡ tokens_of line.now) }
{
    match cut(alloc, line)? {
        Some(found) => Ok(Some(TokenList::from_vec(found))),
        None => Ok(None),
    }
}
