ghost use Rattle.std.specs.Prelude.{◌≡◌, ◌+◌, ◌^◌, ◌<◌, ◌≤◌, ◌⊎◌, ◌==◌, ◌&&◌, ◌∷◌, [], IsTrue, MatchOption, IfSome, drop, take, length, option_map, is_some, Some};
ghost use Rattle.std.specs.List.{list_all};
ghost use Rattle.wpds_port.specs.Tokens.{Name, Number, is_blank, is_digit, goes_on_name, bytes_while, word_at, begins_said, is_lawful_word};
ghost use Rattle.wpds_port.specs.Words.{lawful_words, word_of, same_word, before, behind, before_outside, behind_outside, brackets_after};
ghost use Rattle.wpds_port.specs.private.Fronts.{IsFront, IsLawfulStart};

use crate::classes::{blank, digit, name_begins};
use crate::cutting::{digits_len, lexeme_in, mark_in, name_len};
use crate::token::leads_with_zero;
use crate::{Lexeme, Mark};
use std::marker::Model;

/// The words of a text that is cut wholly into words which a form takes.
///
/// It borrows the text, and cuts one word at a time: it takes no memory.
#[derive(Drop)]
pub struct Words<'t> {
    text: &'t [u8],
}

impl<'t> Model for Words<'t> {
    ghost use Rattle.std.specs.Prelude.{IsTrue, List, [], is_some, unwrap_or};
    ghost use Rattle.wpds_port.specs.Tokens.{Word};
    ghost use Rattle.wpds_port.specs.Words.{lawful_words};

    ghost Value = { List Word };

    ghost view = { λ w. unwrap_or (lawful_words w.text.now) [] };

    ghost invariant = { λ w. IsTrue (is_some (lawful_words w.text.now)) };
}

// What a text begins with.
#[derive(Drop)]
enum Front<'t> {
    // blanks alone
    End,
    // behind blanks a byte that begins no word
    Unknown,
    // behind blanks a word, and the text behind it
    Word(Lexeme<'t>, &'t [u8]),
}

// How many blanks the text begins with.
fn blanks_len(text: &[u8]) -> usize
    ensures within { result ≤ length text.now }
    ensures blanks { IsTrue (list_all is_blank (take result text.now)) }
    ensures then { (drop result text.now ≡ []) ⊎ IsTrue (begins_said (drop result text.now)) }
{
    let mut n = 0;
    for b in text {
        if !blank(*b) {
            return n;
        }
        n += 1;
    }
    n
}

fn begin(text: &[u8]) -> Front
    ensures { IsFront text.now result }
{
    let said = &text[blanks_len(text)..];
    if said.is_empty() {
        return Front::End;
    }
    match lexeme_in(said) {
        Some(lexeme) => Front::Word(lexeme, &said[lexeme.text().len()..]),
        None => Front::Unknown,
    }
}

impl<'t> Words<'t> {
    /// The words of a text; nothing where it is not cut wholly into words which a form takes.
    pub fn of(text: &'t [u8]) -> Option<Words<'t>>
        ensures { result ≡ lawful_words text.now }
    {
        if is_lawful_text(text) {
            Some(Words { text })
        } else {
            None
        }
    }

    /// The first word and those behind it; nothing where there is none.
    pub fn split_first(&self) -> Option<(Lexeme<'t>, Words<'t>)>
        ensures { MatchOption result (self.now ≡ []) (λ p. self.now ≡ word_of p.0 ∷ p.1) }
    {
        match begin(self.text) {
            Front::Word(lexeme, rest) => Some((lexeme, Words { text: rest })),
            Front::End => None,
            Front::Unknown => None,
        }
    }

    /// The words before the first one that is `at`, and those behind it; where there is none, all
    /// words and nothing.
    pub fn split_once(&self, at: Lexeme) -> (Words<'t>, Option<Words<'t>>)
        ensures before { result.0 ≡ before (same_word (word_of at.entry)) self.now }
        ensures behind { result.1 ≡ behind (same_word (word_of at.entry)) self.now }
    {
        let text = self.text;
        let mut place = 0;
        loop {
            match begin(&text[place..]) {
                Front::Word(lexeme, rest) => {
                    if at.is(lexeme) {
                        let front = Words {
                            text: &text[..place],
                        };
                        return (front, Some(Words { text: rest }));
                    }
                    place = text.len() - rest.len();
                }
                Front::End => return (Words { text }, None),
                Front::Unknown => return (Words { text }, None),
            }
        }
    }

    /// The words before the first one that is `at` and stands outside brackets, and those behind
    /// it; where there is none, all words and nothing.
    pub fn split_outside(&self, at: Lexeme) -> (Words<'t>, Option<Words<'t>>)
        ensures before { result.0 ≡ before_outside 0 (same_word (word_of at.entry)) self.now }
        ensures behind { result.1 ≡ behind_outside 0 (same_word (word_of at.entry)) self.now }
    {
        let text = self.text;
        let mut place = 0;
        let mut brackets = 0;
        loop {
            match begin(&text[place..]) {
                Front::Word(lexeme, rest) => {
                    if ends_outside(brackets, at, lexeme) {
                        let front = Words {
                            text: &text[..place],
                        };
                        return (front, Some(Words { text: rest }));
                    }
                    brackets = brackets_behind(brackets, lexeme);
                    place = text.len() - rest.len();
                }
                Front::End => return (Words { text }, None),
                Front::Unknown => return (Words { text }, None),
            }
        }
    }

    /// The same words once more: they borrow the same text. A form takes each of them.
    pub fn reborrow(&self) -> Words<'t>
        ensures same { result ≡ self.now }
        ensures lawful { IsTrue (list_all is_lawful_word self.now) }
    {
        Words { text: self.text }
    }
}

// Whether a text is cut at the word, where so many brackets are open before it.
fn ends_outside(brackets: usize, at: Lexeme, lexeme: Lexeme) -> bool
    ensures { result ≡ (brackets == 0 && same_word (word_of at.entry) (word_of lexeme.entry)) }
{
    brackets == 0 && at.is(lexeme)
}

// How many brackets are open behind the word.
fn brackets_behind(brackets: usize, lexeme: Lexeme) -> usize
    requires { brackets + 1 < 2 ^ 64 }
    ensures { result ≡ brackets_after brackets (word_of lexeme.entry) }
{
    match lexeme {
        Lexeme::Mark(Mark::Open) => brackets + 1,
        Lexeme::Mark(Mark::Close) => brackets.saturating_sub(1),
        _ => brackets,
    }
}

// Whether a text is cut wholly into words which a form takes.
fn is_lawful_text(text: &[u8]) -> bool
    ensures { result ≡ is_some (lawful_words text.now) }
{
    let mut left = text;
    while !left.is_empty() {
        match lawful_len(left) {
            Some(n) => left = &left[n..],
            None => return false,
        }
    }
    true
}

// How long the blank or the word is that the text begins with, if a form takes it.
fn lawful_len(text: &[u8]) -> Option<usize>
    requires { 0 < length text.now }
    ensures { IsLawfulStart text.now result }
{
    if blank(text[0]) {
        Some(1)
    } else if name_begins(text[0]) {
        lawful_name_len(text)
    } else if digit(text[0]) {
        lawful_number_len(text)
    } else {
        match mark_in(text) {
            Some(mark) => Some(mark.text().len()),
            None => None,
        }
    }
}

fn lawful_name_len(text: &[u8]) -> Option<usize>
    requires { word_at text.now ≡ Some (Name (bytes_while goes_on_name text.now)) }
    ensures { IsLawfulStart text.now result }
{
    let n = name_len(text);
    if n <= 64 { Some(n) } else { None }
}

fn lawful_number_len(text: &[u8]) -> Option<usize>
    requires { word_at text.now ≡ Some (Number (bytes_while is_digit text.now)) }
    ensures { IsLawfulStart text.now result }
{
    let n = digits_len(text);
    if leads_with_zero(&text[..n]) {
        None
    } else {
        Some(n)
    }
}
