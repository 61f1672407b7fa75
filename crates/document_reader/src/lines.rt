//! The lines of a document that count, one after another.

ghost use Rattle.std.specs.Prelude.{◌≡◌, ◌<◌, [], ◌∷◌, length, position, true, None, MatchOption, IfSome};
ghost use Rattle.wpds_port.specs.Tokens.{is_blank};
ghost use Rattle.wpds_port.specs.Words.{word_of};
ghost use Rattle.document_forms.specs.Forms.{line_form, form_behind};
ghost use Rattle.document_forms.specs.Lines.{lines, counts as counts_as, is_text as is_text_as, is_allowed, without_return as return_off};
ghost use Rattle.document_reader.specs.LinesLeft.{left, is_feed};

use document_forms::one_cutting_into_lines;
use memchr::memchr;
use std::marker::Model;
use wpds_port::{Lexeme, Words, one_list_of_tokens};

/// A line of a document with its number, from 1.
#[derive(Clone, Copy)]
pub struct Line<'t> {
    pub number: u64,
    /// Without the line feed, and without a carriage return at the end.
    pub bytes: &'t [u8],
}

/// The lines of a document that count, from a place on.
#[derive(Drop)]
pub struct Lines<'t> {
    rest: &'t [u8],
    // The number of the line with which the rest begins.
    number: u64,
}

impl<'t> Model for Lines<'t> {
    ghost use Rattle.std.specs.Prelude.{◌≤◌, ◌+◌, ◌^◌, length};
    ghost use Rattle.document_reader.specs.LinesLeft.{Left, left};

    ghost Value = { Left };

    ghost view = { λ a. left a.number a.rest.now };

    ghost invariant = { λ a. a.number + length a.rest.now ≤ 2 ^ 63 };
}

impl<'t> Lines<'t> {
    /// All lines of these bytes that count.
    pub fn new(bytes: &'t [u8]) -> Lines<'t>
        ensures { result ≡ left 1 bytes.now }
    {
        Lines {
            rest: bytes,
            number: 1,
        }
    }

    /// The next line that counts, if there is one.
    pub fn next(&mut self) -> Option<Line<'t>>
        ensures lines { MatchOption result
            ((self.old.lines ≡ []) × (self.new.lines ≡ []))
            (λ l. self.old.lines
            ≡ record { number = l.number; bytes = l.bytes.now } ∷ self.new.lines) }
        ensures after { self.new.after ≡ self.old.after }
    {
        while !self.rest.is_empty() {
            let (line, rest) = split_line(self.rest);
            let number = self.number;
            self.rest = rest;
            self.number += 1;
            if counts(line) {
                return Some(Line {
                    number,
                    bytes: line,
                });
            }
        }
        None
    }

    /// The same lines once more: they borrow the same bytes.
    pub(crate) fn reborrow(&self) -> Lines<'t>
        ensures { result ≡ self.now }
    {
        Lines {
            rest: self.rest,
            number: self.number,
        }
    }

    /// The number of the line after the last.
    pub fn after(&self) -> u64
        ensures { result ≡ self.now.after }
    {
        let mut number = self.number;
        let mut rest = self.rest;
        while !rest.is_empty() {
            let (_, behind) = split_line(rest);
            rest = behind;
            number += 1;
        }
        number
    }
}

// The first line, and what stands behind it.
fn split_line<'t>(bytes: &'t [u8]) -> (&'t [u8], &'t [u8])
    requires { 0 < length bytes.now }
    ensures lines { lines bytes.now ≡ result.0.now ∷ lines result.1.now }
    ensures shorter { length result.1.now < length bytes.now }
{
    one_cutting_into_lines();
    match feed_place(bytes) {
        Some(place) => (without_return(&bytes[..place]), &bytes[place + 1..]),
        None => (without_return(bytes), &bytes[bytes.len()..]),
    }
}

// The place of the first line feed.
fn feed_place(bytes: &[u8]) -> Option<usize>
    ensures { result ≡ position is_feed bytes.now }
{
    memchr(b'\n', bytes)
}

fn without_return(piece: &[u8]) -> &[u8]
    ensures { result.now ≡ return_off piece.now }
{
    let len = piece.len();
    if len > 0 && piece[len - 1] == b'\r' {
        &piece[..len - 1]
    } else {
        piece
    }
}

fn blank(byte: u8) -> bool
    ensures { result ≡ is_blank byte }
{
    byte == b' ' || byte == b'\t'
}

/// Whether the line is neither blank nor a remark.
pub(crate) fn counts(line: &[u8]) -> bool
    ensures { result ≡ counts_as line.now }
{
    for byte in line {
        if !blank(*byte) {
            return *byte != b'#';
        }
    }
    false
}

fn allowed(byte: u8) -> bool
    ensures { result ≡ is_allowed byte }
{
    byte == b'\t' || (32 <= byte && byte <= 126)
}

/// Whether the line has no byte but tab and those from 32 to 126.
pub fn is_text(line: &[u8]) -> bool
    ensures { result ≡ is_text_as line.now }
{
    line.iter().all(|byte| allowed(*byte))
}

/// The first word of a line and those behind it, if it is cut wholly into words which a form takes. Such a line is text.
pub(crate) fn line_front<'t>(line: &'t [u8]) -> Option<(Lexeme<'t>, Words<'t>)>
    ensures form { MatchOption result
        (line_form line.now ≡ None)
        (λ p. line_form line.now ≡ form_behind (word_of p.0) p.1) }
    ensures text { IfSome result (λ _. is_text_as line.now ≡ true) }
{
    one_list_of_tokens();
    let words = Words::of(line)?;
    words.split_first()
}
