ghost use Rattle.std.specs.Prelude.{◌≡◌, ◌≤◌, ◌+◌, ◌++◌, [], length, decimal};
ghost use Rattle.report_text.specs.private.{line_size, number_size};

use itoa::write_digits;
use std::marker::Model;

// No line is longer.
const SIZE: usize = 160;

/// A line that is written from its end: what is put in stands before what is there.
#[derive(Drop)]
pub(crate) struct Line {
    bytes: [u8; SIZE],
    start: usize,
}

impl Model for Line {
    ghost use Rattle.std.specs.Prelude.{◌≤◌, drop};
    ghost use Rattle.report_text.specs.private.{LineText, line_size};

    ghost Value = { LineText };

    ghost view = { λ l. record { text = drop l.start l.bytes; room = l.start } };

    ghost invariant = { λ l. l.start ≤ line_size };
}

impl Line {
    /// An empty line.
    pub(crate) fn new() -> Line
        ensures text { result.text ≡ [] }
        ensures room { result.room ≡ line_size }
    {
        Line {
            bytes: [0; SIZE],
            start: SIZE,
        }
    }

    /// Takes out what is there.
    pub(crate) fn clear(&mut self)
        ensures text { self.new.text ≡ [] }
        ensures room { self.new.room ≡ line_size }
    {
        self.start = SIZE;
    }

    /// What it says.
    pub(crate) fn text(&self) -> &[u8]
        ensures { result.now ≡ self.now.text }
    {
        &self.bytes[self.start..]
    }

    /// Puts in a word.
    pub(crate) fn put(&mut self, word: &[u8])
        requires { length word.now ≤ self.old.room }
        ensures text { self.new.text ≡ word.now ++ self.old.text }
        ensures room { self.new.room + length word.now ≡ self.old.room }
    {
        let end = self.start;
        self.start = end - word.len();
        self.bytes[self.start..end].copy_from_slice(word);
    }

    /// Puts in a number.
    pub(crate) fn put_number(&mut self, number: u64)
        requires { number_size ≤ self.old.room }
        ensures text { self.new.text ≡ decimal number ++ self.old.text }
        ensures room { self.old.room ≤ self.new.room + number_size }
    {
        self.start = write_digits(number, &mut self.bytes, self.start);
    }
}
