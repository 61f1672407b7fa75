ghost use Rattle.std.specs.Prelude.{◌≡◌, Some, IfOk};
ghost use Rattle.std.specs.String.{string_bytes};
ghost use Rattle.wpds_port.specs.Refusals.{kind_number, kind_name, refusal_text};
ghost use Rattle.wpds_port.specs.declared.refusal.ReadFault.TheVariants.{Memory};

use crate::OutOfMemory;
use std::alloc::{AllocError, AllocFailed, Global};
use std::fmt;
use thiserror::Error;

/// Why a document is refused.
#[derive(Clone, Copy, Debug, PartialEq, Eq)]
pub enum Kind {
    /// The document has more bytes than are read.
    TooLong,
    /// A line that counts has a byte other than tab and 32 to 126.
    NotText,
    /// The first line that counts is no header, or there is none.
    Header,
    /// The line has none of the forms that may stand there.
    Form,
    /// A name, or the weights line, stands a second time where it may stand once.
    Twice,
    /// A name is not declared where it may be used.
    Unknown,
    /// The weight of a rule is none of the document's weights.
    WeightText,
    /// A return stands where none may, or is one that the weights do not allow.
    Return,
    /// A limit is passed on this line.
    Count,
    /// There is no query.
    NothingAsked,
    /// A program's line has too many or too few values, arguments, targets or results.
    Arity,
    /// A program's procedure has too many variables.
    TooWide,
    /// A program's label is not one that the line may name.
    Label,
}

impl Kind {
    /// The number under which the kind is printed, and by which the kinds of one line are ordered.
    pub fn number(self) -> u32
        ensures { result ≡ kind_number self }
    {
        match self {
            Kind::TooLong => 1,
            Kind::NotText => 2,
            Kind::Header => 3,
            Kind::Form => 4,
            Kind::Twice => 5,
            Kind::Unknown => 6,
            Kind::WeightText => 7,
            Kind::Return => 8,
            Kind::Count => 9,
            Kind::NothingAsked => 10,
            Kind::Arity => 11,
            Kind::TooWide => 12,
            Kind::Label => 13,
        }
    }

    /// The name under which the kind is printed.
    pub fn name(self) -> &'static str
        ensures { result.now ≡ kind_name self }
    {
        match self {
            Kind::TooLong => "TooLong",
            Kind::NotText => "NotText",
            Kind::Header => "Header",
            Kind::Form => "Form",
            Kind::Twice => "Twice",
            Kind::Unknown => "Unknown",
            Kind::WeightText => "WeightText",
            Kind::Return => "Return",
            Kind::Count => "Count",
            Kind::NothingAsked => "NothingAsked",
            Kind::Arity => "Arity",
            Kind::TooWide => "TooWide",
            Kind::Label => "Label",
        }
    }
}

/// The first refused line of a document, and why it is refused.
///
/// Lines are numbered from 1. What concerns the document as a whole stands on line 0, and what is
/// missing at its end on the line after the last.
#[derive(Clone, Copy, Debug, PartialEq, Eq)]
pub struct Refusal {
    pub line: u64,
    pub kind: Kind,
}

/// Writes `refused: line L: K NAME`, with no line feed.
impl fmt::Display for Refusal {
    ghost output = { λ r. Some (refusal_text r) };

    fn fmt<W: fmt::Write>(&self, f: &mut fmt::Formatter<W>) -> fmt::Result {
        let line = self.line;
        let number = self.kind.number();
        let name = self.kind.name();
        write!(f, "refused: line {line}: {number} {name}")
    }
}

impl Refusal {
    /// The text `refused: line L: K NAME`, with no line feed.
    pub fn text(&self, alloc: Global) -> Result<String, OutOfMemory>
        ensures { IfOk result (λ t. string_bytes t ≡ refusal_text self.now) }
    {
        Ok(format!(in alloc; "{self}")?)
    }
}

/// Why no document was read.
#[derive(Clone, Copy, Debug, PartialEq, Eq, Error)]
pub enum ReadFault {
    /// The document is refused.
    #[error("{0}")]
    Refused(Refusal),
    /// There was no memory for it.
    #[error("out of memory")]
    Memory,
}

impl From<OutOfMemory> for ReadFault {
    ghost from_gives = { λ _ e. e ≡ Memory };

    fn from(_: OutOfMemory) -> Self {
        ReadFault::Memory
    }
}

impl From<AllocError> for ReadFault {
    ghost from_gives = { λ _ e. e ≡ Memory };

    fn from(_: AllocError) -> Self {
        ReadFault::Memory
    }
}

impl<T: Drop> From<AllocFailed<T>> for ReadFault {
    ghost from_gives = { λ _ e. e ≡ Memory };

    fn from(_: AllocFailed<T>) -> Self {
        ReadFault::Memory
    }
}
