ghost use Rattle.std.specs.Prelude.{◌≡◌, ◌++◌, ◌∷◌, IfOk, MatchOption, None, false};
ghost use Rattle.wpds_port.specs.Words.{word_of};
ghost use Rattle.wpds_port.specs.declared.Mark.TheVariants.{OpenBrace, CloseBrace};
ghost use Rattle.wpds_port.specs.declared.Word.TheVariants.{Mark as Sign};
ghost use Rattle.document_forms.specs.Patterns.{Bare, star_words, items_of};
ghost use Rattle.document_reader.specs.private.ItemReading.{begins_with_close, begins_with_star, IsSetRead, HasSet, HasItem};

use document_forms::{SetText, Symbols};
use rule_reader::{NameTable, NamesOnce, read_names};
use std::alloc::Global;
use wpds_base::OutOfMemory;
use wpds_port::{Lexeme, Mark, Words};

/// A set as it is read.
#[derive(Drop)]
pub(crate) struct SetRead {
    pub(crate) set: SetText,
    /// Whether a symbol stands in it twice.
    pub(crate) twice: bool,
    /// Whether a symbol is not declared above. The number that stands for it says nothing.
    pub(crate) unknown: bool,
}

/// An item as it is read, and the words behind it.
#[derive(Drop)]
pub(crate) struct ItemRead<'t> {
    pub(crate) set: SetRead,
    pub(crate) star: bool,
    pub(crate) rest: Words<'t>,
}

// The words behind the closing brace with which words begin.
fn split_close<'t>(words: &Words<'t>) -> Option<Words<'t>>
    ensures { MatchOption result (begins_with_close words.now ≡ false)
        (λ rest. words.now ≡ Sign CloseBrace ∷ rest) }
{
    match words.split_first() {
        Some((Lexeme::Mark(Mark::CloseBrace), rest)) => Some(rest),
        _ => None,
    }
}

// The set whose opening brace stands before the words, and the words behind it.
fn read_braced<'t>(
    alloc: Global,
    symbols: &NameTable,
    words: &Words<'t>,
) -> Result<Option<(SetRead, Words<'t>)>, OutOfMemory>
    ensures { IfOk result (λ o. MatchOption o (items_of (Sign OpenBrace ∷ words.now) ≡ None)
        (λ r. HasSet symbols.now (Sign OpenBrace ∷ words.now) r.0 r.1)) }
{
    let (read, left) = read_names(alloc, symbols, words)?;
    if read.numbers.is_empty() {
        return Ok(None);
    }
    let Some(rest) = split_close(&left) else {
        return Ok(None);
    };
    let mut once = NamesOnce::new(alloc);
    once.add_names(words)?;
    let set = SetRead {
        set: SetText::Listed(Symbols::from_vec(alloc, read.numbers)?),
        twice: once.twice,
        unknown: read.unknown,
    };
    Ok(Some((set, rest)))
}

// The set that is one symbol.
fn bare(symbols: &NameTable, name: &[u8]) -> SetRead
    ensures { IsSetRead symbols.now (Bare name.now) result }
{
    let number = symbols.number_of(name);
    SetRead {
        set: SetText::Listed(Symbols::one(number.unwrap_or(0))),
        twice: false,
        unknown: number.is_none(),
    }
}

// The set with which words begin that have this one in front, and the words behind the set.
fn read_set<'t>(
    alloc: Global,
    symbols: &NameTable,
    first: Lexeme<'t>,
    words: &Words<'t>,
) -> Result<Option<(SetRead, Words<'t>)>, OutOfMemory>
    ensures { IfOk result (λ o. MatchOption o (items_of (word_of first.entry ∷ words.now) ≡ None)
        (λ r. HasSet symbols.now (word_of first.entry ∷ words.now) r.0 r.1)) }
{
    match first {
        Lexeme::Mark(Mark::Dot) => {
            let set = SetRead {
                set: SetText::All,
                twice: false,
                unknown: false,
            };
            Ok(Some((set, words.reborrow())))
        }
        Lexeme::Name(name) => Ok(Some((bare(symbols, name), words.reborrow()))),
        Lexeme::Mark(Mark::OpenBrace) => read_braced(alloc, symbols, words),
        _ => Ok(None),
    }
}

// Whether words begin with a star, and the words behind it.
fn split_star<'t>(words: &Words<'t>) -> (bool, Words<'t>)
    ensures words { words.now ≡ star_words result.0 ++ result.1 }
    ensures one { result.0 ≡ false → begins_with_star result.1 ≡ false }
{
    match words.split_first() {
        Some((Lexeme::Mark(Mark::Star), rest)) => (true, rest),
        _ => (false, words.reborrow()),
    }
}

/// The item with which words begin that have this one in front; nothing where they begin with none.
pub(crate) fn read_item<'t>(
    alloc: Global,
    symbols: &NameTable,
    first: Lexeme<'t>,
    words: &Words<'t>,
) -> Result<Option<ItemRead<'t>>, OutOfMemory>
    ensures { IfOk result (λ o. MatchOption o (items_of (word_of first.entry ∷ words.now) ≡ None)
        (HasItem symbols.now (word_of first.entry ∷ words.now))) }
{
    let Some((set, behind)) = read_set(alloc, symbols, first, words)? else {
        return Ok(None);
    };
    let (star, rest) = split_star(&behind);
    Ok(Some(ItemRead { set, star, rest }))
}
