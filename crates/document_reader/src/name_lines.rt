//! Lines that declare names of a class.

ghost use Rattle.std.specs.Prelude.{◌≡◌, ◌++◌, ◌∷◌, [], IfOk, IfNone, MatchOption, is_some, true, false, bytes_eq};
ghost use Rattle.wpds_port.specs.Words.{word_of};
ghost use Rattle.document_forms.specs.Forms.{Symbols, names_of};
ghost use Rattle.document_forms.specs.Names.{once, is_reserved as is_reserved_of};
ghost use Rattle.document_reader.specs.private.Readings.{declared_on};
ghost use Rattle.document_reader.specs.NameLines.{names_in, is_free as is_free_of, HasAdded, kind_of_names, Declares};

use crate::lines::line_front;
use rule_reader::{NameTable, is_name};
use wpds_base::OutOfMemory;
use wpds_port::{Kind, Lexeme, Words};

const RESERVED: [&[u8]; 24] = [
    b"one", b"none", b"undef", b"return", b"restore", b"move", b"plain", b"assume", b"choose",
    b"tab2", b"tab3", b"global", b"proc", b"returns", b"local", b"if", b"else", b"end", b"while",
    b"goto", b"assert", b"call", b"skip", b"query",
];

/// Whether the name is a word of the two languages, which cannot be declared.
pub fn is_reserved(name: &[u8]) -> bool
    ensures { result ≡ is_reserved_of name.now }
{
    RESERVED.iter().any(|word| is_same(name, word))
}

// Whether two texts are the same. Most differ in length already.
fn is_same(text: &[u8], other: &[u8]) -> bool
    ensures { result ≡ bytes_eq text.now other.now }
{
    text.len() == other.len() && text == other
}

// Whether the word is a name that may be declared.
fn is_free(lexeme: Lexeme) -> bool
    ensures { result ≡ is_free_of (word_of lexeme.entry) }
{
    match lexeme {
        Lexeme::Name(name) => !is_reserved(name),
        _ => false,
    }
}

/// Whether the words are names, one at least, that may be declared.
pub fn are_names(words: &Words) -> bool
    ensures { result ≡ is_some (names_of words.now) }
{
    let mut left = words.reborrow();
    while let Some((lexeme, rest)) = left.split_first() {
        if !is_free(lexeme) {
            return false;
        }
        left = rest;
    }
    words.split_first().is_some()
}

/// Adds a word to the names of a class, if it is a name, and returns whether it stood there. After an answer out of memory
/// the table is of no use.
pub fn add_word<'t>(table: &mut NameTable<'t>, lexeme: Lexeme<'t>) -> Result<bool, OutOfMemory>
    ensures { IfOk result (HasAdded table.old table.new (names_in (word_of lexeme.entry ∷ []))) }
{
    table.stands_once();
    match lexeme {
        Lexeme::Name(name) => Ok(!table.add(name)?),
        _ => Ok(false),
    }
}

/// Adds the names among words to those of a class, and returns whether one stood there or stands
/// twice. After an answer out of memory the table is of no use: it has those before the one that was refused.
pub fn add_names<'t>(table: &mut NameTable<'t>, words: &Words<'t>) -> Result<bool, OutOfMemory>
    ensures { IfOk result (HasAdded table.old table.new (names_in words.now)) }
{
    table.stands_once();
    let mut left = words.reborrow();
    let mut twice = false;
    while let Some((lexeme, rest)) = left.split_first() {
        twice |= add_word(table, lexeme)?;
        left = rest;
    }
    Ok(twice)
}

// Adds words to the names of a class, and returns whether one stood there or stands twice; nothing where there are none,
// or one may not be declared. The table is of no use then, nor after an answer out of memory.
fn add_free<'t>(table: &mut NameTable<'t>, words: &Words<'t>) -> Result<Option<bool>, OutOfMemory>
    ensures { IfOk result (λ o. MatchOption o (is_some (names_of words.now) ≡ false)
        (λ twice. (is_some (names_of words.now) ≡ true)
        × HasAdded table.old table.new (names_in words.now) twice)) }
{
    table.stands_once();
    let mut left = words.reborrow();
    let mut twice = false;
    while let Some((lexeme, rest)) = left.split_first() {
        if !is_free(lexeme) {
            return Ok(None);
        }
        twice |= add_word(table, lexeme)?;
        left = rest;
    }
    match words.split_first() {
        Some(_) => Ok(Some(twice)),
        None => Ok(None),
    }
}

/// Declares the names of the words behind the word of a class, of which there may be so many, or
/// tells the kind by which they are refused.
pub(crate) fn declare<'t>(
    table: &mut NameTable<'t>,
    most: usize,
    words: &Words<'t>,
) -> Result<Option<Kind>, OutOfMemory>
    ensures kind { IfOk result (λ k. k ≡ kind_of_names table.old most (names_of words.now)) }
    ensures declares { IfOk result (λ k. IfNone k (Declares table.old table.new words.now)) }
{
    table.stands_once();
    let Some(twice) = add_free(table, words)? else {
        return Ok(Some(Kind::Form));
    };
    if twice {
        return Ok(Some(Kind::Twice));
    }
    if table.len() > most {
        return Ok(Some(Kind::Count));
    }
    Ok(None)
}

/// Adds the symbols that a line declares, if it is a line of symbols.
pub(crate) fn symbols_on<'t>(table: &mut NameTable<'t>, line: &'t [u8]) -> Result<(), OutOfMemory>
    ensures { IfOk result (λ _. table.new ≡ once (table.old ++ declared_on Symbols line.now)) }
{
    table.stands_once();
    let Some((first, words)) = line_front(line) else {
        return Ok(());
    };
    if !is_name(first, b"symbols") {
        return Ok(());
    }
    if !are_names(&words) {
        return Ok(());
    }
    add_names(table, &words)?;
    Ok(())
}
