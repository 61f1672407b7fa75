ghost use Rattle.std.specs.Prelude.{◌≡◌, ◌∷◌, false, MatchOption};
ghost use Rattle.wpds_port.specs.Words.{word_of};
ghost use Rattle.wpds_port.specs.declared.Word.TheVariants.{Name};
ghost use Rattle.truth_tables.specs.Texts.{is_name as is_name_of};
ghost use Rattle.rule_reader.specs.Names.{begins_with_name};
ghost use Rattle.rule_reader.specs.private.Returns.{is_any_name as is_any_name_of};

use wpds_port::{Lexeme, Words};

/// Whether the word is this name.
pub fn is_name(lexeme: Lexeme, name: &[u8]) -> bool
    ensures { result ≡ is_name_of name.now (word_of lexeme.entry) }
{
    match lexeme {
        Lexeme::Name(bytes) => name == bytes,
        _ => false,
    }
}

/// Whether the word is some name.
pub(crate) fn is_any_name(lexeme: Lexeme) -> bool
    ensures { result ≡ is_any_name_of (word_of lexeme.entry) }
{
    matches!(lexeme, Lexeme::Name(_))
}

/// The name with which words begin, and the words behind it.
pub fn split_name<'t>(words: &Words<'t>) -> Option<(&'t [u8], Words<'t>)>
    ensures { MatchOption result (begins_with_name words.now ≡ false)
        (λ p. words.now ≡ Name p.0.now ∷ p.1) }
{
    match words.split_first() {
        Some((Lexeme::Name(name), rest)) => Some((name, rest)),
        _ => None,
    }
}
