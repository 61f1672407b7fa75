ghost use Rattle.std.specs.Prelude.{◌≡◌};
ghost use Rattle.wpds_port.specs.Words.{word_of};
ghost use Rattle.truth_tables.specs.Grammar.{is_variable_word};

use wpds_port::Lexeme;

/// Whether a word of an expression is a variable: a name other than `tab2` and `tab3`.
pub fn is_variable(lexeme: Lexeme) -> bool
    ensures { result ≡ is_variable_word (word_of lexeme.entry) }
{
    match lexeme {
        Lexeme::Name(name) => name != b"tab2".as_slice() && name != b"tab3".as_slice(),
        _ => false,
    }
}
