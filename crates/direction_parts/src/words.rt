ghost use Rattle.std.specs.Prelude.{◌≡◌};
ghost use Rattle.direction_parts.specs.Passes.{one_symbol, two_symbols};

/// The symbol of a word of one.
pub fn one_symbol(word: &[u32]) -> Option<u32>
    ensures { result ≡ one_symbol word.now }
{
    if word.len() != 1 {
        return None;
    }
    Some(word[0])
}

/// The symbols of a word of two.
pub fn two_symbols(word: &[u32]) -> Option<(u32, u32)>
    ensures { result ≡ two_symbols word.now }
{
    if word.len() != 2 {
        return None;
    }
    Some((word[0], word[1]))
}
