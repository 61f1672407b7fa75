ghost use Rattle.std.specs.Prelude.{◌≡◌};
ghost use Rattle.direction_parts.specs.Merges.{lower_of};

/// The lower of the numbers of two rules, where there is one.
pub fn lower_rule(a: Option<u32>, b: Option<u32>) -> Option<u32>
    ensures { result ≡ lower_of a b }
{
    match a {
        Some(x) => match b {
            Some(y) => if x < y { Some(x) } else { Some(y) },
            None => Some(x),
        },
        None => b,
    }
}

/// The lower of the places of two transitions in a list, where there is one.
pub fn lower_index(a: Option<u64>, b: Option<u64>) -> Option<u64>
    ensures { result ≡ lower_of a b }
{
    match a {
        Some(x) => match b {
            Some(y) => if x < y { Some(x) } else { Some(y) },
            None => Some(x),
        },
        None => b,
    }
}
