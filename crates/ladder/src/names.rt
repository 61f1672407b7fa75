ghost use Rattle.std.specs.Prelude.{◌≡◌, ◌++◌, ◌∷◌, [], IfOk, OnOk, codes, decimal};
ghost use Rattle.ladder.specs.Ladders.{rung_symbols, symbols_from};

use itoa::Buffer;
use std::alloc::Global;
use wpds_base::{OutOfMemory, Sequence};
use wpds_port::Text;

// A letter and the number of a rung.
fn name(alloc: Global, letter: &str, rung: u32) -> Result<Text, OutOfMemory>
    ensures { IfOk result (λ t. t ≡ letter.now ++ decimal rung) }
{
    let mut bytes = Vec::new(alloc);
    bytes.extend_from_slice(letter.as_bytes())?;
    bytes.extend_from_slice(Buffer::new().format(rung).as_bytes())?;
    Ok(Text::from_vec(bytes))
}

// Adds the symbols of a rung.
fn push_rung(alloc: Global, names: &mut Vec<Text>, rung: u32) -> Result<(), OutOfMemory>
    ensures { OnOk result (names.new.items ≡ names.old.items ++ rung_symbols rung) }
{
    names.push(name(alloc, "e", rung)?)?;
    names.push(name(alloc, "m", rung)?)?;
    names.push(name(alloc, "x", rung)?)?;
    Ok(())
}

/// The symbols of so many rungs, and the entry behind them.
pub(crate) fn symbols(alloc: Global, rungs: u32) -> Result<Sequence<Text>, OutOfMemory>
    ensures { IfOk result (λ names. names ≡ symbols_from 0 rungs) }
{
    let mut names = Vec::new(alloc);
    for rung in 0..rungs {
        push_rung(alloc, &mut names, rung)?;
    }
    names.push(name(alloc, "e", rungs)?)?;
    Ok(Sequence::from_vec(names))
}

/// The one control.
pub(crate) fn controls(alloc: Global) -> Result<Sequence<Text>, OutOfMemory>
    ensures { IfOk result (λ names. names ≡ codes "p" ∷ []) }
{
    let mut names = Vec::new(alloc);
    names.push(Text::of(alloc, b"p")?)?;
    Ok(Sequence::from_vec(names))
}
