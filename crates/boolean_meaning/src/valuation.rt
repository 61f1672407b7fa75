//! The bits of names, and the numbers that hold them.

ghost use Rattle.std.specs.Prelude.{◌≡◌, ◌+◌, ◌<◌, ◌≤◌, ◌^◌, nat_lt, [], ◌∷◌, ◌++◌, length};
ghost use Rattle.boolean_machine.specs.Picks.{listed};
ghost use Rattle.boolean_meaning.specs.Bits.{bit_of, number_of};

use std::marker::Model;

/// The bits of names, the globals first and then the names of a procedure.
#[derive(Drop)]
pub(crate) struct Valuation {
    bits: [bool; 24],
    len: usize,
}

impl Model for Valuation {
    ghost use Rattle.std.specs.Prelude.{List, Bool, take, ◌≤◌};

    ghost Value = { List Bool };

    ghost view = { λ v. take v.len v.bits };

    ghost invariant = { λ v. v.len ≤ 24 };
}

impl Valuation {
    /// No bits.
    pub(crate) fn new() -> Valuation
        ensures { result ≡ [] }
    {
        Valuation {
            bits: [false; 24],
            len: 0,
        }
    }

    /// These bits.
    pub(crate) fn from_slice(bits: &[bool]) -> Valuation
        requires { length bits.now ≤ 24 }
        ensures { result ≡ bits.now }
    {
        let mut all = Valuation::new();
        for bit in bits {
            all.push(*bit);
        }
        all
    }

    /// Adds a bit behind the others.
    pub(crate) fn push(&mut self, bit: bool)
        requires { length self.old < 24 }
        ensures { self.new ≡ self.old ++ bit ∷ [] }
    {
        self.bits[self.len] = bit;
        self.len += 1;
    }

    /// Adds the lowest bits of a number.
    pub(crate) fn push_bits(&mut self, number: u32, count: usize)
        requires { length self.old + count ≤ 24 }
        ensures { self.new ≡ self.old ++ listed count (bit_of number) }
    {
        let mut number = number;
        let mut count = count;
        while count > 0 {
            self.push(number % 2 == 1);
            number /= 2;
            count -= 1;
        }
    }

    /// The bits.
    pub(crate) fn as_slice(&self) -> &[bool]
        ensures { result.now ≡ self.now }
    {
        &self.bits[..self.len]
    }
}

/// The bits of globals and of the names of a procedure.
pub(crate) fn bits_of_names(
    globals: u32,
    global_count: usize,
    locals: u32,
    local_count: usize,
) -> Valuation
    requires { global_count + local_count ≤ 24 }
    ensures { result
        ≡ listed global_count (bit_of globals) ++ listed local_count (bit_of locals) }
{
    let mut bits = Valuation::new();
    bits.push_bits(globals, global_count);
    bits.push_bits(locals, local_count);
    bits
}

/// The number whose lowest bits these are, the others being 0.
pub(crate) fn number_of(bits: &[bool]) -> u32
    requires { length bits.now ≤ 24 }
    ensures { result ≡ number_of bits.now }
{
    match bits.split_first() {
        None => 0,
        Some((bit, others)) => u32::from(*bit) + 2 * number_of(others),
    }
}

/// Whether all bits of a number from this one on are 0.
pub(crate) fn fits(number: u32, count: usize) -> bool
    requires { count ≤ 24 }
    ensures { result ≡ nat_lt number (2 ^ count) }
{
    number >> count == 0
}
