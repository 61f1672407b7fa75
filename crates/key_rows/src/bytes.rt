ghost use Rattle.std.specs.Prelude.{◌≡◌, ◌≤◌, ◌+◌, length, take, drop, bytes_eq};
ghost use Rattle.std.specs.Int.{w64, from_le_bytes, to_le_bytes};
ghost use Rattle.key_rows.specs.Keys.{spelled, bytes_spread};
ghost use Rattle.key_rows.specs.KeyLaws.{bytes_alike};

use crate::key::{Key, mixed, mixed_word};
use crate::keyed::Keyed;

// The eight bytes from a place on, as one word.
#[inline(always)]
fn word_at(bytes: &[u8], i: usize) -> u64
    requires { i + 8 ≤ length bytes.now }
    ensures word { result ≡ from_le_bytes w64 (take 8 (drop i bytes.now)) }
    ensures bytes { to_le_bytes w64 result ≡ take 8 (drop i bytes.now) }
{
    u64::from_le_bytes([
        bytes[i],
        bytes[i + 1],
        bytes[i + 2],
        bytes[i + 3],
        bytes[i + 4],
        bytes[i + 5],
        bytes[i + 6],
        bytes[i + 7],
    ])
}

// The bytes from a place on, fewer than eight, as one word behind a 1, so that each zero counts.
#[inline(always)]
fn rest_at(bytes: &[u8], start: usize) -> u64
    ensures { result ≡ spelled 1 (drop start bytes.now) }
{
    let mut word: u64 = 1;
    for i in start..bytes.len() {
        word = word.wrapping_mul(256).wrapping_add(u64::from(bytes[i]));
    }
    word
}

// Whether the bytes from a place on are the same, of as many on both sides.
#[inline(always)]
fn same_rest(a: &[u8], b: &[u8], start: usize) -> bool
    requires { length a.now ≡ length b.now }
    ensures { result ≡ bytes_eq (drop start a.now) (drop start b.now) }
{
    for i in start..a.len() {
        if a[i] != b[i] {
            return false;
        }
    }
    true
}

// Whether the bytes are the same, eight at a time. Of the few bytes of most names this tells sooner than `==`.
fn same_bytes(a: &[u8], b: &[u8]) -> bool
    ensures { result ≡ bytes_eq a.now b.now }
{
    if a.len() != b.len() {
        return false;
    }
    let words = a.len() / 8;
    for k in 0..words {
        if word_at(a, 8 * k) != word_at(b, 8 * k) {
            return false;
        }
    }
    same_rest(a, b, 8 * words)
}

impl<'t> Key for &'t [u8] {
    ghost spread = { bytes_spread };

    fn spread(self, round: u64) -> u64 {
        let words = self.len() / 8;
        let mut hash = mixed(round, 1);
        for k in 0..words {
            hash = mixed_word(hash, word_at(self, 8 * k));
        }
        mixed_word(hash, rest_at(self, 8 * words))
    }

    fn is_key(self, other: &'t [u8]) -> bool {
        same_bytes(self, other)
    }

    ghost alike = { bytes_alike };
}

impl<'t> Keyed<&'t [u8]> for &'t [u8] {
    ghost key_of = { λ slice. slice };

    fn key(&self) -> &'t [u8] {
        *self
    }
}
