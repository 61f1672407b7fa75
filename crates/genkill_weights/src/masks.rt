ghost use Rattle.std.specs.Prelude.{◌≡◌, ◌↔◌, ◌<◌, ◌*◌, ◌||◌, ℕ, IsTrue, nat_eq};
ghost use Rattle.genkill_weights.specs.Masks.{fact, is_mask, mask_where, tabulate};
ghost use Rattle.genkill_weights.specs.Making.{is_listed};
ghost use Rattle.genkill_weights.specs.GenKill.{or_mask, gens_then, keep_then, without};

/// The facts of either mask.
pub(crate) fn either<const N: usize>(a: &[u64; N], b: &[u64; N]) -> [u64; N]
    ensures { result ≡ or_mask N a.now b.now }
{
    let mut made = [0; N];
    for i in 0..N {
        made[i] = a[i] | b[i];
    }
    made
}

/// Whether the first mask has all facts of the second.
pub(crate) fn has_all<const N: usize>(a: &[u64; N], b: &[u64; N]) -> bool
    ensures { IsTrue result ↔ (or_mask N a.now b.now ≡ a.now) }
{
    let mut missing = 0;
    for i in 0..N {
        missing |= (a[i] | b[i]) ^ a[i];
    }
    missing == 0
}

/// What two weights generate, the second with these facts kept and generated.
pub(crate) fn generated<const N: usize>(
    gens: &[u64; N],
    next_keep: &[u64; N],
    next_gens: &[u64; N],
) -> [u64; N]
    ensures { result ≡ gens_then N gens.now next_keep.now next_gens.now }
{
    let mut made = [0; N];
    for i in 0..N {
        made[i] = gens[i] & next_keep[i] | next_gens[i];
    }
    made
}

/// What two weights keep, with what they generate.
pub(crate) fn kept<const N: usize>(
    keep: &[u64; N],
    gens: &[u64; N],
    next_keep: &[u64; N],
    next_gens: &[u64; N],
) -> [u64; N]
    ensures { result ≡ keep_then N keep.now gens.now next_keep.now next_gens.now }
{
    let mut made = [0; N];
    for i in 0..N {
        made[i] = keep[i] & next_keep[i] | (gens[i] & next_keep[i] | next_gens[i]);
    }
    made
}

/// The facts of the first mask that are not in the second.
pub(crate) fn not_in<const N: usize>(a: &[u64; N], b: &[u64; N]) -> [u64; N]
    ensures { result ≡ without N a.now b.now }
{
    let mut made = [0; N];
    for i in 0..N {
        made[i] = a[i] & !b[i];
    }
    made
}

/// Whether a fact is in a mask. A mask has none beyond its words.
pub(crate) fn is_in<const N: usize>(mask: &[u64; N], number: usize) -> bool
    ensures { result ≡ fact mask.now number }
{
    let at = number / 64;
    if at >= N {
        return false;
    }
    mask[at] >> (number % 64) & 1 == 1
}

/// The mask of these facts, but for those that it has no room for.
pub(crate) fn mask_of<const N: usize>(facts: &[u32]) -> [u64; N]
    ensures { result ≡ mask_where N (is_listed facts.now) }
{
    let mut made = [0; N];
    for number in facts {
        add_fact(&mut made, *number);
    }
    made
}

// Adds a fact to a mask that has room for it.
fn add_fact<const N: usize>(mask: &mut [u64; N], number: u32)
    ensures mask { IsTrue (is_mask N mask.old) → IsTrue (is_mask N mask.new) }
    ensures facts { IsTrue (is_mask N mask.old) → (f : ℕ) → f < 64 * N →
        fact mask.new f ≡ (fact mask.old f || nat_eq number f) }
{
    let at = number as usize / 64;
    if at >= N {
        return;
    }
    mask[at] |= 1 << (number % 64);
}
