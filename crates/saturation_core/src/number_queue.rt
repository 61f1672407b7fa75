ghost use Rattle.std.specs.Prelude.{◌≡◌, ◌<◌, ◌≤◌, ◌+◌, ◌^◌, ℕ, Bool, false, drop, length, slice_index_or, slice_set, MatchOption, IfSome, OnOk, ◌∷◌, []};
ghost use Rattle.saturation_core.specs.private.Numbers.{enqueued};

use std::alloc::Global;
use std::collections::VecDeque;
use std::marker::Model;
use wpds_base::OutOfMemory;

/// Numbers that wait, none of them twice, longest first. Whether one waits is a mark, and none is looked up.
#[derive(Drop)]
pub(crate) struct NumberQueue {
    numbers: VecDeque<u32>,
    // By number.
    waits: Vec<bool>,
}

impl Model for NumberQueue {
    ghost use Rattle.std.specs.Prelude.{◌-◌, ◌^◌, ◌≤◌, length};
    ghost use Rattle.std.specs.VecDeque.{deque_len, deque_capacity};
    ghost use Rattle.saturation_core.specs.private.Numbers.{WaitingNumbers, AreMarked};

    ghost Value = { WaitingNumbers };

    ghost view = { λ q. record {
      numbers = q.numbers.items;
      spare = deque_capacity q.numbers - deque_len q.numbers;
      marks = length q.waits.items;
    } };

    ghost invariant = { λ q. AreMarked q.numbers.items q.waits.items
        × (length q.waits.items ≤ 2 ^ 32) };
}

// Whether a number is marked. Past the marks none is.
fn is_marked(waits: &[bool], k: u64) -> bool
    ensures { result ≡ slice_index_or waits.now k false }
{
    let at = k as usize;
    if at < waits.len() { waits[at] } else { false }
}

// Sets a mark, where there is one.
fn set_mark(waits: &mut Vec<bool>, k: u64, to: bool)
    ensures { waits.new.items ≡ slice_set waits.old.items k to }
{
    let at = k as usize;
    if at < waits.len() {
        waits[at] = to;
    }
}

// Makes marks for the numbers below `count`. There are at most 2^32.
fn make_marks(waits: &mut Vec<bool>, count: u64) -> Result<(), OutOfMemory>
    requires { length waits.old.items ≤ 2 ^ 32 }
    ensures same { (k : ℕ) → slice_index_or waits.new.items k false
        ≡ slice_index_or waits.old.items k false }
    ensures made { OnOk result (count ≤ length waits.new.items) }
    ensures kept { length waits.old.items ≤ length waits.new.items }
    ensures limit { length waits.new.items ≤ 2 ^ 32 }
{
    if count > 1 << 32 {
        return Err(OutOfMemory);
    }
    let count = count as usize;
    if count > waits.len() {
        waits.resize(count, false)?;
    }
    Ok(())
}

impl NumberQueue {
    /// No number waits, and there is no room. It takes no memory.
    pub(crate) fn new(alloc: Global) -> NumberQueue
        ensures { result.numbers ≡ [] }
    {
        NumberQueue {
            numbers: VecDeque::new(alloc),
            waits: Vec::new(alloc),
        }
    }

    /// The number that waits longest.
    pub(crate) fn front(&self) -> Option<u32>
        ensures { MatchOption result (self.now.numbers ≡ [])
            (λ k. self.now.numbers ≡ k ∷ drop 1 self.now.numbers) }
    {
        self.numbers.front().copied()
    }

    /// Takes the number that waits longest.
    pub(crate) fn pop(&mut self) -> Option<u32>
        ensures number { MatchOption result
            ((self.old.numbers ≡ []) × (self.new.numbers ≡ self.old.numbers))
            (λ k. self.old.numbers ≡ k ∷ self.new.numbers) }
        ensures spare { IfSome result (λ _. self.old.spare + 1 ≤ self.new.spare) }
        ensures marks { self.new.marks ≡ self.old.marks }
    {
        let number = self.numbers.pop_front()?;
        set_mark(&mut self.waits, u64::from(number), false);
        Some(number)
    }

    /// Puts a number last, unless it waits. It takes no memory.
    pub(crate) fn enqueue(&mut self, k: u64)
        requires mark { k < self.old.marks }
        requires spare { 0 < self.old.spare }
        ensures numbers { self.new.numbers ≡ enqueued k self.old.numbers }
        ensures spare { self.old.spare ≤ self.new.spare + 1 }
        ensures marks { self.new.marks ≡ self.old.marks }
    {
        if is_marked(&self.waits, k) {
            return;
        }
        set_mark(&mut self.waits, k, true);
        self.numbers.push_back_reserved(k as u32);
    }

    /// Makes room for so many numbers more, and marks for those below `count`. Only the room changes.
    pub(crate) fn reserve(&mut self, more: usize, count: u64) -> Result<(), OutOfMemory>
        ensures numbers { self.new.numbers ≡ self.old.numbers }
        ensures ok { OnOk result (more ≤ self.new.spare) }
        ensures kept { self.old.spare ≤ self.new.spare }
        ensures marks { OnOk result (count ≤ self.new.marks) }
        ensures marks_kept { self.old.marks ≤ self.new.marks }
    {
        self.numbers.reserve(more)?;
        make_marks(&mut self.waits, count)
    }
}
