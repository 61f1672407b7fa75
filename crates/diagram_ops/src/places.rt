ghost use Rattle.std.specs.Prelude.{◌≡◌, ◌<◌, ℕ, None, Some, IfOk, cond, nat_eq, length};
ghost use Rattle.diagram_ops.specs.private.Places.{placed};

use std::alloc::Global;
use std::marker::Model;
use wpds_base::OutOfMemory;

/// A number above 0 at some of the references below a count.
#[derive(Drop)]
pub(crate) struct Places {
    // 0 where none stands
    numbers: Vec<u64>,
}

impl Model for Places {
    ghost use Rattle.std.specs.Prelude.{ℕ, List};

    ghost Value = { List ℕ };

    ghost view = { λ p. p.numbers.items };
}

impl Places {
    /// No number at any of so many references.
    pub(crate) fn new(alloc: Global, count: usize) -> Result<Places, OutOfMemory>
        ensures none { IfOk result (λ p. (k : ℕ) → placed p k ≡ None) }
        ensures count { IfOk result (λ p. length p ≡ count) }
    {
        let mut numbers = Vec::new(alloc);
        numbers.resize(count, 0)?;
        Ok(Places { numbers })
    }

    /// The number that stands at a reference.
    pub(crate) fn get(&self, reference: u64) -> Option<u64>
        requires { reference < length self.now }
        ensures { result ≡ placed self.now reference }
    {
        match self.numbers[reference as usize] {
            0 => None,
            number => Some(number),
        }
    }

    /// Puts a number at a reference, in place of the one that stands there.
    pub(crate) fn put(&mut self, reference: u64, number: u64)
        requires within { reference < length self.old }
        requires number { 0 < number }
        ensures placed { (k : ℕ) → placed self.new k
            ≡ cond (nat_eq reference k) (Some number) (placed self.old k) }
        ensures count { length self.new ≡ length self.old }
    {
        self.numbers[reference as usize] = number;
    }
}
