ghost use Rattle.std.specs.Prelude.{◌≡◌, ◌≤◌, ◌↔◌, IsTrue};
ghost use Rattle.wpds_port.specs.Memory.{Calls, FailsNext, one_call_more, one_fault_more};

use crate::Failed;
use std::marker::Model;

/// Which calls of an object in memory fail, how many were made and how many failed.
///
/// Calls are numbered from 0. Each call past the first `u64::MAX` has the number `u64::MAX`.
#[derive(Drop)]
pub(crate) struct FaultPlan {
    fails: Vec<u64>,
    made: u64,
    faults: u64,
}

impl Model for FaultPlan {
    ghost use Rattle.std.specs.Prelude.{◌<◌, ◌^◌};
    ghost use Rattle.wpds_port.specs.Memory.{Calls};

    ghost Value = { Calls };

    ghost view = { λ p. record { fails = p.fails.items; made = p.made; faults = p.faults } };
}

impl FaultPlan {
    /// No call was made yet.
    pub(crate) fn new(fails: Vec<u64>) -> FaultPlan
        ensures { result ≡ record { fails = fails.items; made = 0; faults = 0 } }
    {
        FaultPlan {
            fails,
            made: 0,
            faults: 0,
        }
    }

    /// Counts a call, and says whether it is one of those that fail.
    pub(crate) fn call(&mut self) -> bool
        ensures answer { IsTrue result ↔ FailsNext self.old }
        ensures counted { self.new ≡ one_call_more self.old }
    {
        let number = self.made;
        self.made = number.saturating_add(1);
        self.fails.contains(&number)
    }

    /// Counts a failure.
    pub(crate) fn fail(&mut self) -> Failed
        ensures counted { self.new ≡ one_fault_more self.old }
        ensures later { self.old.faults ≤ self.new.faults }
    {
        self.faults = self.faults.saturating_add(1);
        Failed
    }
}
