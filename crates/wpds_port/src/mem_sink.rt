ghost use Rattle.std.specs.Prelude.{◌≡◌, ◌≤◌, ◌<◌, ◌⊎◌, [], Some, MatchResult, IfOk, OnOk, OnErr, min, length, take};
ghost use Rattle.std.specs.Io.KnownBytes.{WriteAppends, Keeps};
ghost use Rattle.wpds_port.specs.Causes.{HasCause};
ghost use Rattle.wpds_port.specs.Memory.{MemoryOutput, FailsNext, HasRoomFor, LacksRoomFor, taken_count, after_write, after_flush, after_failure};

use crate::fault_plan::FaultPlan;
use crate::{Failed, OutOfMemory, Sink};
use std::alloc::Global;
use std::marker::Model;

/// A sink that keeps its bytes in memory, takes a few at a time, and fails at the calls that it is told.
///
/// It has made its room from the start, so no call of it takes memory.
#[derive(Drop)]
pub struct MemSink {
    bytes: Vec<u8>,
    room: usize,
    piece: usize,
    plan: FaultPlan,
}

impl Model for MemSink {
    ghost use Rattle.std.specs.Prelude.{◌≤◌, length, vec_capacity};
    ghost use Rattle.wpds_port.specs.Memory.{MemoryOutput};

    ghost Value = { MemoryOutput };

    ghost view = { λ s. record {
      written = s.bytes.items;
      room = s.room;
      piece = s.piece;
      calls = s.plan;
    } };

    ghost invariant = { λ s.
        (length s.bytes.items ≤ s.room) × (s.room ≤ vec_capacity s.bytes) × (1 ≤ s.piece) };
}

impl MemSink {
    /// A sink that takes `room` bytes in all, `piece` at a time. The calls of the numbers in `fails`,
    /// from 0, fail; writes and flushes are counted together. After an answer out of memory `fails` is gone.
    pub fn new(
        alloc: Global,
        room: usize,
        piece: usize,
        fails: Vec<u64>,
    ) -> Result<MemSink, OutOfMemory>
        requires { 1 ≤ piece }
        ensures { IfOk result (λ s. s ≡ record {
          written = [];
          room = room;
          piece = piece;
          calls = record { fails = fails.items; made = 0; faults = 0 };
        }) }
    {
        let bytes = Vec::with_capacity(alloc, room)?;
        Ok(MemSink {
            bytes,
            room,
            piece,
            plan: FaultPlan::new(fails),
        })
    }

    /// The bytes that were written so far.
    pub fn written(&self) -> &[u8]
        ensures { result.now ≡ self.now.written }
    {
        self.bytes.as_slice()
    }
}

impl Sink for MemSink {
    ghost written = { λ s. Some s.written };

    ghost faults = { λ s. s.calls.faults };

    fn write(&mut self, piece: &[u8]) -> Result<usize, Failed>
        ensures bound { IfOk result (λ n. n ≤ length piece.now) }
        ensures some { IfOk result (λ n. 0 < length piece.now → 0 < n) }
        ensures bytes { WriteAppends
            (Some self.old.written) (Some self.new.written) result piece.now }
        ensures cause { HasCause self.old.calls.faults self.new.calls.faults result }
        ensures outcome { MatchResult result
            (λ _. (¬ FailsNext self.old.calls) × HasRoomFor self.old (length piece.now))
            (λ _. FailsNext self.old.calls ⊎ LacksRoomFor self.old (length piece.now)) }
        ensures count { IfOk result (λ n. n ≡ taken_count self.old (length piece.now)) }
        ensures taken { IfOk result (λ n. self.new ≡ after_write self.old (take n piece.now)) }
        ensures failed { OnErr result (self.new ≡ after_failure self.old) }
    {
        let count = self.piece.min(piece.len());
        if self.plan.call() || count > self.room - self.bytes.len() {
            return Err(self.plan.fail());
        }
        self.bytes.extend_from_slice(&piece[..count]).unwrap();
        Ok(count)
    }

    fn flush(&mut self) -> Result<(), Failed>
        ensures bytes { Keeps (Some self.old.written) (Some self.new.written) }
        ensures cause { HasCause self.old.calls.faults self.new.calls.faults result }
        ensures outcome { MatchResult result
            (λ _. ¬ FailsNext self.old.calls) (λ _. FailsNext self.old.calls) }
        ensures flushed { OnOk result (self.new ≡ after_flush self.old) }
        ensures failed { OnErr result (self.new ≡ after_failure self.old) }
    {
        if self.plan.call() {
            return Err(self.plan.fail());
        }
        Ok(())
    }
}
