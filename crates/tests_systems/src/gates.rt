use std::array;
use std::sync::atomic::{AtomicU64, Ordering};
use wpds_base::Gate;

// How often the first caller looks for another.
const MOST_LOOKS: u64 = 1_000_000_000;

// How often a caller that is held at a relay looks for the next call: many are held, and none of them may be given up too soon.
const MOST_RELAY_LOOKS: u64 = 10_000_000_000;

/// Counts the calls of each seat, holds its first caller until another seat has called it, and notes whether that happened.
#[derive(Drop)]
pub struct MeetingGate {
    calls: [AtomicU64; 64],
    // A bit for each seat that has called.
    callers: AtomicU64,
    meetings: AtomicU64,
}

impl MeetingGate {
    /// A gate that nobody has called.
    pub fn new() -> MeetingGate {
        MeetingGate {
            calls: array::from_fn(|_| AtomicU64::new(0)),
            callers: AtomicU64::new(0),
            meetings: AtomicU64::new(0),
        }
    }

    /// Whether the first caller was still held when another seat called.
    pub fn have_met(&self) -> bool {
        self.meetings.load(Ordering::SeqCst) > 0
    }

    /// How often this seat has called.
    pub fn calls_of(&self, seat: u32) -> u64 {
        match self.calls.get(seat as usize) {
            Some(calls) => calls.load(Ordering::SeqCst),
            None => 0,
        }
    }
}

impl Gate for MeetingGate {
    fn between(&self, seat: u32) {
        if let Some(calls) = self.calls.get(seat as usize) {
            calls.fetch_add(1, Ordering::SeqCst);
        }
        let own = 1u64 << (seat % 64);
        if self.callers.fetch_or(own, Ordering::SeqCst) != 0 {
            return;
        }
        for _ in 0..MOST_LOOKS {
            if self.callers.load(Ordering::SeqCst) != own {
                self.meetings.fetch_add(1, Ordering::SeqCst);
                return;
            }
        }
    }
}

/// Holds its caller at each of its first calls, or at every second of them, or third and so on, until it is called again, which
/// another seat must do. It notes whether it has held one in vain, and holds nobody from then on.
#[derive(Drop)]
pub struct RelayGate {
    every: u64,
    first: u64,
    calls: AtomicU64,
    relays: AtomicU64,
    in_vain: AtomicU64,
}

impl RelayGate {
    /// A gate that nobody has called. Of so many first calls it holds those whose number, from 0, `every` divides.
    pub fn new(every: u64, first: u64) -> RelayGate {
        RelayGate {
            every,
            first,
            calls: AtomicU64::new(0),
            relays: AtomicU64::new(0),
            in_vain: AtomicU64::new(0),
        }
    }

    /// How many callers were held until it was called again.
    pub fn relays(&self) -> u64 {
        self.relays.load(Ordering::SeqCst)
    }

    /// Whether a caller was held in vain.
    pub fn has_held_in_vain(&self) -> bool {
        self.in_vain.load(Ordering::SeqCst) > 0
    }

    // Whether the caller with a number is held.
    fn holds(&self, call: u64) -> bool {
        call < self.first && call.is_multiple_of(self.every) && !self.has_held_in_vain()
    }
}

impl Gate for RelayGate {
    fn between(&self, _seat: u32) {
        let call = self.calls.fetch_add(1, Ordering::SeqCst);
        if !self.holds(call) {
            return;
        }
        for _ in 0..MOST_RELAY_LOOKS {
            if self.calls.load(Ordering::SeqCst) > call.saturating_add(1) {
                self.relays.fetch_add(1, Ordering::SeqCst);
                return;
            }
        }
        self.in_vain.fetch_add(1, Ordering::SeqCst);
    }
}

/// Counts its calls.
#[derive(Drop)]
pub struct CountingGate {
    calls: AtomicU64,
}

impl CountingGate {
    /// A gate that nobody has called.
    pub fn new() -> CountingGate {
        CountingGate {
            calls: AtomicU64::new(0),
        }
    }

    /// How often it was called.
    pub fn calls(&self) -> u64 {
        self.calls.load(Ordering::SeqCst)
    }
}

impl Gate for CountingGate {
    fn between(&self, _seat: u32) {
        self.calls.fetch_add(1, Ordering::SeqCst);
    }
}
