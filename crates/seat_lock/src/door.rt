//! The door to the tickets, before which sleeps who wants a turn while another has one. Nothing is proved of it.
use std::sync::Wait;
use std::sync::atomic::{AtomicU64, Ordering};

// How many a waiter lets leave at most before it is woken anew.
const MOST_SPARED: u64 = 63;

/// Lets one pass in at a time, so that a ticket is served as soon as it is drawn. A door that let in two would cost time alone:
/// that one turn ends before the next begins is the tickets' part.
///
/// Who comes while nobody is in goes in, also past those that sleep. So a pass that comes back soon waits for none of them to be
/// awake, where handing each turn to the one that waited longest would cost a sleep and a waking for each turn. And a waiter
/// that was woken and found somebody in again lets more of those leave that will come back before it is woken anew: one, then
/// three, then seven, up to a limit.
///
/// No waking is lost. Before it sleeps a waiter is counted, reads the rings, says that nobody is on the way, and then looks
/// whether the door is free, in this order. If it is not, whoever is in leaves later and sees it counted. Who calls nobody then
/// comes back, or calls later. Where a caller finds nobody on the way, it rings, and the waiter does not sleep or is woken, or
/// another waiter is, who goes in and leaves later still. Where a caller finds somebody on the way, another said so after the
/// waiter had read the rings, and rings after that.
#[derive(Drop)]
pub(crate) struct Door {
    // 1 while somebody is in.
    is_in: AtomicU64,
    // How many wait to go in.
    waiting: AtomicU64,
    // 1 where one of them was woken and has not come yet.
    is_coming: AtomicU64,
    // How many of those that will come back may still leave and call nobody.
    spared: AtomicU64,
    rings: AtomicU64,
}

impl Door {
    pub(crate) fn new() -> Door {
        Door {
            is_in: AtomicU64::new(0),
            waiting: AtomicU64::new(0),
            is_coming: AtomicU64::new(0),
            spared: AtomicU64::new(0),
            rings: AtomicU64::new(0),
        }
    }

    // Goes in where nobody is in.
    fn goes_in(&self) -> bool {
        self.is_in.swap(1, Ordering::SeqCst) == 0
    }

    /// Goes in, and sleeps while somebody is in.
    pub(crate) fn enter<H: Wait>(&self, rt: &H) {
        if self.goes_in() {
            return;
        }
        self.waiting.fetch_add(1, Ordering::SeqCst);
        self.wait(rt);
        self.waiting.fetch_sub(1, Ordering::SeqCst);
    }

    // Sleeps until it can go in, and goes in.
    fn wait<H: Wait>(&self, rt: &H) {
        let mut spared = 0;
        for _ in rt.forever() {
            let rings = self.rings.load(Ordering::SeqCst);
            self.is_coming.store(0, Ordering::SeqCst);
            self.spared.store(spared, Ordering::SeqCst);
            if self.goes_in() {
                return;
            }
            self.rings.park(rt, (rings % (1 << 32)) as u32);
            spared = 2 * spared.min(MOST_SPARED / 2) + 1;
        }
        unreachable!()
    }

    /// Wakes one of those that wait, unless one was woken and has not come yet.
    pub(crate) fn call(&self) {
        if self.waiting.load(Ordering::SeqCst) == 0 {
            return;
        }
        if self.is_coming.swap(1, Ordering::SeqCst) == 0 {
            self.rings.fetch_add(1, Ordering::SeqCst);
            self.rings.wake_one();
        }
    }

    /// Leaves, and calls the next one. Who will come back, or call later, lets it sleep as long as those that wait ask for that.
    pub(crate) fn leave(&self, comes_back: bool) {
        self.is_in.store(0, Ordering::SeqCst);
        let spared = self.spared.load(Ordering::SeqCst);
        if comes_back && spared > 0 {
            self.spared.store(spared - 1, Ordering::SeqCst);
            return;
        }
        self.call();
    }
}
