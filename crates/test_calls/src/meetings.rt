//! A meeting of the closures of a call.
use std::sync::atomic::{AtomicBool, AtomicUsize, Ordering};
use std::thread::yield_now;

/// A meeting of some closures of one call: each waits until that many are under way at once, or
/// for a bounded time where they never are.
#[derive(Drop)]
pub struct Meeting {
    wanted: usize,
    // For how many turns each of the first ones stays once they have met, so that one too many may
    // come.
    turns: u32,
    come: AtomicUsize,
    under_way: AtomicUsize,
    most: AtomicUsize,
    gave_up: AtomicBool,
}

impl Meeting {
    /// A meeting of that many, which goes on for that many turns once they have met.
    pub fn of(wanted: usize, turns: u32) -> Meeting {
        Meeting {
            wanted,
            turns,
            come: AtomicUsize::new(0),
            under_way: AtomicUsize::new(0),
            most: AtomicUsize::new(0),
            gave_up: AtomicBool::new(false),
        }
    }

    /// How many were under way at once, at most.
    pub fn most(&self) -> usize {
        self.most.load(Ordering::SeqCst)
    }

    /// Comes to the meeting and leaves it, but for those of whom a thousand came before.
    pub fn attend(&self) {
        if self.come.load(Ordering::SeqCst) >= 1000 {
            return;
        }
        let before = self.under_way.fetch_add(1, Ordering::SeqCst);
        self.most
            .fetch_max(before.wrapping_add(1), Ordering::SeqCst);
        let is_early = self.come.fetch_add(1, Ordering::SeqCst) < self.wanted;
        self.wait();
        if is_early {
            self.stay();
        }
        self.under_way.fetch_sub(1, Ordering::SeqCst);
    }

    // Whether nobody waits any more.
    fn is_over(&self) -> bool {
        self.most() >= self.wanted || self.gave_up.load(Ordering::SeqCst)
    }

    // Waits until all have met, for a million turns at most, each of which lets others go on.
    fn wait(&self) {
        for _ in 0..1_000_000u32 {
            if self.is_over() {
                return;
            }
            yield_now();
        }
        self.gave_up.store(true, Ordering::SeqCst);
    }

    // Stays for the turns that the meeting goes on.
    fn stay(&self) {
        for _ in 0..self.turns {
            yield_now();
        }
    }
}
