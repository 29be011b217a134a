//! What the part of a call that its caller's thread does itself sees of the threads that start.
use std::sync::atomic::{AtomicU64, Ordering};
use std::thread::sleep;
use std::time::Duration;
use test_support::processes::{last_number, own_number};

/// The part of a call that runs on its caller's thread.
#[derive(Drop)]
pub struct OwnPart {
    caller: u64,
    last: AtomicU64,
}

impl OwnPart {
    /// The part of a call that this thread makes.
    pub fn of(rt: &HostRuntime) -> OwnPart {
        OwnPart {
            caller: own_number(rt),
            last: AtomicU64::new(0),
        }
    }

    /// Notes what number was given last, where this is the first closure on the caller's thread.
    /// Another thread waits for that one, so that it leaves the caller its part.
    pub fn see(&self, rt: &HostRuntime) {
        if self.last.load(Ordering::SeqCst) > 0 {
            return;
        }
        if own_number(rt) == self.caller {
            self.last.store(last_number(rt), Ordering::SeqCst);
            return;
        }
        self.wait(rt);
    }

    // Waits asleep, so that many who wait don't keep the caller from its part.
    fn wait(&self, rt: &HostRuntime) {
        for _ in 0..1000u32 {
            if self.last.load(Ordering::SeqCst) > 0 {
                return;
            }
            sleep(rt, Duration::from_millis(1));
        }
    }

    /// How many threads had been started by then, of all that were since that number; none where no
    /// closure ran on the caller's thread. Behind the greatest number Linux begins anew: many,
    /// then.
    pub fn started_since(&self, before: u64) -> u64 {
        match self.last.load(Ordering::SeqCst) {
            0 => 0,
            last => last.wrapping_sub(before),
        }
    }
}
