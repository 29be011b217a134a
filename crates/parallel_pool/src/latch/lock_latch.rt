//! A latch under a lock, for a thread that has nothing else to do than wait.
use std::sync::{Condvar, Mutex, Wait};

/// A latch that threads sleep on until it is set. It may be used again after `wait_and_reset`.
///
/// What lies under a lock is known by its type alone, so no contract says whether the latch is set.
#[derive(Drop)]
pub struct LockLatch {
    is_set: Mutex<bool>,
    changed: Condvar,
}

impl LockLatch {
    /// A latch that isn't set.
    pub fn new() -> LockLatch {
        LockLatch {
            is_set: Mutex::new(false),
            changed: Condvar::new(),
        }
    }

    /// Waits until the latch is set, and leaves it unset, for one more use.
    pub fn wait_and_reset<R: Wait>(&self, rt: &R) {
        let mut is_set = self
            .changed
            .wait_while(rt, self.is_set.lock(rt), |is_set| !*is_set);
        *is_set = false;
    }

    /// Waits until the latch is set, and leaves it set.
    pub fn wait<R: Wait>(&self, rt: &R) {
        let _is_set = self
            .changed
            .wait_while(rt, self.is_set.lock(rt), |is_set| !*is_set);
    }

    /// Sets the latch and wakes all that wait for it.
    pub fn set<R: Wait>(&self, rt: &R) {
        let mut is_set = self.is_set.lock(rt);
        *is_set = true;
        self.changed.notify_all();
    }
}
