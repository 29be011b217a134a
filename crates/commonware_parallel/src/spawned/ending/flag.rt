//! Whether a job has ended, under a lock that is released before a task is woken.
ghost use Rattle.std.specs.Prelude.{◌≡◌, ◌⊎◌, true, None, IsSomeAnd};
ghost use Rattle.std.specs.Sync.Mutex.{mutex_guard_value};
ghost use Rattle.futures.specs.Poll.{OnPending};
ghost use Rattle.futures.specs.Task.{Hears, IsArmed, Keeps, Wakes};

use futures::task::{Context, Poll, Source, Waker};
use std::sync::{Mutex, MutexGuard};

/// Whether the job has ended; until then the waker of the task that asked last.
///
/// A waker wakes its task when it is dropped. It comes out by `end` alone, which takes the lock's
/// guard, and there is no flag without a lock: so none is dropped while the lock is held.
#[derive(Drop)]
pub(super) struct Flag {
    has_ended: bool,
    waker: Option<Waker>,
    ghost woken: { has_ended ≡ true → waker ≡ None },
}

impl Flag {
    pub(super) fn locked() -> Mutex<Flag> {
        Mutex::new(Flag {
            has_ended: false,
            waker: None,
        })
    }

    /// Ready once the job has ended. A pending poll leaves its waker.
    pub(super) fn poll(&mut self, cx: &mut Context<'_>, ended: &Source) -> Poll<()>
        ensures armed { OnPending result (IsArmed cx.new) }
        ensures heard { OnPending result (Hears cx.new ended.now.id) }
        ensures left { OnPending result ((cx.new.lacks_waker ≡ true)
            ⊎ IsSomeAnd self.new.waker (λ waker. Wakes waker cx.old)) }
        ensures kept { Keeps cx.old cx.new }
    {
        if self.has_ended {
            return Poll::Ready(());
        }
        cx.register(ended, &mut self.waker)
    }

    /// The job has ended, and the lock is released: the waker of the task that waits.
    pub(super) fn end(flag: MutexGuard<'_, Flag>) -> Option<Waker>
        ensures { result ≡ (mutex_guard_value flag.entry).waker }
    {
        let mut flag = flag;
        flag.set()
    }

    // Hands back the waker of the task that waits.
    fn set(&mut self) -> Option<Waker>
        ensures ended { self.new.has_ended ≡ true }
        ensures waker { result ≡ self.old.waker }
    {
        let waker = self.waker.take();
        self.has_ended = true;
        waker
    }
}
