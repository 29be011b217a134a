//! The end of a job on a worker, which its task waits for.
ghost use Rattle.std.specs.Prelude.{◌≡◌};
ghost use Rattle.futures.specs.Poll.{OnPending};
ghost use Rattle.futures.specs.Task.{Hears, IsArmed, Keeps};

mod flag;

use flag::Flag;
use futures::task::{Context, Poll, Source};
use std::sync::{Mutex, Wait};

/// The end of a job, which one task at a time may wait for.
#[derive(Drop)]
pub(crate) struct Ending {
    ended: Source,
    flag: Mutex<Flag>,
}

impl Ending {
    pub(crate) fn new() -> Ending {
        let flag = Flag::locked();
        let ended = Source::new();
        Ending { ended, flag }
    }

    /// Ready once the job has ended. A pending poll leaves its waker.
    pub(crate) fn poll<R: Wait>(&self, rt: &R, cx: &mut Context<'_>) -> Poll<()>
        ensures armed { OnPending result (IsArmed cx.new) }
        ensures heard { OnPending result (Hears cx.new self.now.ended.id) }
        ensures kept { Keeps cx.old cx.new }
    {
        self.flag.lock(rt).poll(cx, &self.ended)
    }

    /// The job has ended. The task that waits is woken, with no lock held.
    pub(crate) fn end<R: Wait>(&self, rt: &R) {
        let waker = Flag::end(self.flag.lock(rt));
        drop(waker);
    }
}
