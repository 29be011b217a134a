//! Queues of numbered jobs: which job comes next, and a job that is called.
ghost use Rattle.std.specs.Prelude.{◌≡◌, ◌<◌, length, vec_len};

use crate::checks::row;
use parallel_pool::rayon::{JobDeque, JobQueues, JobSeat, Queue};
use std::alloc::Global;
use std::num::NonZeroUsize;
use std::process::Abort;
use test_support::same;

// The queues of two workers, the seat of one thread and the first worker's deque.
fn two_workers(rt: &impl Abort, alloc: Global) -> (JobSeat<u32>, JobDeque<u32>)
    ensures { (length result.0.broadcasts ≡ 2) × (length result.0.deques ≡ 2) }
{
    let two = NonZeroUsize::MIN.saturating_add(1);
    let (queues, mut owned) = JobQueues::new(alloc, two).expect(rt, "memory");
    let seat = queues.seat(alloc).expect(rt, "memory");
    owned.pop().expect(rt, "a deque");
    let own = owned.pop().expect(rt, "a deque");
    (seat, own)
}

#[test]
fn an_own_deque_gives_the_last_job_first_and_all_others_the_first(rt: HostRuntime) {
    let (mut seat, mut own) = two_workers(&rt, rt.alloc());
    for job in 1..5 {
        same!(&rt, own.push(job), Ok(()));
    }
    let last = own.pop();
    let first = seat.take(&rt, Queue::Deque(0));
    same!(&rt, [last, first], [Some(4), Some(1)]);
    let left = [own.pop(), own.pop(), own.pop()];
    same!(&rt, left, [Some(3), Some(2), None]);
    same!(&rt, seat.take(&rt, Queue::Deque(1)), None);
}

#[test]
fn each_queue_has_jobs_of_its_own(rt: HostRuntime) {
    let (mut seat, _own) = two_workers(&rt, rt.alloc());
    row(&rt, 1, seat.push(&rt, Queue::Injected, 1), Ok(()));
    row(&rt, 2, seat.push(&rt, Queue::Injected, 2), Ok(()));
    row(&rt, 3, seat.push(&rt, Queue::Broadcast(1), 3), Ok(()));
    row(&rt, 4, seat.take(&rt, Queue::Broadcast(0)), None);
    same!(&rt, seat.take(&rt, Queue::Injected), Some(1));
    same!(&rt, seat.take(&rt, Queue::Broadcast(1)), Some(3));
    same!(&rt, seat.take(&rt, Queue::Injected), Some(2));
    row(&rt, 5, seat.take(&rt, Queue::Injected), None);
}
