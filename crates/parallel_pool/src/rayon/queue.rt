//! Which queue of a pool.
/// A queue of a pool.
#[derive(Clone, Copy, Debug, PartialEq, Eq)]
pub enum Queue {
    /// The jobs from outside the pool, first one first.
    Injected,
    /// The jobs for the worker of this index, first one first.
    Broadcast(usize),
    /// The own deque of the worker of this index. A seat takes its first job.
    Deque(usize),
}
