//! What a broadcast closure is told.
/// Which of a pool's threads a broadcast closure stands for, and how many there are.
#[derive(Clone, Copy, Debug)]
pub struct BroadcastContext {
    pub(crate) index: usize,
    pub(crate) num_threads: usize,
}

impl BroadcastContext {
    ghost use Rattle.std.specs.Prelude.{◌≡◌};
    ghost use Rattle.parallel_pool.specs.Broadcast.{index_of, threads_of};

    /// The index of the thread, from 0 on.
    pub fn index(&self) -> usize
        ensures { result ≡ index_of self.now }
    {
        self.index
    }

    /// The number of the pool's threads.
    pub fn num_threads(&self) -> usize
        ensures { result ≡ threads_of self.now }
    {
        self.num_threads
    }
}
