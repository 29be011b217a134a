//! What a pool's workers call: a job of any type, or one that its caller boxed.
/// What the workers of a pool call, each job once, by whichever worker takes it.
///
/// A pool of one's own type of job, as an enum of those that there are, takes no box for a job
/// (`ThreadPoolBuilder::build_for`).
pub trait Execute: Drop {
    /// Does the job, on the worker of this index.
    fn execute(self, index: usize);
}

/// A closure that a worker calls once, with its index. The caller boxes it; it may be called with
/// any index.
#[derive(Drop)]
pub struct OwnedJob {
    run: Box<dyn FnOnce(usize) + Send>,
    ghost ready: { (index : _) → pre run index },
}

impl OwnedJob {
    /// The job of a closure that may be called with any index.
    pub fn new(run: Box<dyn FnOnce(usize) + Send>) -> OwnedJob
        requires { (index : _) → pre run index }
    {
        OwnedJob { run }
    }

    /// Calls the closure with the index of the worker that runs it.
    pub fn call(self, index: usize) {
        let OwnedJob { run } = self;
        run(index)
    }
}

impl Execute for OwnedJob {
    fn execute(self, index: usize) {
        self.call(index)
    }
}
