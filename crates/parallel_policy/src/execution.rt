//! The ways in which a call may be carried out.
/// How the body of a call runs.
#[derive(Clone, Copy, Debug, PartialEq, Eq)]
pub enum RunExecution {
    /// On the caller's thread alone.
    Serial,
    /// On the threads of a pool.
    Parallel,
}

/// Where a spawned job runs.
#[derive(Clone, Copy, Debug, PartialEq, Eq)]
pub enum SpawnExecution {
    /// At once, on the caller's thread.
    Inline,
    /// On a worker of its own.
    Offload,
}
