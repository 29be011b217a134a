//! What happens to an entry of the policy.
use crate::execution::RunExecution;

/// What happens to a `RunEntry`.
#[derive(Clone, Copy, Debug, PartialEq, Eq)]
pub enum RunEvent {
    /// A choice for that many threads.
    Chosen(usize),
    /// A run of that kind took that many nanoseconds.
    Sampled(RunExecution, u64),
}

/// What a sample of a `SpawnEntry` tells.
#[derive(Clone, Copy, Debug, PartialEq, Eq)]
pub enum SpawnSample {
    /// How long a job took on its caller's thread.
    InlineRun,
    /// How long a job took on a worker.
    Job,
    /// How much longer a handed-off job took than the job itself.
    Overhead,
}

/// What happens to a `SpawnEntry`.
#[derive(Clone, Copy, Debug, PartialEq, Eq)]
pub enum SpawnEvent {
    /// A choice by that budget for inline runs, in nanoseconds.
    Chosen(u64),
    /// A sample of that many nanoseconds.
    Sampled(SpawnSample, u64),
}
