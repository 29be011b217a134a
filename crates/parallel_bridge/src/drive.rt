//! What goes along the shape of a list, whatever the parts of the list are and whatever is made of
//! them: a task is split in two, the halves likewise, and the parts run side by side. How deep a
//! list is halved, and how long its segments then are.
ghost use Rattle.std.specs.Prelude.{◌≡◌, ◌-◌, ◌*◌, ◌^◌, ◌<◌, ◌≤◌, ◌++◌, ℕ, List, IfErr, IfOk, IsTrue, false, length, sum};
ghost use Rattle.std.specs.Int.NonZero.{non_zero_usize_get};
ghost use Rattle.parallel_fault.specs.Trouble.{IsMemoryOnErr};
ghost use Rattle.parallel_bridge.specs.Shapes.{Shape, cutdepth, halved_lengths, leaf_lengths};

use parallel_fault::Fault;
use std::alloc::Global;
use std::num::NonZeroUsize;
use std::thread::Threads;

mod loads;

use loads::drive_shared;

/// A part of a list with what is to be made of it. Its laws are the clauses here: what two halves
/// come to, put together, is what the task may come to.
pub trait Task: Send + Sized + Drop {
    /// What a task comes to.
    type Done: Send + Drop;

    /// What puts together what two halves came to.
    type Seam: Send + Drop;

    /// Whether the task may be split or run.
    ghost ready: { Self → Type 0 };
    /// Whether it is long enough to be split.
    ghost long: { Self → Type 0 };
    /// Whether it is one segment where it may be halved so often.
    ghost short: { ℕ → Self → Type 0 };
    /// What it may come to where it is halved at most so often.
    ghost ends: { ℕ → Self → Self.Done → Type 0 };
    /// What two halves may have come to.
    ghost meet: { Self.Seam → Self.Done → Self.Done → Type 0 };
    /// What two halves came to, and what that is together.
    ghost together: { Self.Seam → Self.Done → Self.Done → Self.Done → Type 0 };

    /// Whether the task isn't to be split any more.
    fn is_leaf(&self, depth: usize) -> bool
        ensures leaf { IsTrue result → short depth self.now }
        ensures node { result ≡ false → (0 < depth) × long self.now };

    /// The front half and the back half, and what puts their ends together.
    ///
    /// # Errors
    ///
    /// What the task comes to where it can't be split.
    fn split(self, alloc: Global) -> Result<(Self, Self, Self::Seam), Self::Done>
        requires ready { ready self }
        requires long { long self }
        ensures left { IfOk result (λ p. ready p.0) }
        ensures right { IfOk result (λ p. ready p.1) }
        ensures meet { IfOk result (λ p. (depth : ℕ) (a b : Self.Done)
            → ends depth p.0 a → ends depth p.1 b → meet p.2 a b) }
        ensures node { IfOk result (λ p. (depth : ℕ) (a b c : Self.Done) → 0 < depth
            → ends (depth - 1) p.0 a → ends (depth - 1) p.1 b → together p.2 a b c
            → ends depth self c) }
        ensures refused { IfErr result (λ d. (depth : ℕ) → ends depth self d) };

    /// What the task comes to as one segment.
    fn run(self, alloc: Global) -> Self::Done
        requires { ready self }
        ensures { (depth : ℕ) → short depth self → ends depth self result };

    /// What two halves came to, together.
    fn join(seam: Self::Seam, left: Self::Done, right: Self::Done) -> Self::Done
        requires { meet seam left right }
        ensures { together seam left right result };
}

/// What a task comes to that is cut for that many threads, of which the caller's is one. Where that
/// is the only one, or no memory is there for a list of what each thread gets, it goes by the
/// caller's thread alone.
pub fn drive<Rt: Threads + Sync, T: Task>(
    rt: &Rt,
    alloc: Global,
    threads: NonZeroUsize,
    task: T,
) -> T::Done
    requires { T.ready task }
    ensures { T.ends (cutdepth (non_zero_usize_get threads)) task result }
{
    let (depth, threads) = (depth_of(threads), threads.get());
    if threads < 2 || task.is_leaf(depth) {
        return drive_alone(alloc, depth, task);
    }
    let (left, right, seam) = match task.split(alloc) {
        Ok(halves) => halves,
        Err(done) => return done,
    };
    let (first, second) = drive_shared(rt, alloc, depth - 1, threads, left, right);
    T::join(seam, first, second)
}

// The task on the caller's thread, its halves one after the other.
fn drive_alone<T: Task>(alloc: Global, depth: usize, task: T) -> T::Done
    requires { T.ready task }
    ensures { T.ends depth task result }
{
    if task.is_leaf(depth) {
        return task.run(alloc);
    }
    let (left, right, seam) = match task.split(alloc) {
        Ok(halves) => halves,
        Err(done) => return done,
    };
    let first = drive_alone(alloc, depth - 1, left);
    let second = drive_alone(alloc, depth - 1, right);
    T::join(seam, first, second)
}

/// How many times over a list may be halved for that many threads: the binary digits of the number.
pub fn depth_of(threads: NonZeroUsize) -> usize
    ensures digits { result ≡ cutdepth (non_zero_usize_get threads) }
    ensures enough { non_zero_usize_get threads < 2 ^ result }
    ensures needed { 2 ^ (result - 1) ≤ non_zero_usize_get threads }
{
    (usize::BITS - threads.get().leading_zeros()) as usize
}

/// The lengths of the segments, in order, that a list of `len` items is cut into for that many
/// threads.
///
/// # Errors
///
/// `Fault::Memory` if an allocation fails.
pub fn segments(alloc: Global, threads: NonZeroUsize, len: usize) -> Result<Vec<usize>, Fault>
    ensures leaves { IfOk result (λ lengths. (xs : List ℕ) → length xs ≡ len
        → lengths.items ≡ leaf_lengths (Shape (cutdepth (non_zero_usize_get threads)) xs)) }
    ensures all { IfOk result (λ lengths. sum lengths.items ≡ len) }
    ensures by_threads { IfOk result
        (λ lengths. length lengths.items ≤ 2 * non_zero_usize_get threads) }
    ensures by_items { IfOk result (λ lengths. 0 < len → length lengths.items ≤ len) }
    ensures fault { IsMemoryOnErr result }
{
    let mut lengths = Vec::new(alloc);
    push_halves(&mut lengths, depth_of(threads), len)?;
    Ok(lengths)
}

/// Appends the lengths of the segments of a list of `len` items that is halved `depth` times.
///
/// # Errors
///
/// `Fault::Memory` if an allocation fails.
#[tactic(auto, using(crate::proofs::SegmentLengths::halved_more))]
fn push_halves(lengths: &mut Vec<usize>, depth: usize, len: usize) -> Result<(), Fault>
    ensures lengths { IfOk result (λ _. lengths.new.items ≡ lengths.old.items ++ halved_lengths
        depth len) }
    ensures fault { IsMemoryOnErr result }
{
    if depth == 0 || len < 2 {
        lengths.push(len)?;
        return Ok(());
    }
    push_halves(lengths, depth - 1, len / 2)?;
    push_halves(lengths, depth - 1, len - len / 2)
}
