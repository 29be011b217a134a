//! Jobs that go on while their caller does: a closure, and a job that is a type of one's own.
ghost use Rattle.std.specs.Prelude.{◌≡◌, ℕ, ⊤, count_by, IfOk};
ghost use Rattle.commonware_parallel.specs.Spawned.{gives_answer};

use crate::runs::count_in_one;
use commonware_parallel::{Closure, Job, Place, Spawned, Strategy};
use futures::executor::block_on;
use futures::future::join;
use std::alloc::AllocGlobal;
use std::io;
use std::random::RandomSource;
use std::sync::Wait;
use std::thread::Threads;

/// The result of a job that is handed over while this thread goes on with `meanwhile`, and waited
/// for.
///
/// A function that names the type of a spawned closure isn't proved, so what spawns closures is
/// written over any job, as here, and called with a `Closure`.
///
/// # Errors
///
/// A refused spawn, as an `io::Error`, or the error of a wait.
pub fn answer_beside<
    Rt: Threads + Wait + RandomSource + AllocGlobal + Copy + Send + 'static,
    P: Place,
    S: Strategy,
    T: Send + Drop + 'static,
    F: Job<S, T> + Send + Drop + 'static,
    U: Drop,
    G: FnOnce() -> U + Drop,
>(rt: &Rt, strategy: &S, site: P, len: usize, job: F, meanwhile: G) -> io::Result<(T, U)>
    requires may_run { (clone : S) → S.is_clone strategy.now clone → F.may_run job clone }
    requires goes_on { G.pre meanwhile }
    ensures answer { IfOk result (λ both. (clone : S) × S.is_clone strategy.now clone
        × F.may_answer job clone both.0) }
    ensures meanwhile { IfOk result (λ both. G.post meanwhile both.1) }
{
    let spawned = strategy.spawn(rt, rt.alloc(), site, len, job)?;
    let here = meanwhile();
    let there = block_on(rt, spawned)?;
    Ok((there, here))
}

/// How many of the flags are set, which a job counts, and how many of the others, counted
/// meanwhile.
///
/// # Errors
///
/// A refused spawn, as an `io::Error`, or the error of a wait.
pub fn counts_beside<
    Rt: Threads + Wait + RandomSource + AllocGlobal + Copy + Send + 'static,
    P: Place,
    S: Strategy,
>(rt: &Rt, strategy: &S, site: P, flags: Vec<bool>, others: &[bool]) -> io::Result<(usize, usize)>
    ensures there { IfOk result (λ counts. counts.0 ≡ count_by (λ flag. flag) flags.items) }
    ensures here { IfOk result (λ counts. counts.1 ≡ count_by (λ flag. flag) others.now) }
{
    let len = flags.len();
    let job = Closure(move |_own: S| count_in_one(flags.as_slice()));
    answer_beside(rt, strategy, site, len, job, || count_in_one(others))
}

/// Counts the flags that are set. A job that is a type of one's own can be kept while it runs, as
/// the type of its `Spawned` can be written out.
#[derive(Drop)]
pub struct CountSet {
    pub flags: Vec<bool>,
}

impl<S: Drop> Job<S, usize> for CountSet {
    ghost may_run = { λ _ _. ⊤ };

    ghost may_answer = { λ job _ count. count ≡ count_by (λ flag. flag) job.flags.items };

    fn run_on(self, _own: S) -> usize {
        count_in_one(self.flags.as_slice())
    }
}

/// How many flags of each list are set: two jobs, awaited in one task.
///
/// # Errors
///
/// A refused spawn, as an `io::Error`, or the error of a wait.
pub fn two_counts<
    Rt: Threads + Wait + RandomSource + AllocGlobal + Copy + Send + 'static,
    P: Place,
    S: Strategy,
>(rt: &Rt, strategy: &S, site: P, flags: Vec<bool>, others: Vec<bool>) -> io::Result<(usize, usize)>
    ensures first { IfOk result (λ counts. counts.0 ≡ count_by (λ flag. flag) flags.items) }
    ensures second { IfOk result (λ counts. counts.1 ≡ count_by (λ flag. flag) others.items) }
{
    let first = begin_count(rt, strategy, site, flags)?;
    let second = begin_count(rt, strategy, site, others)?;
    both_counts(rt, first, second)
}

/// A job that counts the flags that are set, begun.
///
/// # Errors
///
/// A refused spawn, as an `io::Error`.
pub fn begin_count<Rt: Threads + Wait + AllocGlobal + Copy + Send + 'static, P: Place, S: Strategy>(
    rt: &Rt,
    strategy: &S,
    site: P,
    flags: Vec<bool>,
) -> io::Result<Spawned<Rt, S, CountSet, usize>>
    ensures { IfOk result (λ spawned. (count : ℕ)
        → gives_answer (λ job _ x. x ≡ count_by (λ flag. flag) job.flags.items) spawned count
        → count ≡ count_by (λ flag. flag) flags.items) }
{
    let len = flags.len();
    match strategy.spawn(rt, rt.alloc(), site, len, CountSet { flags }) {
        Ok(spawned) => Ok(spawned),
        Err(fault) => Err(io::Error::from(fault)),
    }
}

// What two such jobs return, awaited in one task.
fn both_counts<Rt: Threads + Wait + RandomSource + AllocGlobal + Drop, S: Strategy>(
    rt: &Rt,
    first: Spawned<Rt, S, CountSet, usize>,
    second: Spawned<Rt, S, CountSet, usize>,
) -> io::Result<(usize, usize)>
    ensures first { IfOk result (λ counts.
        gives_answer (λ job _ x. x ≡ count_by (λ flag. flag) job.flags.items) first counts.0) }
    ensures second { IfOk result (λ counts.
        gives_answer (λ job _ x. x ≡ count_by (λ flag. flag) job.flags.items) second counts.1) }
{
    block_on(rt, join(first, second))
}
