//! For how many threads a pool is planned: what is set, what an environment says, what a machine
//! has.
ghost use Rattle.std.specs.Prelude.{◌≡◌, ◌<◌, ◌≤◌, min, MatchOption, None};
ghost use Rattle.std.specs.NonZero.{non_zero_usize_get};
ghost use Rattle.parallel_pool.specs.PlannedThreads.{OfTexts, Writes, by_texts, number_or};

use crate::rayon::thread_pool::MAX_THREADS;
use std::num::NonZeroUsize;

/// What a program found in its environment of a pool's number of threads. By default nothing.
#[derive(Debug, Default, Drop)]
pub struct Environment {
    /// The text of the variable `RAYON_NUM_THREADS`.
    pub num_threads: Option<String>,
    /// The text of the variable `RAYON_RS_NUM_CPUS`.
    pub num_cpus: Option<String>,
    /// How many threads the machine runs at a time.
    pub machine: Option<NonZeroUsize>,
}

/// For how many threads a pool is planned, 1 to `MAX_THREADS`.
///
/// A number that is set, above 0, wins. Else the first text's number is taken, where 0 stands for
/// the machine's number. Where that text writes none, the second text's number is taken if it is
/// above 0. Else it is the machine's number, or 1 without one. A text that `parse` rejects counts
/// as none.
pub fn planned_threads(
    set: usize,
    num_threads: Option<&str>,
    num_cpus: Option<&str>,
    machine: Option<NonZeroUsize>,
) -> usize
    ensures set { 0 < set → result ≡ min set MAX_THREADS }
    ensures texts { set ≡ 0 → OfTexts num_threads.entry num_cpus.entry
        (number_or 1 non_zero_usize_get machine) (λ number. result ≡ min number MAX_THREADS) }
    ensures at_least { 1 ≤ result }
    ensures at_most { result ≤ MAX_THREADS }
{
    let number = if set == 0 {
        by_texts(num_threads, num_cpus, number_of(machine))
    } else {
        set
    };
    number.min(MAX_THREADS)
}

// The machine's number, or 1.
fn number_of(machine: Option<NonZeroUsize>) -> usize
    ensures number { result ≡ number_or 1 non_zero_usize_get machine }
    ensures at_least { 1 ≤ result }
{
    match machine {
        Some(number) => number.get(),
        None => 1,
    }
}

// The number by both texts.
fn by_texts(num_threads: Option<&str>, num_cpus: Option<&str>, machine: usize) -> usize
    requires { 1 ≤ machine }
    ensures number { OfTexts num_threads.entry num_cpus.entry machine
        (λ number. result ≡ number) }
    ensures at_least { 1 ≤ result }
{
    let threads = number_in(num_threads);
    let cpus = number_in(num_cpus);
    first_of(threads, cpus, machine)
}

// The first number of the three, where 0 stands for the machine's.
fn first_of(threads: Option<usize>, cpus: Option<usize>, machine: usize) -> usize
    requires { 1 ≤ machine }
    ensures number { result ≡ by_texts threads cpus machine }
    ensures at_least { 1 ≤ result }
{
    match (threads, cpus) {
        (Some(0), _) | (None, Some(0)) | (None, None) => machine,
        (Some(number), _) | (None, Some(number)) => number,
    }
}

// The number that a text writes, where there is one that does.
fn number_in(text: Option<&str>) -> Option<usize>
    ensures { MatchOption text.entry (result ≡ None) (λ text. Writes text.now result) }
{
    match text {
        Some(text) => text.parse().ok(),
        None => None,
    }
}
