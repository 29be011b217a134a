//! The line that answers a request.
ghost use Rattle.std.specs.Prelude.{◌≡◌, ◌++◌, ℕ, List, IfOk, IfErr, map, string_bytes};
ghost use Rattle.std.specs.Fmt.{decimal};
ghost use Rattle.std.specs.NonZero.{non_zero_usize_get};
ghost use Rattle.shapes_command.specs.Answer.{Answers, spaced, range_text, grid_text, IsPlannedFor, IsMixedOf, root_text};
ghost use Rattle.shapes_command.specs.Line.{as_line};
ghost use Rattle.shapes_command.specs.Request.{IsInRange};

use crate::drain::drained_rows;
use crate::request::Request;
use crate::root::explored_root;
use crate::search::explored_sum;
use crate::sum::{parallel_sum, serial_sum};
use commonware_parallel::mocks::mix;
use parallel_bridge::drive::segments;
use parallel_fault::Fault;
use parallel_policy::Site;
use parallel_pool::rayon::planned_threads;
use parallel_shares::{Grid, cut};
use std::alloc::Global;
use std::num::NonZeroUsize;
use std::ops::Range;
use std::sync::Wait;
use std::thread::Threads;

/// The line that answers the request, which ends in a line break.
///
/// # Errors
///
/// `Fault::Memory` where the line or a list for it could not grow.
pub fn line<R: Threads + Wait + Sync>(
    rt: &R,
    alloc: Global,
    request: Request,
) -> Result<String, Fault>
    requires { IsInRange request }
    ensures line { IfOk result (λ line. (text : List ℕ) × Answers request.entry text
        × (string_bytes line ≡ as_line text)) }
    ensures fault { IfErr result (λ refusal. refusal ≡ Fault.Memory) }
{
    let mut line = String::new(alloc);
    push_answer(rt, alloc, &mut line, request)?;
    line.push('\n')?;
    Ok(line)
}

// The text that answers the request.
fn push_answer<R: Threads + Wait + Sync>(
    rt: &R,
    alloc: Global,
    line: &mut String,
    request: Request,
) -> Result<(), Fault>
    requires { IsInRange request }
    ensures text { IfOk result (λ _. (text : List ℕ) × Answers request.entry text
        × (string_bytes line.new ≡ string_bytes line.old ++ text)) }
    ensures fault { IfErr result (λ refusal. refusal ≡ Fault.Memory) }
{
    match request {
        Request::Drain { rows, workers } => {
            push_numbers(line, &drained_rows(rt, alloc, rows, workers)?)
        }
        Request::Batches { len, count } => push_ranges(line, &cut(alloc, len, count)?),
        Request::Grid { grid, len, workers } => push_grid(line, grid, len, workers),
        Request::Segments { threads, len } => {
            push_numbers(line, &segments(alloc, threads, len)?)
        }
        Request::Fold { identity, items } => {
            push_number(line, serial_sum(rt, alloc, identity, items)?)
        }
        Request::FoldParallel { identity, items } => {
            push_number(line, parallel_sum(rt, alloc, identity, items)?)
        }
        Request::Threads {
            set,
            num_threads,
            num_cpus,
            machine,
        } => push_planned(line, set, num_threads, num_cpus, machine),
        Request::Mix {
            seed,
            line: row,
            column,
            len,
        } => push_mix(line, seed, row, column, len),
        Request::ExploreSum => push_number(line, explored_sum(rt, alloc)?),
        Request::Root { items } => push_root(line, explored_root(rt, alloc, items)?),
    }
}

// One number.
fn push_number(line: &mut String, number: usize) -> Result<(), Fault>
    ensures text { IfOk result (λ _. string_bytes line.new ≡ string_bytes line.old ++ decimal
        number) }
    ensures fault { IfErr result (λ refusal. refusal ≡ Fault.Memory) }
{
    write!(line, "{number}")?;
    Ok(())
}

// The root of a tree, or nothing where there is none.
fn push_root(line: &mut String, root: Option<usize>) -> Result<(), Fault>
    ensures text { IfOk result (λ _. string_bytes line.new ≡ string_bytes line.old ++ root_text
        root) }
    ensures fault { IfErr result (λ refusal. refusal ≡ Fault.Memory) }
{
    match root {
        Some(root) => push_number(line, root),
        None => Ok(()),
    }
}

// For how many threads a pool is planned.
fn push_planned(
    line: &mut String,
    set: usize,
    num_threads: Option<&str>,
    num_cpus: Option<&str>,
    machine: Option<NonZeroUsize>,
) -> Result<(), Fault>
    ensures text { IfOk result (λ _. (planned : ℕ)
        × IsPlannedFor set num_threads.entry num_cpus.entry machine planned
        × (string_bytes line.new ≡ string_bytes line.old ++ decimal planned)) }
    ensures fault { IfErr result (λ refusal. refusal ≡ Fault.Memory) }
{
    let planned = planned_threads(set, num_threads, num_cpus, machine);
    push_number(line, planned)
}

// The hash of a site in the file `a`.
fn push_mix(line: &mut String, seed: u64, row: u32, column: u32, len: usize) -> Result<(), Fault>
    ensures text { IfOk result (λ _. (hash : ℕ) × IsMixedOf seed row column len hash
        × (string_bytes line.new ≡ string_bytes line.old ++ decimal hash)) }
    ensures fault { IfErr result (λ refusal. refusal ≡ Fault.Memory) }
{
    let site = Site {
        file: "a",
        line: row,
        column,
    };
    let hash = mix(seed, site, len);
    write!(line, "{hash}")?;
    Ok(())
}

// The numbers, with spaces between them.
fn push_numbers(line: &mut String, numbers: &[usize]) -> Result<(), Fault>
    ensures text { IfOk result (λ _. string_bytes line.new ≡ string_bytes line.old ++ spaced
        (map decimal numbers.now)) }
    ensures fault { IfErr result (λ refusal. refusal ≡ Fault.Memory) }
{
    for (index, number) in numbers.iter().enumerate() {
        let space = if index == 0 { "" } else { " " };
        write!(line, "{space}{number}")?;
    }
    Ok(())
}

// The ranges, with spaces between them.
fn push_ranges(line: &mut String, ranges: &[Range<usize>]) -> Result<(), Fault>
    ensures text { IfOk result (λ _. string_bytes line.new ≡ string_bytes line.old ++ spaced
        (map range_text ranges.now)) }
    ensures fault { IfErr result (λ refusal. refusal ≡ Fault.Memory) }
{
    for (index, range) in ranges.iter().enumerate() {
        let space = if index == 0 { "" } else { " " };
        let Range { start, end } = range;
        write!(line, "{space}{start}..{end}")?;
    }
    Ok(())
}

// The cost of the grid's critical path, and whether its rows are cut.
fn push_grid(line: &mut String, grid: Grid, len: usize, workers: NonZeroUsize) -> Result<(), Fault>
    ensures text { IfOk result (λ _. string_bytes line.new ≡ string_bytes line.old ++ grid_text grid
        len (non_zero_usize_get workers)) }
    ensures fault { IfErr result (λ refusal. refusal ≡ Fault.Memory) }
{
    let (cost, whole) = grid.critical_path(len, workers);
    let rows = if whole { "whole" } else { "cut" };
    write!(line, "{cost} {rows}")?;
    Ok(())
}
