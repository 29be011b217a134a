//! The plain loops that the calls stand for. A loop that gathers as many results as there are items
//! is a chain, which is its faster form.
use crate::callers::{Extras, ROWS, THRESHOLD, digest_of};
use crate::case::{Case, Cost};
use crate::ready::ready_by_loop;
use crate::tiles::Tiling;
use crate::ways::Answer;
use crate::work::{
    add, add_heavy, add_rising, ascending, combined, combined_heavily, heavy, light,
    parted_heavily, parted_lightly, rising, try_heavy, try_light,
};
use commonware_parallel::Fault;
use std::alloc::{AllocError, Global};

/// The case's result by a plain loop over the items, or over what a caller takes.
///
/// # Errors
///
/// What was refused.
pub fn by_loop(
    alloc: Global,
    case: Case,
    items: &[u64],
    extras: Extras<'_>,
) -> Result<Answer, Fault> {
    match case {
        Case::Map(cost) => Ok(Answer::Numbers(mapped(alloc, cost, items)?)),
        Case::Fold(Cost::Heavy) => Ok(Answer::Number(folded(items, add_heavy))),
        Case::Fold(Cost::Rising) => Ok(Answer::Number(folded(items, add_rising))),
        Case::Fold(Cost::Light) | Case::FoldInit => Ok(Answer::Number(folded(items, add))),
        Case::TryMapLight => tried(alloc, items, try_light),
        Case::TryMapEarly => tried(alloc, items, try_heavy),
        Case::PartitionLight => parted(alloc, items, parted_lightly),
        Case::PartitionHeavy => parted(alloc, items, parted_heavily),
        Case::Sort => Ok(Answer::Numbers(sorted(alloc, items)?)),
        Case::Tiles(rows, cost) => {
            let tiling = Tiling::of(rows, cost, items.len());
            Ok(Answer::Number(tiling.sum(items)))
        }
        Case::TreeLight | Case::BlocksLight => Ok(Answer::Number(root(alloc, items, combined)?)),
        Case::TreeHeavy | Case::BlocksHeavy => {
            Ok(Answer::Number(root(alloc, items, combined_heavily)?))
        }
        Case::RowsAbove => Ok(Answer::Number(bytes_above(extras.bytes))),
        Case::Digests => Ok(Answer::Number(first_mismatch(extras) as u64)),
        Case::Ready(ready) => Ok(ready_by_loop(alloc, ready, items)?),
        Case::Each(_) => Ok(Answer::Number(0)),
    }
}

fn mapped(alloc: Global, cost: Cost, items: &[u64]) -> Result<Vec<u64>, AllocError> {
    match cost {
        Cost::Light => items.iter().copied().map(light).collect(alloc),
        Cost::Heavy => items.iter().copied().map(heavy).collect(alloc),
        Cost::Rising => items.iter().copied().map(rising).collect(alloc),
    }
}

/// The items folded from 0.
pub fn folded<F: Fn(u64, u64) -> u64 + Drop>(items: &[u64], step: F) -> u64
    requires { F.IsAlwaysCallable step }
{
    let mut total = 0u64;
    for item in items {
        total = step(total, *item);
    }
    total
}

// The results, or the first item's error.
fn tried<F: Fn(u64) -> Result<u64, u64> + Drop>(
    alloc: Global,
    items: &[u64],
    op: F,
) -> Result<Answer, Fault>
    requires { F.IsAlwaysCallable op }
{
    let mut answers = Vec::with_capacity(alloc, items.len())?;
    for item in items {
        match op(*item) {
            Ok(answer) => answers.push(answer)?,
            Err(failing) => return Ok(Answer::Number(failing)),
        }
    }
    Ok(Answer::Numbers(answers))
}

// The values and the keys, each in order.
fn parted<F: Fn(u64) -> (u64, Option<u64>) + Drop>(
    alloc: Global,
    items: &[u64],
    op: F,
) -> Result<Answer, Fault>
    requires { F.IsAlwaysCallable op }
{
    let mut values = Vec::new(alloc);
    let mut keys = Vec::new(alloc);
    for item in items {
        match op(*item) {
            (_, Some(value)) => values.push(value)?,
            (key, None) => keys.push(key)?,
        }
    }
    Ok(Answer::Parts(values, keys))
}

fn sorted(alloc: Global, items: &[u64]) -> Result<Vec<u64>, AllocError> {
    let mut sorted: Vec<u64> = items.iter().copied().collect(alloc)?;
    sorted.sort_by(ascending)?;
    Ok(sorted)
}

// The root by loops over the levels in one buffer, and 0 where there is none.
fn root<F: Fn(u64, u64) -> u64 + Drop>(
    alloc: Global,
    items: &[u64],
    combine: F,
) -> Result<u64, AllocError>
    requires { F.IsAlwaysCallable combine }
{
    let mut nodes: Vec<u64> = items.iter().copied().collect(alloc)?;
    let mut len = nodes.len();
    for _level in 0..usize::BITS {
        if len > 1 {
            len = next_level(nodes.as_mut_slice(), len, &combine);
        }
    }
    Ok(nodes.first().copied().unwrap_or(0))
}

// Writes the level above the first `len` nodes over their front, and returns how many it has.
fn next_level<F: Fn(u64, u64) -> u64>(nodes: &mut [u64], len: usize, combine: &F) -> usize
    requires { F.IsAlwaysCallable combine.now }
{
    let pairs = nodes.len().min(len) / 2;
    for pair in 0..pairs {
        nodes[pair] = combine(nodes[2 * pair], nodes[2 * pair + 1]);
    }
    with_odd(nodes, len)
}

// Moves an odd last one of the first `len` nodes after their pairs, and returns how many there are.
fn with_odd(nodes: &mut [u64], len: usize) -> usize {
    let pairs = len / 2;
    if len % 2 == 0 || len > nodes.len() {
        return pairs;
    }
    nodes[pairs] = nodes[len - 1];
    pairs + 1
}

// The sum over the rows of a matrix of how many bytes of each are above the threshold.
fn bytes_above(matrix: &[u8]) -> u64 {
    let len = matrix.len() / ROWS;
    let mut total = 0u64;
    for row in 0..ROWS {
        let cells = &matrix[row * len..row * len + len];
        let count = cells.iter().filter(|cell| **cell > THRESHOLD).count();
        total = total.wrapping_add(count as u64);
    }
    total
}

// How many messages have their digest, up to the first one that hasn't.
fn first_mismatch(extras: Extras<'_>) -> usize {
    let mut passed = 0usize;
    for (message, digest) in extras.messages.iter().zip(extras.digests.iter()) {
        if digest_of(message) != *digest {
            return passed;
        }
        passed = passed.saturating_add(1);
    }
    passed
}
