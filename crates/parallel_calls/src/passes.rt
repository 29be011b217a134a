//! A scan from a start, in one pass on the caller's thread, or in three of which the long ones go
//! side by side: the total of each chunk, what stands before each chunk, and the chunks.
ghost use Rattle.std.specs.Prelude.{◌≡◌, ◌*◌, ◌/◌, ◌<◌, ◌∷◌, ℕ, IfErr, IfOk, OnOk, length, slice_index_or, take};
ghost use Rattle.std.specs.Fork.{slice_chunk};
ghost use Rattle.commonware_parallel.specs.Words.{IsMemoryOnErr, div_ceil, non_zero_usize_get};
ghost use Rattle.parallel_calls.specs.Reductions.{Reduces};
ghost use Rattle.parallel_calls.specs.Scans.{IsInclusiveScan, IsScanFrom, ReducesEach};

use commonware_parallel::Fault;
use parallel_row::{each_chunk, each_item};
use std::alloc::Global;
use std::num::NonZeroUsize;
use std::thread::Threads;

/// Which items a value of a scan takes in.
#[derive(Clone, Copy)]
pub enum Form {
    /// Those up to its place.
    Inclusive,
    /// Those before its place.
    Exclusive,
}

/// The inclusive scan, which begins with the first item, by at most that many threads.
///
/// # Errors
///
/// `Fault::Memory` if an allocation fails, of which one thread makes none; the items are then as
/// they were.
pub fn scan_items<Rt: Threads + Sync, T: Copy + Send + Sync, G: Fn(T, T) -> T + Sync>(
    rt: &Rt,
    alloc: Global,
    threads: NonZeroUsize,
    items: &mut [T],
    op: &G,
) -> Result<(), Fault>
    requires { G.IsAlwaysCallable op.now }
    ensures scanned { OnOk result (IsInclusiveScan (G.post op.now) items.old items.new) }
    ensures unchanged { IfErr result (λ _. items.new ≡ items.old) }
    ensures several { IfErr result (λ _. 1 < non_zero_usize_get threads) }
    ensures fault { IsMemoryOnErr result }
{
    if items.is_empty() {
        return Ok(());
    }
    let start = items[0];
    let (_, rest) = items.split_at_mut(1);
    scan_from(rt, alloc, threads, Form::Inclusive, start, rest, op)
}

/// The scan of that form from the start, by at most that many threads. There is a chunk for each
/// thread, and where there is only one, one pass.
///
/// # Errors
///
/// `Fault::Memory` if an allocation fails, of which one thread makes none; the items are then as
/// they were.
pub fn scan_from<Rt: Threads + Sync, T: Copy + Send + Sync, G: Fn(T, T) -> T + Sync>(
    rt: &Rt,
    alloc: Global,
    threads: NonZeroUsize,
    form: Form,
    start: T,
    items: &mut [T],
    op: &G,
) -> Result<(), Fault>
    requires { G.IsAlwaysCallable op.now }
    ensures scanned { OnOk result (IsScanFrom (G.post op.now) start form items.old items.new) }
    ensures unchanged { IfErr result (λ _. items.new ≡ items.old) }
    ensures several { IfErr result (λ _. 1 < non_zero_usize_get threads) }
    ensures fault { IsMemoryOnErr result }
{
    let Some(len) = NonZeroUsize::new(items.len()) else {
        return Ok(());
    };
    let size = len.div_ceil(threads);
    if size.get() >= items.len() {
        in_turn(form, start, items, op);
        return Ok(());
    }
    let fronts = fronts_of(rt, alloc, threads, size, start, items, op)?;
    scan_chunks(rt, threads, size, form, &fronts, items, op);
    Ok(())
}

// For each chunk the start and all items before the chunk, put together.
fn fronts_of<Rt: Threads + Sync, T: Copy + Send + Sync, G: Fn(T, T) -> T + Sync>(
    rt: &Rt,
    alloc: Global,
    threads: NonZeroUsize,
    size: NonZeroUsize,
    start: T,
    items: &[T],
    op: &G,
) -> Result<Vec<T>, Fault>
    requires { G.IsAlwaysCallable op.now }
    ensures fronts { IfOk result (λ fronts. ReducesEach (G.post op.now)
        (λ n. start ∷ take (n * non_zero_usize_get size) items.now)
        (div_ceil (length items.now) (non_zero_usize_get size)) fronts.items) }
    ensures fault { IsMemoryOnErr result }
{
    let mut fronts = totals_of(rt, alloc, threads, size, start, items, op)?;
    exclusive_in_turn(start, &mut fronts, op);
    Ok(fronts)
}

// The total of each chunk. What the list is filled with at first is given.
fn totals_of<Rt: Threads + Sync, T: Copy + Send + Sync, G: Fn(T, T) -> T + Sync>(
    rt: &Rt,
    alloc: Global,
    threads: NonZeroUsize,
    size: NonZeroUsize,
    filler: T,
    items: &[T],
    op: &G,
) -> Result<Vec<T>, Fault>
    requires { G.IsAlwaysCallable op.now }
    ensures totals { IfOk result (λ totals. ReducesEach (G.post op.now)
        (slice_chunk items.now (non_zero_usize_get size))
        (div_ceil (length items.now) (non_zero_usize_get size)) totals.items) }
    ensures fault { IsMemoryOnErr result }
{
    let size = size.get();
    let mut totals = Vec::new(alloc);
    totals.resize(items.len().div_ceil(size), filler)?;
    let put = |number: usize, total: &mut T|
        requires accepts { G.IsAlwaysCallable op.now }
        requires some { 0 < size }
        requires inside { number * size < length items.now }
        ensures { Reduces (G.post op.entry.now) (slice_chunk items.entry.now size number)
            total.exit.now }
    {
        *total = chunk_total(size, number, items, op);
    };
    each_item(rt, threads, &mut totals, &put);
    Ok(totals)
}

// The items of the chunk of that number, put together.
fn chunk_total<T: Copy, G: Fn(T, T) -> T>(size: usize, number: usize, items: &[T], op: &G) -> T
    requires accepts { G.IsAlwaysCallable op.now }
    requires some { 0 < size }
    requires inside { number * size < length items.now }
    ensures { Reduces (G.post op.now) (slice_chunk items.now size number) result }
{
    let rest = &items[number * size..];
    total_of(&rest[..size.min(rest.len())], op)
}

// The items put together, from the left.
fn total_of<T: Copy, G: Fn(T, T) -> T>(items: &[T], op: &G) -> T
    requires accepts { G.IsAlwaysCallable op.now }
    requires some { 0 < length items.now }
    ensures { Reduces (G.post op.now) items.now result }
{
    let mut total = items[0];
    for k in 1..items.len() {
        total = op(total, items[k]);
    }
    total
}

// Scans each chunk from what stands before it.
fn scan_chunks<Rt: Threads + Sync, T: Copy + Send + Sync, G: Fn(T, T) -> T + Sync>(
    rt: &Rt,
    threads: NonZeroUsize,
    size: NonZeroUsize,
    form: Form,
    fronts: &[T],
    items: &mut [T],
    op: &G,
)
    requires accepts { G.IsAlwaysCallable op.now }
    requires fronts { length fronts.now ≡ div_ceil (length items.old) (non_zero_usize_get size) }
    ensures { (n : ℕ) (d : T) → n * non_zero_usize_get size < length items.old
        → IsScanFrom (G.post op.now) (slice_index_or fronts.now n d) form
        (slice_chunk items.old (non_zero_usize_get size) n)
        (slice_chunk items.new (non_zero_usize_get size) n) }
{
    let each = size.get();
    let scan = |from: usize, chunk: &mut [T]|
        requires accepts { G.IsAlwaysCallable op.now }
        requires some { 0 < each }
        requires inside { from / each < length fronts.now }
        ensures { (d : T) → IsScanFrom (G.post op.entry.now)
            (slice_index_or fronts.entry.now (from / each) d) form chunk.entry.now chunk.exit.now }
    { in_turn(form, fronts[from / each], chunk, op) };
    each_chunk(rt, threads, size, items, &scan);
}

// The scan of that form in one pass.
fn in_turn<T: Copy, G: Fn(T, T) -> T>(form: Form, start: T, items: &mut [T], op: &G)
    requires { G.IsAlwaysCallable op.now }
    ensures { IsScanFrom (G.post op.now) start form items.old items.new }
{
    match form {
        Form::Inclusive => inclusive_in_turn(start, items, op),
        Form::Exclusive => exclusive_in_turn(start, items, op),
    }
}

// The inclusive one.
fn inclusive_in_turn<T: Copy, G: Fn(T, T) -> T>(start: T, items: &mut [T], op: &G)
    requires { G.IsAlwaysCallable op.now }
    ensures { IsScanFrom (G.post op.now) start Form.Inclusive items.old items.new }
{
    let mut so_far = start;
    for k in 0..items.len() {
        so_far = op(so_far, items[k]);
        items[k] = so_far;
    }
}

// The exclusive one. The operation is called with each item.
fn exclusive_in_turn<T: Copy, G: Fn(T, T) -> T>(start: T, items: &mut [T], op: &G)
    requires { G.IsAlwaysCallable op.now }
    ensures { IsScanFrom (G.post op.now) start Form.Exclusive items.old items.new }
{
    let mut so_far = start;
    for k in 0..items.len() {
        let next = op(so_far, items[k]);
        items[k] = so_far;
        so_far = next;
    }
}
