//! The rows that scoped workers claim from one queue of whole rows.
ghost use Rattle.std.specs.Prelude.{◌≡◌, ◌+◌, ℕ, map, IfOk, IfErr, Ok};
ghost use Rattle.std.specs.List.{range_with_len};
ghost use Rattle.parallel_shares.specs.Holders.{in_ranges};
ghost use Rattle.parallel_shares.specs.Totals.{total, times};
ghost use Rattle.parallel_shares.specs.Seats.{plan_of, index_of, IsSeatOf, AreSeatsOf, IsFresh, AreFresh, AllEmpty};
ghost use Rattle.shapes_command.specs.Drain.{HasEachOnce, IsDrained, AreDrained, seat_of, listed};

use parallel_fault::Fault;
use parallel_pool::rayon::map_in_row;
use parallel_shares::{Seat, Shares};
use std::alloc::{AllocError, Global};
use std::num::NonZeroUsize;
use std::ops::Range;
use std::sync::Wait;
use std::thread::Threads;

/// A seat whose worker has found the queue empty, and the cells that it claimed.
#[derive(Drop)]
pub struct Drained {
    /// The seat.
    pub seat: Seat,
    /// The ranges of cells that the seat has claimed, in order.
    pub claims: Vec<Range<usize>>,
}

/// The rows that the workers claim from one queue of whole rows: each row once, ascending.
///
/// Each worker is a scoped thread with a seat of its own, where threads can be made. That each row
/// was claimed just once is proved of the lists that the workers give back, before they are put in
/// order.
///
/// # Errors
///
/// `Fault::Memory` where a list could not grow.
pub fn drained_rows<R: Threads + Wait + Sync>(
    rt: &R,
    alloc: Global,
    rows: usize,
    workers: NonZeroUsize,
) -> Result<Vec<usize>, Fault>
    ensures rows { IfOk result (λ claimed. claimed.items ≡ range_with_len 0 rows) }
    ensures fault { IfErr result (λ refusal. refusal ≡ Fault.Memory) }
{
    if rows == 0 {
        return Ok(Vec::new(alloc));
    }
    let (shares, seats) = Shares::new(alloc, rows, 1, NonZeroUsize::MIN, workers, true)?;
    let drained = drain(rt, alloc, &shares, seats)?;
    let (_words, mut claimed) = gather(alloc, shares, drained)?;
    claimed.sort_unstable();
    Ok(claimed)
}

/// Lets each fresh seat of the shares claim in a thread of its own, where one can be made, until it
/// has found its word empty. The caller starts these threads one after another.
///
/// The seats come back in their order, each with the list of all that it claimed, as `AreDrained`
/// says.
///
/// # Errors
///
/// `Fault::Memory`: a list could not grow, and the seats are gone.
pub fn drain<R: Threads + Wait + Sync>(
    rt: &R,
    alloc: Global,
    shares: &Shares,
    seats: Vec<Seat>,
) -> Result<Vec<Drained>, Fault>
    requires seats { AreSeatsOf shares.now seats.items }
    requires fresh { AreFresh seats.items }
    ensures drained { IfOk result (λ drained. AreDrained shares.now drained.items) }
    ensures fault { IfErr result (λ refusal. refusal ≡ Fault.Memory) }
{
    let parts = map_in_row(
        rt,
        alloc,
        seats,
        &|seat: Seat| -> Result<Drained, AllocError>
            requires { IsSeatOf shares.now seat × IsFresh seat }
            ensures { IfOk result (λ drained. IsDrained shares.entry.now (index_of seat) drained) }
        { work(rt, alloc, shares, seat) },
    )?;
    let drained = all_drained(alloc, parts)?;
    Ok(drained)
}

/// Closes the shares with the seats that came back, and returns the words that are left and all
/// cells of the lists.
///
/// No unit is left in any word, and each cell of the grid is in the lists just once: that no cell
/// is left out or twice there is proved of the lists themselves.
///
/// # Errors
///
/// `Fault::Memory` if an allocation fails.
pub fn gather(
    alloc: Global,
    shares: Shares,
    drained: Vec<Drained>,
) -> Result<(Vec<u64>, Vec<usize>), Fault>
    requires { AreDrained shares drained.items }
    ensures empty { IfOk result (λ r. AllEmpty r.0.items) }
    ensures each_once { IfOk result (λ r. HasEachOnce (plan_of shares).cells r.1.items) }
    ensures fault { IfErr result (λ refusal. refusal ≡ Fault.Memory) }
{
    let (seats, cells) = claimed_cells(alloc, drained)?;
    let words = shares.close(seats);
    Ok((words, cells))
}

// One worker claims until its seat has found its word empty.
fn work<R: Wait>(
    rt: &R,
    alloc: Global,
    shares: &Shares,
    mut seat: Seat,
) -> Result<Drained, AllocError>
    requires belongs { IsSeatOf shares.now seat }
    requires fresh { IsFresh seat }
    ensures { IfOk result (λ drained. IsDrained shares.now (index_of seat) drained) }
{
    let mut claims = Vec::new(alloc);
    for _ in rt.forever() {
        match shares.claim(rt, &mut seat) {
            Some(cells) => claims.push(cells)?,
            None => return Ok(Drained { seat, claims }),
        }
    }
    unreachable!()
}

// What the workers gave back, where none was refused memory.
fn all_drained(
    alloc: Global,
    parts: Vec<Result<Drained, AllocError>>,
) -> Result<Vec<Drained>, AllocError>
    ensures { IfOk result (λ drained. map Ok drained.items ≡ parts.items) }
{
    let mut drained = Vec::new(alloc);
    for part in parts {
        drained.push(part?)?;
    }
    Ok(drained)
}

// The seats, and all cells that their lists have.
fn claimed_cells(alloc: Global, drained: Vec<Drained>) -> Result<(Vec<Seat>, Vec<usize>), Fault>
    ensures seats { IfOk result (λ r. r.0.items ≡ map seat_of drained.items) }
    ensures cells { IfOk result (λ r. (c : ℕ)
        → times c r.1.items ≡ total (listed c) drained.items) }
    ensures fault { IfErr result (λ refusal. refusal ≡ Fault.Memory) }
{
    let mut seats = Vec::new(alloc);
    let mut cells = Vec::new(alloc);
    for Drained { seat, claims } in drained {
        push_cells(&mut cells, claims)?;
        seats.push(seat)?;
    }
    Ok((seats, cells))
}

// The cells of the ranges, after those that are there.
fn push_cells(cells: &mut Vec<usize>, ranges: Vec<Range<usize>>) -> Result<(), Fault>
    ensures cells { IfOk result (λ _. (c : ℕ)
        → times c cells.new.items ≡ times c cells.old.items + in_ranges c ranges.items) }
    ensures fault { IfErr result (λ refusal. refusal ≡ Fault.Memory) }
{
    for range in ranges {
        cells.extend(range)?;
    }
    Ok(())
}
