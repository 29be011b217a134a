//! A shared plan: a seat for each worker, which claims cells until nothing is left that pays.
ghost use Rattle.std.specs.Prelude.{◌≡◌, ◌≢◌, ◌++◌, ℕ, IfOk, Ok, map};
ghost use Rattle.std.specs.Borrow.{MutBor};
ghost use Rattle.std.specs.declared.alloc.Global.{Global};
ghost use Rattle.std.specs.declared.ops.Range.{Range};
ghost use Rattle.std.specs.declared.vec.Vec.{Vec};
ghost use Rattle.parallel_fault.specs.Trouble.{IsMemoryOnErr};
ghost use Rattle.parallel_shares.specs.Fillings.{Ends, Fills};
ghost use Rattle.parallel_shares.specs.Seats.{AreFresh, AreSeatsOf, plan_of};
ghost use Rattle.parallel_shares.specs.Sizes.{Work, sizes_of};
ghost use Rattle.parallel_shares.specs.Stretches.{IsPartOfRow, StartsBelow};
ghost use Rattle.commonware_parallel.specs.Seated.{AcceptsFills, AcceptsFinishes, AllResults, FillsWork, IsReady, WorksFrom, seat_of};

use crate::strategy::Strategy;
use parallel_fault::Fault;
use parallel_policy::Place;
use parallel_shares::{Part, Seat, Shares, Stretch};
use std::alloc::Global;
use std::ops::Range;
use std::sync::Wait;
use std::thread::Threads;

/// A seat that came back from its run, with the results of its stretches.
#[derive(Drop)]
pub(crate) struct Worked<R> {
    seat: Seat,
    results: Result<Vec<R>, Fault>,
}

/// The results of all cells of a grid of `rows` rows of `len` columns, which are shared out among
/// workers. Each worker is an item of a list call of the strategy, so that the workers of one
/// segment have one state.
///
/// # Errors
///
/// `Fault::Memory` if an allocation fails.
pub(crate) fn fill_shared<
    S: Strategy,
    Rt: Threads + Wait + Sync,
    P: Place,
    T: Send + Drop,
    Q: Part + Send,
    R: Send + Drop,
    N: Fn() -> T + Send + Sync + Drop,
    L: Fn(&mut T, usize, Range<usize>) + Send + Sync,
    F: Fn(&mut T, Q) -> R + Send + Sync,
>(
    strategy: &S,
    rt: &Rt,
    alloc: Global,
    site: P,
    shares: Shares,
    seats: Vec<Seat>,
    len: usize,
    init: N,
    fill: &L,
    finish: &F,
) -> Result<Vec<R>, Fault>
    requires some_columns { len ≢ 0 }
    requires seats { AreSeatsOf shares seats.items }
    requires fresh { AreFresh seats.items }
    requires init_accepts { N.IsAlwaysCallable init }
    requires fill_accepts { (lent : MutBor T) (row : ℕ) (columns : Range ℕ)
        → IsPartOfRow (plan_of shares).cells len row columns → L.pre fill.now lent row columns }
    requires finish_accepts { (lent : MutBor T) (stretch : Stretch)
        → StartsBelow (plan_of shares).cells len stretch.row
        → F.pre finish.now lent (Q.part_of stretch) }
    ensures fills { IfOk result (λ results. (work : Work) → work.len ≡ len
        → plan_of shares ≡ sizes_of work → FillsWork (N.post init) (Fills (L.post fill.now))
        (Ends Q.part_of (F.post finish.now)) len work results.items) }
    ensures fault { IsMemoryOnErr result }
{
    let shared = &shares;
    let run = move |state: &mut T, seat: Seat| -> Worked<R>
        requires { IsReady shared.now seat × (len ≢ 0)
            × AcceptsFills (IsPartOfRow (plan_of shared.now).cells len) (L.pre fill.now)
            × AcceptsFinishes (StartsBelow (plan_of shared.now).cells len) Q.part_of
            (F.pre finish.now) }
        ensures { WorksFrom shared.entry.now len (Fills (L.post fill.entry.now))
            (Ends Q.part_of (F.post finish.entry.now)) state.old seat result state.new }
    { work(rt, alloc, shared, seat, len, state, fill, finish) };
    let worked = strategy.map_init_collect_vec(rt, alloc, site, seats, init, run)?;
    let (seats, results) = gather(alloc, worked)?;
    let _words = shares.close(seats);
    Ok(results)
}

// The run of one seat, with the state of its segment.
fn work<Rt: Wait, T, Q: Part, R: Drop, L: Fn(&mut T, usize, Range<usize>), F: Fn(&mut T, Q) -> R>(
    rt: &Rt,
    alloc: Global,
    shares: &Shares,
    seat: Seat,
    len: usize,
    state: &mut T,
    fill: &L,
    finish: &F,
) -> Worked<R>
    requires ready { IsReady shares.now seat }
    requires some_columns { len ≢ 0 }
    requires fill_accepts { (lent : MutBor T) (row : ℕ) (columns : Range ℕ)
        → IsPartOfRow (plan_of shares.now).cells len row columns → L.pre fill.now lent row columns }
    requires finish_accepts { (lent : MutBor T) (stretch : Stretch)
        → StartsBelow (plan_of shares.now).cells len stretch.row
        → F.pre finish.now lent (Q.part_of stretch) }
    ensures { WorksFrom shares.now len (Fills (L.post fill.now)) (Ends Q.part_of (F.post finish.now))
        state.old seat result state.new }
{
    let mut seat = seat;
    let results = shares.run(rt, alloc, &mut seat, len, state, fill, finish);
    Worked { seat, results }
}

// The seats, and all of their results, where no run was refused memory.
fn gather<R: Drop>(alloc: Global, worked: Vec<Worked<R>>) -> Result<(Vec<Seat>, Vec<R>), Fault>
    ensures seats { IfOk result (λ r. r.0.items ≡ map seat_of worked.items) }
    ensures results { IfOk result (λ r. AllResults worked.items r.1.items) }
    ensures fault { IsMemoryOnErr result }
{
    let mut seats = Vec::with_capacity(alloc, worked.len())?;
    let mut all = Vec::new(alloc);
    for part in worked {
        let seat = add_results(&mut all, part)?;
        seats.push(seat)?;
    }
    Ok((seats, all))
}

// The seat, when its results stand after those that are there. Its run was refused memory alone.
fn add_results<R: Drop>(all: &mut Vec<R>, worked: Worked<R>) -> Result<Seat, Fault>
    ensures seat { IfOk result (λ seat. seat ≡ seat_of worked) }
    ensures results { IfOk result (λ _. (results : Vec R Global) × (worked.results ≡ Ok results)
        × (all.new.items ≡ all.old.items ++ results.items)) }
    ensures fault { IsMemoryOnErr result }
{
    let Worked { seat, results } = worked;
    let Ok(mut gained) = results else {
        return Err(Fault::Memory);
    };
    all.append(&mut gained)?;
    Ok(seat)
}
