//! The ways that explorers take: by the serial and the parallel rule, and by seeds.
ghost use Rattle.std.specs.Prelude.{◌<◌};

use crate::batches::batch_ranges;
use crate::checks::{Of, row};
use crate::explorers::PLACE;
use crate::lists::{count, zero};
use crate::sorts_and_joins::parts_see;
use commonware_parallel::mocks::{Explorer, explore, pooled};
use commonware_parallel::{Call, Chooser, Fault, Grid, Path, Pick, Strategy};
use std::alloc::Global;
use std::num::NonZeroUsize;
use std::process::Abort;
use std::sync::Wait;
use std::thread::Threads;
use test_strategies::{Stopped, parallel, pool, serial};
use test_support::{holds, number, same};

// The ways that an explorer takes: how many ranges of 64 indices and how many workers of a grid of
// 64 rows; and whether a run takes the parallel body, a map of four items is cut, a join goes in
// parallel, and a job is handed off.
type Ways = ([usize; 2], [bool; 4]);

// The last of the counts that a map of four items makes in its states: 4 in one segment.
fn last_count<Rt: Threads + Wait + Sync>(
    rt: &Rt,
    alloc: Global,
    explorer: &Explorer,
) -> Result<Option<u32>, Fault> {
    let counts = explorer.map_init_collect_vec(rt, alloc, PLACE, 0..4u32, zero, count)?;
    Ok(counts.last().copied())
}

// Whether the explorer picks the last way of such a call.
fn picks_last<Rt: Wait>(
    rt: &Rt,
    alloc: Global,
    explorer: &Explorer,
    call: Call,
) -> Result<bool, Fault>
    requires { 0 < call.max_parts }
{
    let (pick, _unmeasured) = explorer.choose(rt, alloc, PLACE, call)?;
    Ok(pick == Pick::By(Path::Parallel))
}

// Makes one call of each kind, but for a join and a job, whose picks alone are looked at.
fn ways_of<Rt: Threads + Wait + Sync + Abort>(
    rt: &Rt,
    alloc: Global,
    explorer: &Explorer,
) -> Result<Ways, Fault> {
    let least = NonZeroUsize::MIN;
    let ranges = batch_ranges(rt, alloc, explorer, PLACE, 64, least)?.len();
    let grids = [Grid {
        rows: 64,
        tile_cost: least,
    }];
    assert!(rt; Grid::fits(&grids, 64));
    let workers = explorer.run_tiles(rt, alloc, PLACE, 64, &grids, 1, |tiles| {
        tiles.workers().get()
    })?;
    let body = explorer.run(rt, alloc, PLACE, 64, serial, parallel)?;
    let is_cut = last_count(rt, alloc, explorer)? != Some(4);
    let joins = picks_last(rt, alloc, explorer, Call::join())?;
    let hands_off = picks_last(rt, alloc, explorer, Call::spawn(1))?;
    let last = [body == "parallel", is_cut, joins, hands_off];
    Ok(([ranges, workers], last))
}

#[test]
fn the_parallel_rule_takes_the_most_parallel_ways(rt: HostRuntime) {
    let alloc = rt.alloc();
    // Planned for one, a join is parallel all the same, and a job is handed off.
    for (threads, planned, wanted) in [
        (2, 3, ([3, 3], [true; 4])),
        (4, 8, ([8, 8], [true; 4])),
        (2, 1, ([1, 1], [false, false, true, true])),
    ] {
        let (threads, number) = (number(threads), number(planned));
        let strategy = pooled(&rt, alloc, threads, number, Stopped).expect(&rt, "a pool");
        let explorer = Explorer::parallel(&strategy).expect(&rt, "memory");
        let of: Of = ("ways", "Parallel, planned for", planned);
        row(&rt, of, ways_of(&rt, alloc, &explorer), Ok(wanted));
        row(&rt, of, parts_see(&rt, alloc, &explorer), Ok((true, true)));
    }
}

// By each rule of a search: serially, in parallel, and by the hash of each of four seeds.
const WAYS: [Ways; 6] = [
    ([1, 1], [false; 4]),
    ([8, 8], [true; 4]),
    ([5, 5], [false, false, false, true]),
    ([8, 8], [true, true, true, false]),
    ([3, 3], [false, false, false, true]),
    ([5, 5], [false, false, false, true]),
];

#[test]
fn a_search_takes_the_ways_of_each_rule(rt: HostRuntime) {
    let alloc = rt.alloc();
    let mut taken = Vec::with_capacity(alloc, 6).expect(&rt, "memory");
    let is_kept = explore(&rt, alloc, |explorer| {
        let ways = ways_of(&rt, alloc, explorer).expect(&rt, "memory");
        taken.push(ways).is_ok()
    });
    holds!(&rt, is_kept.expect(&rt, "one output"));
    same!(&rt, taken.as_slice(), WAYS.as_slice());
}

fn bit(place: usize) -> u32 {
    1u32.wrapping_shl((place % 32) as u32)
}

// A bit for both numbers, which differ, and for the way of each other call.
fn bits_of(ways: Ways) -> [u32; 3] {
    let (counts, last) = ways;
    let mut others = 0u32;
    for is_last in last {
        others = others
            .wrapping_mul(4)
            .wrapping_add(bit(usize::from(is_last)));
    }
    [bit(counts[0]), bit(counts[1]), others]
}

#[test]
fn a_seed_repeats_its_ways_and_seeds_take_each_of_them(rt: HostRuntime) {
    let alloc = rt.alloc();
    let strategy = pool(&rt, alloc, 2, 8).expect(&rt, "a pool");
    let mut seen = [0u32; 3];
    for seed in 0..256u64 {
        let explorer = Explorer::seeded(&strategy, seed).expect(&rt, "memory");
        let first = ways_of(&rt, alloc, &explorer).expect(&rt, "memory");
        let of: Of = ("ways", "seed", seed as usize);
        row(&rt, of, ways_of(&rt, alloc, &explorer), Ok(first));
        let bits = bits_of(first);
        seen = [seen[0] | bits[0], seen[1] | bits[1], seen[2] | bits[2]];
    }
    // One to eight ranges, as many workers, and both ways of each other call.
    same!(&rt, seen, [510, 510, 255]);
}
