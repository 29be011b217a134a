//! Runs, what a pool picks, and the numbers of a pool.
use crate::checks::{Of, row};
use commonware_parallel::rayon::ThreadPoolBuilder;
use commonware_parallel::{
    Call, Chooser, Fault, Kind, Path, Pick, Rayon, Runtime, Sequential, Strategy, Trouble,
};
use std::alloc::Global;
use std::process::Abort;
use std::sync::Wait;
use std::thread::available_parallelism;
use test_strategies::{SITE, Stopped, learning, parallel, pool, serial};
use test_support::{holds, number, same};

fn answered() -> Result<u32, u32> {
    Ok(7)
}

fn failed() -> Result<u32, u32> {
    Err(5)
}

// Stops the test where a run over 64 items doesn't take that body.
fn takes<Rt: Wait + Abort, S: Strategy>(
    rt: &Rt,
    alloc: Global,
    strategy: &S,
    of: Of,
    body: &'static str,
) {
    let taken = strategy.run(rt, alloc, SITE, 64, serial, parallel);
    row(rt, of, taken, Ok(body));
    let tried = strategy.try_run(rt, alloc, SITE, 64, answered, failed);
    let wanted = if body == "serial" {
        Ok(7)
    } else {
        Err(Trouble::Closure(5))
    };
    row(rt, of, tried, wanted);
}

#[test]
fn a_run_takes_the_body_of_its_strategy(rt: HostRuntime) {
    let alloc = rt.alloc();
    same!(&rt, Sequential.run(SITE, 4, serial, parallel), "serial");
    same!(&rt, Sequential.try_run(SITE, 4, failed, answered), Err(5));
    takes(&rt, alloc, &Sequential, ("run", "Sequential", 1), "serial");
    for (threads, planned, body) in [
        (1, 1, "serial"),
        (4, 1, "serial"),
        (1, 4, "parallel"),
        (2, 2, "parallel"),
        (8, 8, "parallel"),
    ] {
        let strategy = pool(&rt, alloc, threads, planned).expect(&rt, "a pool");
        let of: Of = ("run", "a pool planned for", planned);
        takes(&rt, alloc, &strategy, of, body);
    }
}

#[test]
fn a_pool_picks_the_last_way_where_it_is_planned_for_more_than_one(rt: HostRuntime) {
    let alloc = rt.alloc();
    let call = Call::batches(number(8), 17, number(5), usize::MAX);
    let wanted = Call {
        kind: Kind::Batches,
        len: 17,
        work: 18_446_744_073_709_551_615,
        max_parts: 3,
    };
    same!(&rt, call, wanted);
    let (picked, _) = Sequential
        .choose(&rt, alloc, SITE, call)
        .expect(&rt, "memory");
    same!(&rt, picked, Pick::Into(1));
    for (name, kind, planned, wanted) in [
        ("batch", Kind::Batches, 8, Pick::Into(3)),
        ("batch", Kind::Batches, 1, Pick::Into(1)),
        ("tiles", Kind::Tiles, 8, Pick::Into(3)),
        ("job", Kind::Spawn, 1, Pick::By(Path::Parallel)),
        ("join", Kind::Join, 1, Pick::By(Path::Parallel)),
    ] {
        let strategy = pool(&rt, alloc, 2, planned).expect(&rt, "a pool");
        let chosen = strategy.choose(&rt, alloc, SITE, Call { kind, ..call });
        let (picked, _) = chosen.expect(&rt, "memory");
        row(&rt, (name, "a pool planned for", planned), picked, wanted);
        row(
            &rt,
            (name, "serial, planned for", planned),
            strategy.is_serial(),
            planned == 1,
        );
    }
}

// The planning number and the thread number.
fn numbers_of<S: Strategy>(strategy: &S) -> (usize, usize) {
    (strategy.planning().get(), strategy.thread_number().get())
}

#[test]
fn the_planning_number_chooses(rt: HostRuntime) {
    let alloc = rt.alloc();
    let three = learning(&rt, alloc, 3, Stopped).expect(&rt, "a pool");
    same!(&rt, numbers_of(&three), (3, 3));
    let five = three.with_parallelism(number(5)).without_policy();
    same!(&rt, numbers_of(&five.expect(&rt, "memory")), (5, 3));
    let most = learning(&rt, alloc, usize::MAX, Stopped).expect(&rt, "a pool");
    same!(&rt, numbers_of(&most), (65_535, 65_535));
    let planned = most.with_parallelism(number(usize::MAX));
    same!(&rt, numbers_of(&planned), (usize::MAX, 65_535));
}

#[test]
fn a_strategy_has_the_number_of_a_pool_that_was_built(rt: HostRuntime) {
    let alloc = rt.alloc();
    let builder = ThreadPoolBuilder::new().num_threads(3);
    let (built, _none) = builder.build(&rt, alloc).expect(&rt, "memory");
    let strategy = Rayon::with_pool(alloc, &built, Stopped).expect(&rt, "memory");
    drop(built);
    same!(&rt, numbers_of(&strategy), (3, 3));
    let taken = strategy.run(&rt, alloc, SITE, 64, serial, parallel);
    row(
        &rt,
        ("run", "a pool that was built", 64),
        taken,
        Ok("parallel"),
    );
}

// Whether a run is parallel, by whoever has the rights that a call asks for.
fn is_parallel<Rt: Runtime, S: Strategy>(
    rt: &Rt,
    alloc: Global,
    strategy: &S,
) -> Result<bool, Fault> {
    Ok(strategy.run(rt, alloc, SITE, 64, serial, parallel)? == "parallel")
}

#[test]
fn a_pool_of_the_machines_size_is_planned_for_all_of_it(rt: HostRuntime) {
    let alloc = rt.alloc();
    let cores = available_parallelism(&rt).expect(&rt, "cores").get();
    let strategy = Rayon::of_machine(&rt, alloc, number(77)).expect(&rt, "memory");
    same!(&rt, numbers_of(&strategy), (cores, cores));
    let is_parallel = is_parallel(&rt, alloc, &strategy).expect(&rt, "memory");
    same!(&rt, is_parallel, cores > 1);
}
