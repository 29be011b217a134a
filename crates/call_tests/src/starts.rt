//! How many threads each call starts: at most one fewer than its strategy has, and none where it
//! goes serially; and who starts them: its caller, up to 63 of them, and all before it does a part
//! of its own. A thread that is started by another one comes later than that by as long as a start
//! takes, and by then the caller is at work.
use crate::checks::{Test, all_acts, equal, row, through};
use crate::meets::power_within;
use commonware_parallel::mocks::Rule;
use parallel_pool::rayon::ThreadPool;
use std::io::Eprint;
use std::rt::Files;
use test_calls::calls::Called;
use test_calls::every_call::Act;
use test_calls::others::{PART, Sorted};
use test_calls::own_part::OwnPart;
use test_calls::sources::Given;
use test_calls::visits::Visitor;
use test_calls::ways::{Row, THREADS, Through, Way, threads_between};
use test_support::number;
use test_support::processes::last_number;

// How many threads are started meanwhile, as few as in the best of many tries, as others start
// threads too; the greatest number is where it never succeeds.
fn least_started(rt: &(impl Test + Files), through: &Through, of: Row, enough: u64) -> u64 {
    let mut least = u64::MAX;
    for _ in 0..2000u32 {
        let before = last_number(rt);
        if through.does(rt, of.act, of.len, Visitor::Passes).is_ok() {
            least = least.min(last_number(rt).wrapping_sub(before));
        }
        if least <= enough {
            return least;
        }
    }
    least
}

// How many items a call is over, and how many threads it starts at most, of that many others. A
// join starts one by whatever number of threads.
fn most_of(way: Way, act: Act, others: u64) -> (usize, u64) {
    match act {
        Act::Run(_) => (100, 0),
        Act::Join if matches!(way, Way::Pool(..)) => (100, 1),
        Act::Join => (100, others.min(1)),
        // Numbers that are three parts.
        Act::Sort(_) => (24_576, others.min(2)),
        // It goes over its items twice, and has to gather those of a source.
        Act::Scan(_) => (100, others.saturating_mul(2)),
        act if act.asks_twice() => (100, others.saturating_mul(3)),
        // A tree of 128 leaves has seven levels.
        Act::Tree(_) => (128, others.saturating_mul(7)),
        _ => (100, others),
    }
}

// Stops the test where a call through a strategy starts more threads than that. Where others start
// threads all the time there is nothing to be seen.
fn all_start(rt: &(impl Test + Files + Eprint), way: Way, others: u64) {
    let through = through(rt, way);
    for act in all_acts(rt) {
        // No call's start depends on its source.
        if !act.is_over_own() {
            continue;
        }
        let (len, most) = most_of(way, act, others);
        // (others start a few while a call starts many)
        let most = most.saturating_add(others / 8);
        let of = Row { way, act, len };
        let least = least_started(rt, &through, of, most);
        let rest = Row::of(way, Act::Rest, len);
        if least > most && least_started(rt, &through, rest, 0) == 0 {
            row(rt, of, least, most);
        } else if least > most {
            let _told = eprintln!(rt; "nothing is seen by {way:?}: others start threads");
            return;
        }
    }
}

#[test]
fn each_call_starts_at_most_one_thread_fewer_than_there_are(rt: HostRuntime) {
    for threads in THREADS {
        let others = (threads as u64).saturating_sub(1);
        all_start(&rt, Way::Pool(threads, threads), others);
    }
    all_start(&rt, Way::Noting(3), 2);
    all_start(&rt, Way::Pool(2, 8), 1);
}

#[test]
fn a_serial_call_starts_no_thread(rt: HostRuntime) {
    all_start(&rt, Way::Sequential, 0);
    all_start(&rt, Way::Explorer(Rule::Serial, 4, 4), 0);
}

// The lists of a long partition's segments are put together by all threads once more, a scan goes
// over its items twice, and the parts of a sort are merged in rounds.
#[test]
fn a_call_of_several_rounds_starts_threads_for_each(rt: HostRuntime) {
    let partition = Act::List(Called::Partition, Given::OwnProducer);
    for (threads, act, len, wanted) in [
        (4, partition, 131_071, 3),
        (4, partition, 131_072, 6),
        (7, partition, 131_072, 12),
        (4, Act::Scan(true), 100, 6),
        (7, Act::Scan(false), 100, 12),
        // Fewer numbers than two parts are sorted by the caller alone.
        (4, Act::Sort(Sorted::Stable), 16_383, 0),
        (8, Act::Sort(Sorted::Stable), 65_536, 11),
        (12, Act::Sort(Sorted::Unstable), 98_304, 18),
    ] {
        let of = Row::of(Way::Pool(threads, threads), act, len);
        let least = least_started(&rt, &through(&rt, of.way), of, wanted);
        row(&rt, of, least, wanted);
    }
}

// How many items a call is over, and how many threads its caller starts of that many; none where
// nothing is called that sees it. Of a run one body is called, and a sort of 64 parts and more gives
// each thread that is started two.
fn wanted_of(act: Act, threads: usize) -> (usize, usize) {
    let others = threads.saturating_sub(1);
    let many = threads.saturating_mul(10);
    match act {
        Act::Run(_) => (many, 0),
        act if act.is_silent() => (many, 0),
        Act::Join => (many, others.min(1)),
        Act::Sort(_) => (threads.min(63).saturating_mul(PART), others.min(62)),
        Act::Tree(_) => (threads.saturating_mul(37), others),
        // Their workers are a list with an item for each, which needn't be shared by all threads.
        Act::Fill(..) => (many, power_within(threads).saturating_sub(1)),
        _ => (many, others),
    }
}

// Stops the test where the caller of that has begun its own part before so many threads were
// started, in one of some tries.
fn starts_first(
    rt: &(impl Test + Files),
    host: HostRuntime,
    through: &Through,
    of: Row,
    wanted: u64,
) {
    let tries = if wanted > 3 { 1 } else { 5 };
    for _ in 0..tries {
        let own = OwnPart::of(&host);
        let before = last_number(rt);
        let made = through.does(rt, of.act, of.len, Visitor::Sees(host, &own));
        let found = own.started_since(before).min(wanted);
        row(rt, of, (made, found), (Ok(()), wanted));
    }
}

// The same of each call, by that many threads: no call's start depends on its source.
fn all_start_first(rt: &(impl Test + Files), host: HostRuntime, way: Way, threads: usize) {
    let through = through(rt, way);
    for act in all_acts(rt) {
        let (len, others) = wanted_of(act, threads);
        if act.is_over_own() && others > 0 {
            starts_first(rt, host, &through, Row { way, act, len }, others as u64);
        }
    }
}

#[test]
fn a_caller_starts_all_threads_before_its_own_part(rt: HostRuntime) {
    for threads in threads_between(2, 7) {
        all_start_first(&rt, rt, Way::Pool(*threads, *threads), *threads);
    }
    all_start_first(&rt, rt, Way::Noting(4), 4);
}

// One more than 64 starts in two rows.
#[test]
fn a_caller_starts_many_threads_before_its_own_part(rt: HostRuntime) {
    for threads in threads_between(8, 17) {
        all_start_first(&rt, rt, Way::Pool(*threads, *threads), *threads);
    }
    all_start_first(&rt, rt, Way::Explorer(Rule::Parallel, 16, 16), 16);
    all_start_first(&rt, rt, Way::Pool(64, 64), 64);
}

// The same of a broadcast's calls side by side, the last of which is the caller's own.
fn row_starts_first(rt: &(impl Test + Files), host: HostRuntime, calls: usize) {
    let wanted = (calls as u64).saturating_sub(1);
    let pool = ThreadPool::new(number(calls));
    for _ in 0..10u32 {
        let own = OwnPart::of(&host);
        let before = last_number(rt);
        let made = pool.broadcast(rt, rt.alloc(), &|_context| own.see(&host));
        let found = own.started_since(before).min(wanted);
        let of = (calls, made.is_ok(), found);
        equal(rt, "calls in a row", of, (calls, true, wanted));
    }
}

#[test]
fn a_caller_starts_all_threads_of_calls_in_a_row(rt: HostRuntime) {
    for calls in [2usize, 3, 5, 8, 12, 64] {
        row_starts_first(&rt, rt, calls);
    }
}
