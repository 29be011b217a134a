//! What becomes of a list once an item has failed: right of an error that is known nothing is
//! called, and an error is known before what is left of its segment is dropped.
use crate::checks::{Test, all_acts, equal, row, through};
use commonware_parallel::mocks::Rule;
use commonware_parallel::{Fault, Runtime, Source, Strategy, Trouble};
use std::alloc::Global;
use std::sync::atomic::{AtomicBool, AtomicUsize, Ordering};
use std::thread::yield_now;
use test_calls::calls::{Called, Here, called_here};
use test_calls::every_call::Act;
use test_calls::noting::Noting;
use test_calls::steps::{add_counts, no_count};
use test_calls::visits::{Times, Visitor};
use test_calls::ways::{Row, Through, Way};

// Stops the test where a call that fails at an item, each or a dozen of many in turn, calls
// anything after it.
fn ends_at_its_error(rt: &impl Test, through: &Through, of: Row) {
    for at in (0..of.len).step_by((of.len / 12).max(1)) {
        let times = Times::new();
        let made = through.does(rt, of.act, of.len, Visitor::FailsAt(&times, at));
        let found = (made, times.items());
        let wanted = (Err(Trouble::Closure(7)), at.saturating_add(1));
        row(rt, of, found, wanted);
    }
}

// The same of each list call that may fail. (A batch has a range for each thread, and a run no
// list.)
fn all_end(rt: &impl Test, way: Way) {
    let through = through(rt, way);
    for act in all_acts(rt) {
        if matches!(act, Act::List(..)) && act.may_fail() {
            for len in [1, 2, 3, 4, 5, 6, 7, 8, 9, 10, 11, 300, 20_000] {
                ends_at_its_error(rt, &through, Row { way, act, len });
            }
        }
    }
}

// One thread goes over both segments of the list, of which the second one begins at half of its
// length.
#[test]
fn right_of_a_known_error_nothing_is_called(rt: HostRuntime) {
    all_end(&rt, Way::Noting(1));
}

#[test]
fn after_an_error_of_a_serial_call_nothing_is_called(rt: HostRuntime) {
    all_end(&rt, Way::Sequential);
    all_end(&rt, Way::Explorer(Rule::Serial, 4, 4));
    all_end(&rt, Way::Explorer(Rule::Parallel, 4, 1));
}

// What is known of a list of which one of the first items fails while another segment is under way.
#[derive(Drop)]
struct Known {
    // On how many threads.
    threads: usize,
    // How many items each segment has, and which of the first one's fails.
    segment: usize,
    fails: usize,
    // How many other items were handed over.
    calls: AtomicUsize,
    // Whether what is left of the failing item's segment is being dropped, and of another one.
    first: AtomicBool,
    others: AtomicBool,
}

// Waits for the flag, for some seconds at most.
fn await_flag(flag: &AtomicBool) {
    for _ in 0..3_000_000u32 {
        if flag.load(Ordering::SeqCst) {
            return;
        }
        yield_now();
    }
}

impl Known {
    fn new(threads: usize, segment: usize, fails: usize) -> Known {
        Known {
            threads,
            segment,
            fails,
            calls: AtomicUsize::new(0),
            first: AtomicBool::new(false),
            others: AtomicBool::new(false),
        }
    }

    // Waits until that many other items were handed over, or one of them is dropped, for some
    // seconds at most.
    fn await_calls(&self, calls: usize) {
        for _ in 0..3_000_000u32 {
            if self.calls.load(Ordering::SeqCst) >= calls || self.others.load(Ordering::SeqCst) {
                return;
            }
            yield_now();
        }
    }

    // The item fails once one after it was handed over, and those wait until what is left after it
    // is dropped.
    fn hand_over(&self, at: usize) -> Result<usize, u32> {
        if at < self.fails {
            return Ok(at);
        }
        if at == self.fails {
            self.await_calls(1);
            return Err(7);
        }
        self.calls.fetch_add(1, Ordering::SeqCst);
        await_flag(&self.first);
        Ok(at)
    }

    // An item is dropped that wasn't handed over. Before this ends others have time to be.
    fn let_go(&self, at: usize) {
        if at < self.segment {
            self.first.store(true, Ordering::SeqCst);
            self.await_calls(self.threads.saturating_add(2));
        } else {
            self.others.store(true, Ordering::SeqCst);
        }
    }
}

// An item of such a list.
struct Kept<'a> {
    at: usize,
    known: &'a Known,
    is_handed_over: bool,
}

impl Drop for Kept<'_> {
    fn drop(self) {
        let Self {
            at,
            known,
            is_handed_over,
        } = self;
        if !is_handed_over {
            known.let_go(at);
        }
    }
}

// What is handed over.
trait Handed {
    // Its place, or the error of the one that fails.
    fn hand_over(self) -> Result<usize, u32>;
}

impl Handed for Kept<'_> {
    fn hand_over(self) -> Result<usize, u32> {
        let mut item = self;
        item.is_handed_over = true;
        item.known.hand_over(item.at)
    }
}

fn hand_over<T: Handed>(item: T) -> Result<usize, u32> {
    item.hand_over()
}

// One more, or that error.
fn count_over<T: Handed>(count: usize, item: T) -> Result<usize, u32> {
    match item.hand_over() {
        Ok(_) => Ok(count.wrapping_add(1)),
        Err(error) => Err(error),
    }
}

// The items of such a list: two threads have four segments of them, and nine have sixteen.
fn segments<'a>(alloc: Global, known: &'a Known) -> Result<Vec<Kept<'a>>, Fault> {
    let segments = if known.threads > 2 { 16 } else { 4 };
    let len = known.segment.saturating_mul(segments);
    let mut items = Vec::with_capacity(alloc, len)?;
    for at in 0..len {
        items.push(Kept {
            at,
            known,
            is_handed_over: false,
        })?;
    }
    Ok(items)
}

// The trouble of such a call over a list of such items.
fn trouble_of<Rt: Runtime, M, I: Source<M>>(
    on: &Here<'_, Rt, Noting>,
    called: Called,
    source: I,
) -> Option<Trouble<u32>>
where
    I::Item: Handed,
    requires { I.can source }
{
    match called {
        Called::TryMap => on
            .strategy
            .try_map_collect_vec(on.rt, on.alloc, on.site, source, hand_over)
            .err(),
        _ => on
            .strategy
            .try_fold(
                on.rt, on.alloc, on.site, source, no_count, count_over, add_counts,
            )
            .err(),
    }
}

// How many other items were handed over, of a list or an iterator, and the call's trouble.
fn other_calls(
    rt: &impl Test,
    called: Called,
    threads: usize,
    is_iterator: bool,
    (segment, fails): (usize, usize),
) -> (usize, Option<Trouble<u32>>) {
    let alloc = rt.alloc();
    let strategy = &Noting::new(alloc, threads).expect(rt, "a log");
    let on = called_here(rt, strategy);
    let known = Known::new(threads, segment, fails);
    let items = segments(alloc, &known).expect(rt, "memory for items");
    let trouble = if is_iterator {
        trouble_of(&on, called, items.into_iter())
    } else {
        trouble_of(&on, called, items)
    };
    (known.calls.load(Ordering::SeqCst), trouble)
}

// At most one other item of each further thread is handed over.
#[test]
fn an_error_is_known_before_what_is_left_of_its_segment_is_let_go(rt: HostRuntime) {
    for called in [Called::TryMap, Called::TryFold] {
        for (threads, is_iterator, segment, fails) in [
            (2, false, 4, 0),
            (2, false, 4, 1),
            (2, false, 4, 2),
            (9, true, 4, 0),
            (9, false, 10_000, 2),
        ] {
            let ends = (segment, fails);
            let (calls, trouble) = other_calls(&rt, called, threads, is_iterator, ends);
            let found = (0 < calls && calls < threads, trouble);
            let wanted = (true, Some(Trouble::Closure(7)));
            let of = (threads, segment, fails, calls);
            equal(&rt, "an error", (of, found), (of, wanted));
        }
    }
}
