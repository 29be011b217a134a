//! Known values of callers, through a serial strategy and a pool.
use crate::checks::{Of, lists, row};
use commonware_parallel::mocks::{ExploreError, Rule};
use commonware_parallel::{Sequential, Strategy};
use std::alloc::Global;
use std::process::Abort;
use std::sync::{Arc, Wait};
use std::thread::Threads;
use test_calls::meetings::Meeting;
use test_calls::steps::Does;
use test_strategies::{SITE, parallel, pool, serial};
use test_support::{holds, number, same};
use uses::batches::{batch_ranges, count_by_ranges, digests_by_ranges};
use uses::explored::{explore_from_ten, explore_from_zero};
use uses::folds::{plain_fold, sum_of_entries};
use uses::in_place::digests_into;
use uses::joins::count_parities;
use uses::long_lists::{LongLists, fold_by_length, squares_by_length};
use uses::maps::{doubles, last_entries, squares_of_both};
use uses::outputs::square_in_place;
use uses::runs::{count_set, one_of};
use uses::spawned_jobs::{answer_beside, counts_beside, two_counts};
use uses::stateful::{plain_fold_init, sort_by_first};
use uses::tile_rows::{above_by_row, workers_on_whole_rows};

fn zero() -> u32 {
    0
}

// Adds the item, and counts it in the state.
fn add_counted(sum: u32, state: &mut u32, item: u32) -> u32 {
    *state = state.wrapping_add(1);
    sum.wrapping_add(item)
}

// Entries of a table, and what comes of two lists and of numbers that a closure's `requires` is
// about.
fn lists_come<Rt: Threads + Wait + Abort + Sync, S: Strategy>(
    rt: &Rt,
    alloc: Global,
    strategy: &S,
    through: &'static str,
) {
    let found = last_entries(rt, alloc, strategy, SITE, &[10, 20, 30, 40], 3);
    lists(rt, ("last_entries", through, 3), found, &[40, 30, 20]);
    let found = squares_of_both(rt, alloc, strategy, SITE, &[3], &[4, 5]);
    lists(rt, ("squares_of_both", through, 3), found, &[9, 16, 25]);
    let found = doubles(rt, alloc, strategy, SITE, &[3, 0, 2_147_483_647]);
    lists(rt, ("doubles", through, 3), found, &[6, 0, 4_294_967_294]);
    let matrix = [9, 1, 5, 5, 6, 4, 0, 255];
    let found = above_by_row(rt, alloc, strategy, SITE, &matrix, 2, 4, 4);
    lists(rt, ("above_by_row", through, 2), found, &[3, 2]);
}

// Sums, counts and a sort.
fn values_come<Rt: Threads + Wait + Abort + Sync, S: Strategy>(
    rt: &Rt,
    alloc: Global,
    strategy: &S,
    through: &'static str,
) {
    let sum = sum_of_entries(rt, alloc, strategy, SITE, &[10, 20, 30], &[2, 0, 2]);
    row(rt, ("sum_of_entries", through, 3), sum, Ok(70));
    let sum = plain_fold(
        rt,
        alloc,
        strategy,
        SITE,
        0..100u32,
        zero,
        u32::wrapping_add,
        u32::wrapping_add,
    );
    row(rt, ("plain_fold", through, 100), sum, Ok(4950));
    let numbers = 0..100u32;
    let sum = plain_fold_init(
        rt,
        alloc,
        strategy,
        SITE,
        numbers,
        zero,
        zero,
        add_counted,
        u32::wrapping_add,
    );
    row(rt, ("plain_fold_init", through, 100), sum, Ok(4950));
    let counts = count_parities(rt, alloc, strategy, SITE, &[1, 2, 3]);
    row(rt, ("count_parities", through, 3), counts, Ok((1, 2)));
    let mut pairs = [(2, 97), (1, 98), (2, 99), (1, 100)];
    let sorted = sort_by_first(rt, alloc, strategy, SITE, &mut pairs);
    row(rt, ("sort_by_first", through, 4), sorted, Ok(()));
    let wanted = [(1, 98), (1, 100), (2, 97), (2, 99)];
    row(rt, ("sort_by_first", through, 4), pairs, wanted);
}

// The digests of the empty message and of "abc", as the standard's examples have them.
const DIGESTS: [[u8; 32]; 2] = [
    [
        227, 176, 196, 66, 152, 252, 28, 20, 154, 251, 244, 200, 153, 111, 185, 36, 39, 174, 65,
        228, 100, 155, 147, 76, 164, 149, 153, 27, 120, 82, 184, 85,
    ],
    [
        186, 120, 22, 191, 143, 1, 207, 234, 65, 65, 64, 222, 93, 174, 34, 35, 176, 3, 97, 163,
        150, 23, 122, 156, 180, 16, 255, 97, 242, 0, 21, 173,
    ],
];

// Digests, one after another in a buffer and in a list.
fn digests_come<Rt: Threads + Wait + Abort + Sync, S: Strategy>(
    rt: &Rt,
    alloc: Global,
    strategy: &S,
    through: &'static str,
) {
    let messages: [&[u8]; 2] = [b"", b"abc"];
    let mut buffer = [0u8; 64];
    let written = digests_into(rt, alloc, strategy, SITE, &messages, &mut buffer);
    row(rt, ("digests_into", through, 2), written, Ok(()));
    same!(rt, buffer.as_slice(), DIGESTS.as_flattened());
    let mut digests = [[9u8; 32]; 2];
    let written = digests_by_ranges(rt, alloc, strategy, SITE, &messages, &mut digests);
    row(rt, ("digests_by_ranges", through, 2), written, Ok(()));
    row(rt, ("digests", through, 2), digests, DIGESTS);
}

#[test]
fn callers_return_known_values(rt: HostRuntime) {
    let alloc = rt.alloc();
    let four = pool(&rt, alloc, 4, 4).expect(&rt, "a pool");
    lists_come(&rt, alloc, &Sequential, "Sequential");
    lists_come(&rt, alloc, &four, "a pool");
    values_come(&rt, alloc, &Sequential, "Sequential");
    values_come(&rt, alloc, &four, "a pool");
    digests_come(&rt, alloc, &Sequential, "Sequential");
    digests_come(&rt, alloc, &four, "a pool");
    let two = pool(&rt, alloc, 2, 2).expect(&rt, "a pool");
    let workers = workers_on_whole_rows(&rt, alloc, &two, SITE, 2, 4);
    row(&rt, ("workers_on_whole_rows", "a pool", 2), workers, Ok(2));
}

// Squares the numbers from 1 to 10 where they are, by ranges of these lengths.
fn squares_come<Rt: Threads + Wait + Abort + Sync, S: Strategy>(
    rt: &Rt,
    alloc: Global,
    strategy: &S,
    lengths: &[usize],
) {
    let mut numbers = [1u64, 2, 3, 4, 5, 6, 7, 8, 9, 10];
    let found = square_in_place(rt, alloc, strategy, SITE, &mut numbers);
    let of: Of = ("square_in_place", "so many ranges", lengths.len());
    lists(rt, of, found, lengths);
    same!(rt, numbers, [1, 4, 9, 16, 25, 36, 49, 64, 81, 100]);
}

#[test]
fn a_batch_changes_the_parts_of_a_list_that_is_lent(rt: HostRuntime) {
    let alloc = rt.alloc();
    squares_come(&rt, alloc, &Sequential, &[10]);
    let four = pool(&rt, alloc, 4, 4).expect(&rt, "a pool");
    squares_come(&rt, alloc, &four, &[3, 3, 2, 2]);
    let ranges = batch_ranges(&rt, alloc, &four, SITE, 16, number(5));
    let of: Of = ("batch_ranges", "a pool", 16);
    lists(&rt, of, ranges, &[0..6, 6..11, 11..16]);
}

// A run takes that body, and a count by either body or by ranges is 3.
fn runs_come<Rt: Wait + Abort, S: Strategy>(
    rt: &Rt,
    alloc: Global,
    strategy: &S,
    through: &'static str,
    body: &'static str,
) {
    let taken = one_of(rt, alloc, strategy, SITE, 64, serial(), parallel());
    row(rt, ("one_of", through, 64), taken, Ok(body));
    let flags = [true, false, true, true, false];
    let set = count_set(rt, alloc, strategy, SITE, &flags);
    row(rt, ("count_set", through, 5), set, Ok(3));
    let set = count_by_ranges(rt, alloc, strategy, SITE, &flags);
    row(rt, ("count_by_ranges", through, 5), set, Ok(3));
}

#[test]
fn runs_take_the_body_of_their_strategy(rt: HostRuntime) {
    let alloc = rt.alloc();
    runs_come(&rt, alloc, &Sequential, "Sequential", "serial");
    let four = pool(&rt, alloc, 4, 4).expect(&rt, "a pool");
    runs_come(&rt, alloc, &four, "a pool", "parallel");
    for (from, body) in [(65, "serial"), (64, "parallel")] {
        let long = LongLists::new(number(2), from);
        runs_come(&rt, alloc, &long, "LongLists", body);
    }
}

fn ten() -> u32 {
    10
}

#[test]
fn a_strategy_of_ones_own_goes_by_length(rt: HostRuntime) {
    let alloc = rt.alloc();
    for (from, wanted) in [(3, 66), (4, 16)] {
        let strategy = LongLists::new(number(2), from);
        let add = u32::wrapping_add;
        let sum = fold_by_length(&rt, alloc, &strategy, SITE, 1..4u32, ten, add, add);
        row(&rt, ("fold_by_length", "LongLists", from), sum, Ok(wanted));
        let found = squares_by_length(&rt, alloc, &strategy, SITE, &[3, 0, 1]);
        let of: Of = ("squares_by_length", "LongLists", from);
        lists(&rt, of, found, &[9, 0, 1]);
    }
}

#[test]
fn two_closures_are_told_apart(rt: HostRuntime) {
    let told = explore_from_zero(&rt, rt.alloc());
    let of: Of = ("explore_from_zero", "each rule", 100);
    row(&rt, of, told.expect(&rt, "equal sums"), Ok(4950));
    let told = explore_from_ten(&rt, rt.alloc());
    holds!(
        &rt,
        matches!(told, Err(ExploreError::Differs(Rule::Parallel)))
    );
}

// The set flags of two lists, each counted in a job of its own, and of one counted in a job beside
// the other.
#[test]
fn flags_are_counted_in_jobs(rt: HostRuntime) {
    let strategy = pool(&rt, rt.alloc(), 4, 4).expect(&rt, "a pool");
    let flags = vec![in rt.alloc(); true, false, false].expect(&rt, "memory");
    let others = [true, false, true];
    let beside = counts_beside(&rt, &strategy, SITE, flags, &others);
    let of: Of = ("counts_beside", "a pool", 3);
    row(&rt, of, beside.expect(&rt, "two jobs"), (1, 2));
    let flags = vec![in rt.alloc(); true, true, true].expect(&rt, "memory");
    let more = vec![in rt.alloc(); false, true].expect(&rt, "memory");
    let two = two_counts(&rt, &strategy, SITE, flags, more);
    let of: Of = ("two_counts", "a pool", 3);
    row(&rt, of, two.expect(&rt, "two jobs"), (3, 1));
}

#[test]
fn a_caller_goes_on_while_its_job_runs(rt: HostRuntime) {
    let alloc = rt.alloc();
    let two = pool(&rt, alloc, 2, 2).expect(&rt, "a pool");
    let meeting = Arc::new(alloc, Meeting::of(2, 0)).expect(&rt, "memory for a meeting");
    let job = Does::Attends(Arc::try_clone(&meeting).expect(&rt, "a handle"));
    let both = answer_beside(&rt, &two, SITE, 1, job, || meeting.attend());
    same!(&rt, (both.is_ok(), meeting.most()), (true, 2));
}
