//! Each call on 1,000 random lists through each strategy, against std's iterator.
use crate::checks::{Host, calls_of, row};
use crate::random::Random;
use commonware_parallel::mocks::{Explorer, Rule};
use commonware_parallel::{Copies, Sequential, Site, Strategy};
use parallel_calls::On;
use std::alloc::Global;
use std::cmp::Ordering;
use std::sync::atomic::{AtomicU64, Ordering as Counting};
use std::test::Fail;
use test_strategies::pool;

// What is asked of a number.
fn is_seventh(number: u64) -> bool {
    number % 7 == 0
}

fn is_seventh_at(number: &u64) -> bool {
    *number % 7 == 0
}

// Half of it, where it is even.
fn half(number: u64) -> Option<u64> {
    if number % 2 == 0 {
        Some(number / 2)
    } else {
        None
    }
}

fn seventh(number: u64) -> Option<u64> {
    if is_seventh(number) {
        Some(number)
    } else {
        None
    }
}

fn half_at(number: &u64) -> Option<u64> {
    half(*number)
}

// An order in which many numbers tie.
fn by_tens(left: &u64, right: &u64) -> Ordering {
    (left / 10).cmp(&(right / 10))
}

fn greater(left: u64, right: u64) -> u64 {
    left.max(right)
}

// A key that many numbers share.
fn tens(number: &u64) -> u64 {
    *number / 10
}

fn is_at_most(left: &u64, right: &u64) -> bool {
    *left <= *right
}

// The number, and its half, where it is even.
fn with_half(alloc: Global, number: u64) -> Vec<u64> {
    let mut both = Vec::new(alloc);
    let _first = both.push(number);
    if let Some(half) = half(number) {
        let _second = both.push(half);
    }
    both
}

// Stops the test where the calls that look for items give others than std's.
fn finds<Rt: Host, S: Strategy>(on: &On<'_, Rt, S, Site>, numbers: &[u64]) {
    let items = Copies { slice: numbers };
    let is_any = Ok(numbers.iter().any(is_seventh_at));
    row(on, ("any", numbers), on.any(items, is_seventh), is_any);
    let are_all = Ok(numbers.iter().all(is_seventh_at));
    row(on, ("all", numbers), on.all(items, is_seventh), are_all);
    let found = on.find_first(items, is_seventh_at);
    let first = numbers.iter().copied().find(is_seventh_at);
    row(on, ("find_first", numbers), found, Ok(first));
    let found = on.position_first(items, is_seventh);
    let place = numbers.iter().position(is_seventh_at);
    row(on, ("position_first", numbers), found, Ok(place));
    let found = on.find_map_first(items, half);
    let value = numbers.iter().find_map(half_at);
    row(on, ("find_map_first", numbers), found, Ok(value));
}

fn has_same_tens(left: &u64, right: &u64) -> bool {
    tens(left) == tens(right)
}

// A list of the same numbers.
fn list_of<Rt: Host>(rt: &Rt, alloc: Global, numbers: &[u64]) -> Vec<u64> {
    let mut list = Vec::new(alloc);
    list.extend_from_slice(numbers).expect(rt, "memory");
    list
}

// The same of those that gather items; of a run the first one stays, as a vector's own call leaves
// it.
fn gathers<Rt: Host, S: Strategy>(on: &On<'_, Rt, S, Site>, numbers: &[u64]) {
    let (rt, alloc) = (on.rt, on.alloc);
    let items = Copies { slice: numbers };
    let sevenths = numbers.iter().copied().filter(is_seventh_at);
    let sevenths = sevenths.collect::<Vec<u64>>(alloc).expect(rt, "memory");
    let count = on.count(items, is_seventh);
    row(on, ("count", numbers), count, Ok(sevenths.len()));
    let found = on.filter(items, is_seventh_at);
    row(on, ("filter", numbers), found, Ok(sevenths));
    let found = on.filter_map(items, half);
    let halves = numbers.iter().copied().filter_map(half);
    let halves = halves.collect::<Vec<u64>>(alloc).expect(rt, "memory");
    row(on, ("filter_map", numbers), found, Ok(halves));
    let mut firsts = numbers
        .iter()
        .collect::<Vec<&u64>>(alloc)
        .expect(rt, "memory");
    firsts.dedup_by(|item, before| has_same_tens(before, item));
    let found = on.dedup_by(numbers, has_same_tens);
    row(on, ("dedup_by", numbers), found, Ok(firsts));
}

// The same of those that put items together.
fn folds<Rt: Host, S: Strategy>(on: &On<'_, Rt, S, Site>, numbers: &[u64]) {
    let items = Copies { slice: numbers };
    let least = Ok(numbers.iter().copied().min_by(by_tens));
    let found = on.min_by(items, by_tens);
    row(on, ("min_by", numbers), found, least);
    let most = Ok(numbers.iter().copied().max_by(by_tens));
    let found = on.max_by(items, by_tens);
    row(on, ("max_by", numbers), found, most);
    let mut sum = 0u64;
    let mut product = 1u64;
    for number in numbers {
        sum = sum.wrapping_add(*number);
        product = product.wrapping_mul(*number);
    }
    let found = (on.sum(items), on.product(items));
    row(on, ("sums", numbers), found, (Ok(sum), Ok(product)));
    let found = on.checked_sum(items);
    row(on, ("checked_sum", numbers), found, Ok(Some(sum)));
    let top = Ok(numbers.iter().copied().max());
    row(on, ("reduce", numbers), on.reduce(items, greater), top);
}

// The same of those by keys, and where an item isn't given to a closure once.
fn keys<Rt: Host, S: Strategy>(on: &On<'_, Rt, S, Site>, numbers: &[u64]) {
    let items = Copies { slice: numbers };
    let found = (on.min_by_key(items, tens), on.max_by_key(items, tens));
    let least = Ok(numbers.iter().copied().min_by_key(tens));
    let most = Ok(numbers.iter().copied().max_by_key(tens));
    row(on, ("by key", numbers), found, (least, most));
    let given = AtomicU64::new(0);
    let made = on.for_each(items, |number: u64| {
        given.fetch_add(number.wrapping_add(1), Counting::SeqCst);
    });
    let mut expected = 0u64;
    for number in numbers {
        expected = expected.wrapping_add(number.wrapping_add(1));
    }
    let given = given.load(Counting::SeqCst);
    let found = (made, given);
    row(on, ("for_each", numbers), found, (Ok(()), expected));
}

// The same of the sorts, and of what is asked of an order.
fn sorts<Rt: Host, S: Strategy>(on: &On<'_, Rt, S, Site>, numbers: &[u64]) {
    let (rt, alloc) = (on.rt, on.alloc);
    let mut sorted = list_of(rt, alloc, numbers);
    let mut expected = list_of(rt, alloc, numbers);
    let made = on.sort_by_key(&mut sorted, tens);
    expected.sort_by_key(tens).expect(rt, "memory");
    let found = (made, sorted.as_slice());
    let wanted = (Ok(()), expected.as_slice());
    row(on, ("sort_by_key", numbers), found, wanted);
    let found = on.is_sorted_by(numbers, is_at_most);
    let before = Ok(numbers.is_sorted_by(is_at_most));
    row(on, ("is_sorted_by", numbers), found, before);
    let made = on.sort_unstable_by_key(&mut sorted, |number: &u64| *number);
    row(on, ("sort_unstable_by_key", numbers), made, Ok(()));
    expected
        .sort_by_key(|number: &u64| *number)
        .expect(rt, "memory");
    let found = on.is_sorted_by(sorted.as_slice(), is_at_most);
    row(on, ("is_sorted_by, sorted", numbers), found, Ok(true));
    row(on, ("sort_unstable_by", numbers), sorted, expected);
}

// The same of one that appends the lists that a closure gives.
fn joins<Rt: Host, S: Strategy>(on: &On<'_, Rt, S, Site>, numbers: &[u64]) {
    let (rt, alloc) = (on.rt, on.alloc);
    let items = Copies { slice: numbers };
    let found = on.flat_map(items, |number: u64| with_half(alloc, number));
    let lists = numbers
        .iter()
        .copied()
        .flat_map(|number: u64| with_half(alloc, number));
    let joined = lists.collect::<Vec<u64>>(alloc).expect(rt, "memory");
    row(on, ("flat_map", numbers), found, Ok(joined));
}

// The same of the calls of a group, for 1,000 random lists.
fn agree<Rt: Host, S: Strategy>(rt: &Rt, alloc: Global, strategy: &S, group: usize) {
    let on = calls_of(rt, alloc, strategy);
    let mut random = Random::new(88172645463325252);
    for _ in 0..1000 {
        let numbers = random.list(alloc, 40, 50).expect(rt, "memory");
        let items = numbers.as_slice();
        match group {
            0 => finds(&on, items),
            1 => gathers(&on, items),
            2 => folds(&on, items),
            3 => keys(&on, items),
            4 => sorts(&on, items),
            _ => joins(&on, items),
        }
    }
}

#[test]
fn serial_calls_agree_with_those_of_std(rt: HostRuntime) {
    for group in 0..6usize {
        agree(&rt, rt.alloc(), &Sequential, group);
    }
}

#[test]
fn an_explorers_calls_agree_with_those_of_std(rt: HostRuntime) {
    let strategy = pool(&rt, rt.alloc(), 4, 4).expect(&rt, "a pool");
    let explorer = Explorer::by_rule(&strategy, Rule::Seeded(1)).expect(&rt, "an explorer");
    for group in 0..6usize {
        agree(&rt, rt.alloc(), &explorer, group);
    }
}

#[test]
fn threads_look_for_items_as_std_does(rt: HostRuntime) {
    for threads in [2usize, 4] {
        let strategy = pool(&rt, rt.alloc(), threads, threads).expect(&rt, "a pool");
        agree(&rt, rt.alloc(), &strategy, 0);
    }
}

#[test]
fn threads_gather_items_as_std_does(rt: HostRuntime) {
    for threads in [2usize, 4] {
        let strategy = pool(&rt, rt.alloc(), threads, threads).expect(&rt, "a pool");
        agree(&rt, rt.alloc(), &strategy, 1);
    }
}

#[test]
fn threads_fold_items_as_std_does(rt: HostRuntime) {
    for threads in [2usize, 4] {
        let strategy = pool(&rt, rt.alloc(), threads, threads).expect(&rt, "a pool");
        agree(&rt, rt.alloc(), &strategy, 2);
        agree(&rt, rt.alloc(), &strategy, 3);
    }
}

#[test]
fn four_threads_sort_items_as_std_does_and_join_lists_in_order(rt: HostRuntime) {
    let strategy = pool(&rt, rt.alloc(), 4, 4).expect(&rt, "a pool");
    agree(&rt, rt.alloc(), &strategy, 4);
    agree(&rt, rt.alloc(), &strategy, 5);
}

#[test]
fn sums_that_do_not_fit_are_none(rt: HostRuntime) {
    let alloc = rt.alloc();
    let strategy = pool(&rt, alloc, 4, 4).expect(&rt, "a pool");
    let on = calls_of(&rt, alloc, &strategy);
    for (numbers, sum, checked) in [
        ([u64::MAX, 0, 0, 1], 0, None),
        ([u64::MAX - 3, 1, 1, 1], u64::MAX, Some(u64::MAX)),
        ([1 << 63, 1 << 63, 1 << 63, 1 << 63], 0, None),
    ] {
        let items = Copies {
            slice: numbers.as_slice(),
        };
        row(&on, ("sum", items.slice), on.sum(items), Ok(sum));
        let found = on.checked_sum(items);
        row(&on, ("checked_sum", items.slice), found, Ok(checked));
    }
}
