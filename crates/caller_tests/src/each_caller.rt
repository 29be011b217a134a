//! That each caller that others may read succeeds through each strategy, and asks at its own site.
//! Each goes over eight items.
use crate::checks::equal;
use batch_verifier::{split_by_check, sum_within, verify_all, verify_digests};
use commonware_parallel::{Call, Runtime, Sequential, Site, Strategy};
use merkle_tree::{Tree, commitment};
use parallel_calls::On;
use test_calls::every_call::{Act, Host};
use test_calls::logs::{self, INNER, Line, OUTER, asked_at};
use test_calls::noting::Noting;
use test_calls::others::Batched;
use test_calls::ways::{Through, ways};
use test_strategies::SITE;
use test_support::number;
use uses::folds::sum_of_squares;
use uses::in_place::double_each;
use uses::least::{least_by_key, least_of_table};
use uses::long_lists::LongLists;
use uses::maps::{borrowed_squares, first_squares};
use uses::one_place::squares_and_sum;
use uses::outputs::square_in_place;
use uses::own_lists::{squares_backwards, squares_of_wrapped};
use uses::ready::{count_even, even_numbers, evens_and_odds, first_even, greatest, halves, least};
use uses::squares::squares;
use uses::stateful::leave_out_repeats;
use uses::words::longest_word;

// What the calls of a caller have in common.
type Here<'a, Rt, S> = On<'a, Rt, S, Site>;

// The callers, each by its place here.
const CALLERS: [&str; 26] = [
    "sum_of_squares",
    "borrowed_squares",
    "first_squares",
    "squares_and_sum",
    "squares_backwards",
    "squares_of_wrapped",
    "squares",
    "split_by_check",
    "verify_all",
    "leave_out_repeats",
    "square_in_place",
    "double_each",
    "sum_within",
    "longest_word",
    "verify_digests",
    "commitment",
    "Tree::build",
    "first_even",
    "count_even",
    "least",
    "even_numbers",
    "greatest",
    "least_of_table",
    "least_by_key",
    "halves",
    "evens_and_odds",
];

const NUMBERS: [u32; 8] = [3, 1, 4, 1, 5, 9, 2, 6];

fn is_small(number: u32) -> bool {
    number < 10
}

// Those over numbers that stay as they are.
fn over_numbers<Rt: Runtime, S: Strategy>(on: &Here<'_, Rt, S>, caller: usize) -> bool {
    let (rt, alloc, strategy, site) = (on.rt, on.alloc, on.strategy, on.site);
    let numbers = NUMBERS.as_slice();
    let (front, back) = numbers.split_at(3);
    match caller {
        0 => sum_of_squares(rt, alloc, strategy, site, numbers).is_ok(),
        1 => borrowed_squares(rt, alloc, strategy, site, numbers).is_ok(),
        2 => first_squares(rt, alloc, strategy, site, 8).is_ok(),
        3 => squares_and_sum(rt, alloc, strategy, site, numbers).is_ok(),
        4 => squares_backwards(rt, alloc, strategy, site, numbers).is_ok(),
        5 => squares_of_wrapped(rt, alloc, strategy, site, front, back).is_ok(),
        6 => squares(on, numbers).is_ok(),
        7 => split_by_check(rt, alloc, strategy, site, numbers, is_small).is_ok(),
        8 => verify_all(rt, alloc, strategy, site, numbers, is_small).is_ok(),
        _ => leave_out_repeats(rt, alloc, strategy, site, numbers).is_ok(),
    }
}

// Those over wide numbers, in place or with a sum that passes.
fn over_wide_numbers<Rt: Runtime, S: Strategy>(on: &Here<'_, Rt, S>, caller: usize) -> bool {
    let (rt, alloc, strategy, site) = (on.rt, on.alloc, on.strategy, on.site);
    let mut numbers = [3u64, 1, 4, 1, 5, 9, 2, 6];
    match caller {
        10 => square_in_place(rt, alloc, strategy, site, &mut numbers).is_ok(),
        11 => double_each(rt, alloc, strategy, site, &mut numbers).is_ok(),
        _ => sum_within(rt, alloc, strategy, site, &numbers, 9).is_ok(),
    }
}

// SHA-256 of no bytes.
const OF_NONE: [u8; 32] = [
    227, 176, 196, 66, 152, 252, 28, 20, 154, 251, 244, 200, 153, 111, 185, 36, 39, 174, 65, 228,
    100, 155, 147, 76, 164, 149, 153, 27, 120, 82, 184, 85,
];

// Those over texts, which are empty but for the words.
fn over_texts<Rt: Runtime, S: Strategy>(on: &Here<'_, Rt, S>, caller: usize) -> bool {
    let (rt, alloc, strategy, site) = (on.rt, on.alloc, on.strategy, on.site);
    let leaves: [&[u8]; 8] = [b""; 8];
    let words = ["a", "bc", "d", "e", "fgh", "i", "j", "k"];
    match caller {
        13 => longest_word(rt, alloc, strategy, site, &words).is_ok(),
        14 => verify_digests(rt, alloc, strategy, site, &leaves, &[OF_NONE; 8]).is_ok(),
        15 => commitment(rt, alloc, strategy, site, &leaves).is_ok(),
        _ => Tree::build(rt, alloc, strategy, site, &leaves).is_ok(),
    }
}

// Those over wide numbers, by what has the calls at one site in common.
fn by_ready_calls<Rt: Runtime, S: Strategy>(on: &Here<'_, Rt, S>, caller: usize) -> bool {
    let numbers = [3u64, 1, 4, 1, 5, 9, 2, 6];
    match caller {
        // Of what a search finds nothing is told, as of an error: here is nothing to be found.
        17 => first_even(on, &[3, 1, 7, 1, 5, 9, 3, 5]).is_ok(),
        18 => count_even(on, &numbers).is_ok(),
        19 => least(on, &numbers).is_ok(),
        20 => even_numbers(on, &numbers).is_ok(),
        21 => greatest(on, &numbers) == Ok(9),
        22 => least_of_table(on, &numbers) == Ok(Some(1)),
        23 => least_by_key(on, &numbers) == Ok(Some(1)),
        24 => halves(on, &[2, 4, 6, 8, 2, 4, 6, 8]).is_ok(),
        _ => evens_and_odds(on, &numbers).is_ok(),
    }
}

// Such a caller: whether it returns as it should.
fn call<S: Strategy>(rt: &impl Host, strategy: &S, site: Site, caller: usize) -> bool {
    let alloc = rt.alloc();
    let on = &On {
        rt,
        alloc,
        strategy,
        site,
    };
    match caller {
        0..10 => over_numbers(on, caller),
        10..13 => over_wide_numbers(on, caller),
        13..17 => over_texts(on, caller),
        _ => by_ready_calls(on, caller),
    }
}

// The same through such a strategy.
fn call_through(rt: &impl Host, through: &Through, caller: usize) -> bool {
    match through {
        Through::Sequential => call(rt, &Sequential, SITE, caller),
        Through::Noting(noting) => call(rt, noting, SITE, caller),
        Through::Rayon(rayon) => call(rt, rayon, SITE, caller),
        Through::Explorer(explorer) => call(rt, explorer, SITE, caller),
    }
}

#[test]
fn each_caller_succeeds_through_each_strategy(rt: HostRuntime) {
    for way in ways(rt.alloc()).expect(&rt, "memory for a table") {
        let through = Through::of(&rt, way).expect(&rt, "memory for a strategy");
        for (caller, name) in CALLERS.iter().enumerate() {
            let is_right = call_through(&rt, &through, caller);
            equal(&rt, name, (way, is_right), (way, true));
        }
    }
    let long = LongLists::new(number(4), 3);
    for (caller, name) in CALLERS.iter().enumerate() {
        let is_right = call(&rt, &long, SITE, caller);
        equal(&rt, name, ("by length", is_right), ("by length", true));
    }
}

const BEGUN: Line = (OUTER, logs::BEGUN, None);

const TOLD: Line = (OUTER, logs::TOLD, None);

const BEGUN_INSIDE: Line = (INNER, logs::BEGUN, None);

const TOLD_INSIDE: Line = (INNER, logs::TOLD, None);

// The lengths of the lists that such a caller, over eight items, asks about.
fn lengths_of(caller: usize) -> &'static [usize] {
    match caller {
        3 => &[8, 8],
        15 | 16 => &[8, 4, 2, 1],
        _ => &[8],
    }
}

#[test]
fn each_caller_asks_at_its_place(rt: HostRuntime) {
    let place = Site { column: 7, ..SITE };
    for (caller, name) in CALLERS.iter().enumerate() {
        let noting = Noting::new(rt.alloc(), 4).expect(&rt, "a log");
        let is_right = call(&rt, &noting, place, caller);
        equal(&rt, name, is_right, true);
        let mut lines = Vec::new(rt.alloc());
        if caller == 10 {
            let batch = Act::Batch(Batched::Change, 1).question(8, 4);
            let outer = asked_at(OUTER, 7, Call { work: 8, ..batch });
            let inner = asked_at(INNER, 7, Call::body(4));
            let own = [outer, BEGUN, inner, BEGUN_INSIDE, TOLD_INSIDE, TOLD];
            lines.extend_from_slice(&own).expect(&rt, "memory");
        } else {
            for len in lengths_of(caller) {
                let three = [asked_at(OUTER, 7, Call::body(*len)), BEGUN, TOLD];
                lines.extend_from_slice(&three).expect(&rt, "memory");
            }
        }
        let found = noting.log().lines(&rt);
        equal(&rt, name, found.as_slice(), lines.as_slice());
    }
}
