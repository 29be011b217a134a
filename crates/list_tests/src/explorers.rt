//! Explorers: what they pick, and what the search through the rules returns.
use crate::checks::{Of, row};
use crate::lists::{Called, KNOWN, call};
use commonware_parallel::mocks::{ExploreError, Rule, explore, pick};
use commonware_parallel::{Chooser, Copies, Fault, Site, Strategy};
use std::alloc::Global;
use std::num::NonZeroUsize;
use std::ops::Range;
use std::sync::Wait;
use std::test::Fail;
use std::thread::Threads;
use test_strategies::{SITE, parallel, serial};
use test_support::{holds, same};

/// The first call site of a file whose name is one byte.
pub const PLACE: Site = Site {
    file: "a",
    line: 1,
    column: 1,
};

const LOWER: Site = Site { line: 2, ..PLACE };

const FURTHER: Site = Site { column: 2, ..PLACE };

// ---- picks

#[test]
fn a_rule_picks_the_first_the_last_or_by_the_hash(rt: HostRuntime) {
    let two = NonZeroUsize::MIN.saturating_add(1);
    let eight = two.saturating_add(6);
    for (rule, site, len, of_two, of_eight) in [
        (Rule::Serial, PLACE, 64, 0, 0),
        (Rule::Parallel, PLACE, 64, 1, 7),
        (Rule::Seeded(0), PLACE, 64, 0, 4),
        (Rule::Seeded(1), PLACE, 64, 1, 7),
        (Rule::Seeded(2), PLACE, 64, 0, 2),
        (Rule::Seeded(3), PLACE, 64, 0, 4),
        (Rule::Seeded(0), LOWER, 64, 0, 6),
        (Rule::Seeded(0), FURTHER, 64, 1, 3),
        (Rule::Seeded(0), PLACE, 65, 1, 5),
        (Rule::Seeded(1), LOWER, 64, 0, 0),
        (Rule::Seeded(1), FURTHER, 64, 0, 6),
        (Rule::Seeded(1), PLACE, 65, 0, 0),
        (Rule::Seeded(2), LOWER, 64, 1, 3),
        (Rule::Seeded(2), FURTHER, 64, 1, 1),
        (Rule::Seeded(2), PLACE, 65, 1, 3),
    ] {
        let picked = (pick(rule, site, len, two), pick(rule, site, len, eight));
        let of: Of = ("picks of two and of eight", "the rule", len);
        row(&rt, of, (rule, picked), (rule, (of_two, of_eight)));
    }
}

// ---- searches

// What a search says of a call, whose list is none where the call fails; and whether its outputs
// differ.
fn explored<Rt: Threads + Wait + Sync>(
    rt: &Rt,
    alloc: Global,
    called: Called,
    numbers: Range<u32>,
) -> (Option<Vec<u32>>, bool) {
    let (start, end) = (numbers.start, numbers.end);
    match explore(
        rt,
        alloc,
        |explorer| call(rt, alloc, explorer, called, start..end).ok(),
    ) {
        Ok(list) => (list, false),
        Err(error) => (None, matches!(error, ExploreError::Differs(Rule::Parallel))),
    }
}

#[test]
fn outputs_that_the_shape_does_not_change_are_returned(rt: HostRuntime) {
    let alloc = rt.alloc();
    for known in &KNOWN {
        let (list, differs) = explored(&rt, alloc, known.1, known.2..known.3);
        let of: Of = (known.0, "a search", known.3 as usize);
        row(&rt, of, differs, known.4[0] != known.4[1]);
        if let Some(list) = list {
            row(&rt, of, list.as_slice(), known.4[0]);
        }
    }
}

// The numbers' sum, begun from a first number in each segment.
fn sum_from<Rt: Threads + Wait + Sync, S: Strategy>(
    rt: &Rt,
    alloc: Global,
    strategy: &S,
    numbers: &[u64],
    first: u64,
) -> Result<u64, Fault> {
    let items = Copies { slice: numbers };
    strategy.fold(
        rt,
        alloc,
        SITE,
        items,
        || first,
        u64::wrapping_add,
        u64::wrapping_add,
    )
}

#[test]
fn a_sum_does_not_depend_on_the_shape(rt: HostRuntime) -> Result<(), Fail> {
    let alloc = rt.alloc();
    let numbers = [3, 1, 4, 1, 5, 9, 2, 6];
    let told = explore(
        &rt,
        alloc,
        |explorer| sum_from(&rt, alloc, explorer, &numbers, 0).ok(),
    );
    assert_eq!(rt; told?, Some(31));
    Ok(())
}

const RULES: [Rule; 6] = [
    Rule::Serial,
    Rule::Parallel,
    Rule::Seeded(0),
    Rule::Seeded(1),
    Rule::Seeded(2),
    Rule::Seeded(3),
];

// A search ends at the first output that differs, which here is the second one.
#[test]
fn the_rules_come_in_their_order(rt: HostRuntime) {
    let alloc = rt.alloc();
    for (is_told, wanted) in [(false, RULES.as_slice()), (true, &RULES[..2])] {
        let mut rules = Vec::with_capacity(alloc, 6).expect(&rt, "memory");
        let told = explore(&rt, alloc, |explorer| {
            let numbers = (explorer.thread_number().get(), explorer.planning().get());
            let is_kept = rules.push(explorer.rule()).is_ok() && numbers == (4, 8);
            let body = explorer.run(&rt, alloc, SITE, 64, serial, parallel);
            is_kept && (body == Ok("serial") || !is_told)
        });
        let is_right = match told {
            Ok(is_kept) => is_kept && !is_told,
            Err(error) => is_told && matches!(error, ExploreError::Differs(Rule::Parallel)),
        };
        holds!(&rt, is_right);
        same!(&rt, rules.as_slice(), wanted);
    }
}
