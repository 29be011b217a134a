//! The program's command lines, its refusals, and that its searches and its drain start threads.
use crate::checks::{equal, held};
use shapes_command::command;
use std::alloc::{AllocError, AllocGlobal, Global};
use std::process::Abort;
use std::rt::Files;
use std::sync::Wait;
use std::thread::Threads;
use test_support::no_memory::all_memory;
use test_support::processes::last_number;

// What a command left: its status, and what it wrote to either writer.
#[derive(Debug, PartialEq, Eq, Drop)]
struct Ran {
    status: u8,
    out: String,
    err: String,
}

/// The words of the line, which single spaces part; no words where it is empty.
pub fn words_of(alloc: Global, line: &str) -> Result<Vec<String>, AllocError> {
    let mut words = Vec::new(alloc);
    if !line.is_empty() {
        for word in line.split(' ') {
            words.push(String::from_str(alloc, word)?)?;
        }
    }
    Ok(words)
}

// Runs the words of the line. The words and the writers have their memory before; None where it is
// refused.
fn run<R: Threads + Wait + Abort + Sync>(rt: &R, alloc: Global, line: &str) -> Option<Ran> {
    let Ok(words) = words_of(alloc, line) else {
        return None;
    };
    let Ok(mut out) = Vec::with_capacity(alloc, 64) else {
        return None;
    };
    let Ok(mut err) = Vec::with_capacity(alloc, 64) else {
        return None;
    };
    let status = command(rt, alloc, &words, &mut out, &mut err).expect(rt, line);
    Some(Ran {
        status,
        out: text_of(rt, out),
        err: text_of(rt, err),
    })
}

/// The text that was written.
pub fn text_of(rt: &impl Abort, written: Vec<u8>) -> String {
    String::from_utf8(written).expect(rt, "a text")
}

/// Runs the words of the line, which have to leave this status and these texts.
pub fn leaves<R: Threads + Wait + Abort + Sync>(
    rt: &R,
    alloc: Global,
    line: &str,
    wanted: (u8, &str, &str),
) {
    let ran = run(rt, alloc, line).expect(rt, "memory");
    let found = (ran.status, ran.out.as_str(), ran.err.as_str());
    equal(rt, line, found, wanted);
}

// Command lines, and after a colon the line that each prints. (One text, since a list of as many
// borrowed texts takes the borrow check twelve seconds.)
const ANSWERED: &str = "\
    : 0 1 2 3\n\
    drain 4 2: 0 1 2 3\n\
    drain 1 16: 0\n\
    drain 0 2: \n\
    drain 5 16: 0 1 2 3 4\n\
    batches 10 4: 0..3 3..6 6..8 8..10\n\
    batches 3 5: 0..1 1..2 2..3 3..3 3..3\n\
    batches 0 2: 0..0 0..0\n\
    batches 18446744073709551615 3: 0..6148914691236517205 6148914691236517205..12297829382473034410 12297829382473034410..18446744073709551615\n\
    grid 4 1 64 8: 35 cut\n\
    grid 4 1 64 1: 260 whole\n\
    grid 18446744073709551615 18446744073709551615 18446744073709551615 1: 18446744073709551615 whole\n\
    grid 1 1 18446744073709551615 2: 9223372036854775810 cut\n\
    grid 0 5 7 3: 0 whole\n\
    segments 4 100: 12 13 12 13 12 13 12 13\n\
    segments 3 5: 1 1 1 2\n\
    segments 1 1: 1\n\
    segments 4 0: 0\n\
    segments 65535 3: 1 1 1\n\
    segments 65535 0: 0\n\
    segments 1 18446744073709551615: 9223372036854775807 9223372036854775808\n\
    fold serial 10 1 2 3: 16\n\
    fold serial 10: 10\n\
    fold serial 0: 0\n\
    fold serial 1000000 1000000: 2000000\n\
    fold serial 010 01 2 003: 16\n\
    fold parallel 10 1 2 3: 66\n\
    fold parallel 10: 20\n\
    fold parallel 0: 0\n\
    fold parallel 0 1 2 3 4 5: 15\n\
    fold parallel 1 0 0 0 0 0 0 0 0 0: 8\n\
    threads 0 0 7 4: 4\n\
    threads 0 - 7 4: 7\n\
    threads 0 x 7 4: 7\n\
    threads 70000 - - 4: 65535\n\
    threads 0 - - -: 1\n\
    threads 0 0 7 -: 1\n\
    threads 0 - 0 4: 4\n\
    threads 0 +3 7 4: 3\n\
    threads 0 3x +5 4: 5\n\
    threads 0 18446744073709551616 - 4: 4\n\
    threads 0  - 18446744073709551615: 65535\n\
    mix 0 1 1 64: 2107625324\n\
    mix 1 1 1 64: 1104250607\n\
    mix 2 1 1 64: 100875890\n\
    mix 3 1 1 64: 1244984820\n\
    mix 18446744073709551615 4294967295 4294967295 18446744073709551615: 1244984759\n\
    root: \n\
    root 9: 9\n\
    root 1 2 3: 25\n\
    root 1 2 3 4 5: 155\n\
    root 1 2 3 4 5 6 7: 371";

#[test]
fn each_command_prints_one_line(rt: HostRuntime) {
    let alloc = rt.alloc();
    for told in ANSWERED.split('\n') {
        let (line, printed) = told.split_once(": ").expect(&rt, "a colon");
        let printed = format!(in alloc; "{printed}\n").expect(&rt, "memory");
        leaves(&rt, alloc, line, (0, &printed, ""));
    }
}

// How many words a command with a long line leaves, where its line begins and ends with these
// texts.
fn words_left<R: Threads + Wait + Abort + Sync>(
    rt: &R,
    alloc: Global,
    line: &str,
    first: &str,
    last: &str,
) -> usize {
    let ran = run(rt, alloc, line).expect(rt, "memory");
    equal(rt, line, ran.status, 0);
    held(
        rt,
        line,
        ran.out.starts_with(first) && ran.out.ends_with(last),
    );
    ran.out.split(' ').count()
}

#[test]
fn the_widest_commands_succeed(rt: HostRuntime) {
    let alloc = rt.alloc();
    let line = "batches 18446744073709551615 65535";
    for (line, first, last, words) in [
        ("drain 65535 16", "0 1 2 ", " 65533 65534\n", 65_535),
        (line, "0..", "..18446744073709551615\n", 65_535),
        ("segments 65535 18446744073709551615", "", "\n", 65_536),
    ] {
        let found = words_left(&rt, alloc, line, first, last);
        equal(&rt, line, found, words);
    }
}

/// The line of that many items after these words, each the greatest number.
pub fn widest(alloc: Global, words: &str, items: usize) -> Result<String, AllocError> {
    let mut line = String::from_str(alloc, words)?;
    for _ in 0..items {
        line.push_str(" 1000000")?;
    }
    Ok(line)
}

// These words take a thousand items after them and no more.
fn takes_a_thousand<R: Threads + Wait + Abort + Sync>(
    rt: &R,
    alloc: Global,
    words: &str,
    printed: &str,
) {
    let most = widest(alloc, words, 1_000).expect(rt, "memory");
    leaves(rt, alloc, &most, (0, printed, ""));
    let more = widest(alloc, words, 1_001).expect(rt, "memory");
    leaves(rt, alloc, &more, (2, "", "shapes: bad arguments\n"));
}

#[test]
fn a_fold_and_a_root_take_a_thousand_items(rt: HostRuntime) {
    takes_a_thousand(&rt, rt.alloc(), "fold serial 1000000", "1001000000\n");
    takes_a_thousand(&rt, rt.alloc(), "root", "890209\n");
}

// Lines that are no command.
const REFUSED: &str = "\
    drain 4\n\
    drain 65536 2\n\
    drain 4 0\n\
    drain 4 17\n\
    drain +3 2\n\
    drain ٣ 2\n\
    batches 18446744073709551616 1\n\
    batches 4 0\n\
    batches 4 65536\n\
    grid 4 0 64 1\n\
    grid 4 1 64 0\n\
    mix 0 1 1\n\
    mix 0 1 1 64 1\n\
    mix 18446744073709551616 1 1 64\n\
    mix 0 4294967296 1 64\n\
    segments 3\n\
    segments 0 5\n\
    fold\n\
    fold Parallel 10 1 2 3\n\
    fold parallel 1000001\n\
    fold parallel 1 -2\n\
    fold serial 1 2 \n\
    explore\n\
    explore sum 1\n\
    explore bodies 2\n\
    root 1000001\n\
    root 1 two\n\
    root \n\
    threads 0 0 7\n\
    threads - 0 7 4\n\
    threads 0 0 7 0\n\
    threads 0 0 7 \n\
    help\n\
    \x20";

#[test]
fn other_words_are_bad_arguments(rt: HostRuntime) {
    for line in REFUSED.split('\n') {
        leaves(&rt, rt.alloc(), line, (2, "", "shapes: bad arguments\n"));
    }
}

#[test]
fn a_search_tells_the_sum_or_the_difference(rt: HostRuntime) {
    leaves(&rt, rt.alloc(), "explore sum", (0, "4950\n", ""));
    let told = "shapes: the Parallel run must return the serial run's output\n";
    leaves(&rt, rt.alloc(), "explore bodies", (1, "", told));
}

// Whether a search for a body that differs is refused memory: it says so, or the difference.
fn is_refused<R: Threads + Wait + Abort + Sync>(
    rt: &R,
    alloc: Global,
    words: &[String],
    err: &mut Vec<u8>,
) -> bool {
    err.clear();
    let mut out = Vec::new(alloc);
    let status = command(rt, alloc, words, &mut out, err).expect(rt, "writers that write");
    equal(rt, "the status", status, 1);
    err.as_slice() == b"shapes: out of memory\n".as_slice()
}

// A search takes memory, which nothing else shows of one for a body. Run with `rt try --test
// --fail-alloc 40`, by which one of the searches is refused, and nothing after them. Elsewhere each
// is refused where no memory is left.
#[test]
fn a_search_for_bodies_is_refused_memory(rt: HostRuntime) {
    let alloc = rt.alloc();
    let words = words_of(alloc, "explore bodies").expect(&rt, "memory");
    let mut err = Vec::with_capacity(alloc, 128).expect(&rt, "memory");
    for _ in 0..100u32 {
        let _ = is_refused(&rt, alloc, &words, &mut err);
    }
    for _ in 0..60u32 {
        let later = Vec::<u64>::with_capacity(alloc, 1);
        held(&rt, "what is asked for later is granted", later.is_ok());
    }
    if let Some(blocks) = all_memory(alloc) {
        let refused = is_refused(&rt, alloc, &words, &mut err);
        drop(blocks);
        held(&rt, "a search without memory is refused", refused);
    }
}

// Run with `rt try --test --fail-alloc N` for each N: a refused growth leaves no line, half or
// whole.
#[test]
fn a_refused_growth_leaves_no_line(rt: HostRuntime) {
    for told in ANSWERED.split('\n') {
        let (line, printed) = told.split_once(": ").expect(&rt, "a colon");
        let Some(ran) = run(&rt, rt.alloc(), line) else {
            continue;
        };
        let wanted = if ran.status == 0 {
            (Some(printed), "")
        } else {
            (None, "shapes: out of memory\n")
        };
        equal(
            &rt,
            line,
            (ran.out.strip_suffix('\n'), ran.err.as_str()),
            wanted,
        );
    }
}

// How many threads a command that prints this starts, as few as in the best of many tries.
fn least_by_command<Rt: Threads + Wait + Files + AllocGlobal + Abort + Sync>(
    rt: &Rt,
    alloc: Global,
    line: &str,
    printed: &str,
) -> u64 {
    let mut least = u64::MAX;
    for _ in 0..20u32 {
        let before = last_number(rt);
        leaves(rt, alloc, line, (0, printed, ""));
        least = least.min(last_number(rt).wrapping_sub(before));
    }
    least
}

// A search runs by six rules, of which these start threads: the parallel one, and those that the
// hash of the call picks so. A run over many items starts three, one over pairs of each level at
// most as many, and one fewer than there are pairs.
#[test]
fn the_programs_searches_and_its_drain_start_threads(rt: HostRuntime) {
    let alloc = rt.alloc();
    let least = least_by_command(&rt, alloc, "explore sum", "4950\n");
    equal(&rt, "explore sum: threads of 12", least.min(12), 12);
    let least = least_by_command(&rt, alloc, "drain 4 2", "0 1 2 3\n");
    equal(&rt, "drain 4 2: threads of 1", least.min(1), 1);
    let line = widest(alloc, "root", 1_000).expect(&rt, "memory");
    let least = least_by_command(&rt, alloc, &line, "890209\n");
    equal(&rt, "root of 1000: threads of 75", least.min(75), 75);
}
