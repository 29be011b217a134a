//! The numbers that Linux gives to processes and threads, and its counts of this process.
use std::alloc::AllocGlobal;
use std::fs;
use std::rt::Files;

// The number behind the last blank of what is told there, or before the first one; or 0.
fn number_in<Rt: Files + AllocGlobal>(rt: &Rt, path: &str, is_last: bool) -> u64 {
    let Ok(text) = fs::read_to_string(rt, path) else {
        return 0;
    };
    let parts = if is_last {
        text.trim().rsplit_once(' ')
    } else {
        text.trim().split_once(' ')
    };
    let Some((before, behind)) = parts else {
        return 0;
    };
    let number = if is_last { behind } else { before };
    number.parse::<u64>().unwrap_or(0)
}

/// The number that was given last to a process or a thread. Behind the greatest one Linux begins
/// anew.
pub fn last_number<Rt: Files + AllocGlobal>(rt: &Rt) -> u64 {
    number_in(rt, "/proc/loadavg", true)
}

/// That of this thread.
pub fn own_number<Rt: Files + AllocGlobal>(rt: &Rt) -> u64 {
    number_in(rt, "/proc/thread-self/stat", false)
}

/// The figure that Linux keeps by that name. How many KiB this process has: of addresses, now (`VmSize:`) or
/// at most (`VmPeak:`), or of memory that is of no file (`RssAnon:`). How often this thread left its
/// processor to another one and would have gone on (`nonvoluntary_ctxt_switches:`).
pub fn figure<Rt: Files + AllocGlobal>(rt: &Rt, name: &str) -> Option<u64> {
    let status = fs::read_to_string(rt, "/proc/thread-self/status").ok()?;
    let line = status.lines().find(|line| line.starts_with(name))?;
    let count = line.trim_start_matches(name).trim_end_matches("kB");
    count.trim().parse::<u64>().ok()
}
