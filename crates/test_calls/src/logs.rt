//! A log of all that a strategy is asked and told, and of closures that ran.
use commonware_parallel::Call;
use std::alloc::Global;
use std::sync::atomic::{AtomicBool, Ordering};
use std::sync::{Mutex, MutexGuard, Wait};
use std::thread::yield_now;

/// A line of a log: who meets what, and of a question its column and its call.
pub type Line = (&'static str, &'static str, Option<(u32, Call)>);

/// The strategy.
pub const OUTER: &str = "the strategy";

/// The strategy of the parts of a batch or of tiles.
pub const INNER: &str = "the strategy of the parts";

/// It is asked about a call at a column.
pub fn asked_at(who: &'static str, column: u32, call: Call) -> Line {
    (who, "asked", Some((column, call)))
}

/// A run for which it chose begins.
pub const BEGUN: &str = "begun";

/// It is told that the run has succeeded.
pub const TOLD: &str = "told";

/// The measure of a run is told so.
pub const ENDED: &str = "ended";

/// The measure is dropped.
pub const DROPPED: &str = "dropped";

/// Closures run.
pub const RAN: Line = ("closures", "ran", None);

/// All that was met, in order.
#[derive(Debug, Drop)]
pub struct Log {
    lines: Mutex<Vec<Line>>,
    // Whether a job may begin: whether its caller has it.
    is_handed_off: AtomicBool,
}

impl Log {
    /// An empty one.
    pub fn new(alloc: Global) -> Log {
        Log {
            lines: Mutex::new(Vec::new(alloc)),
            is_handed_off: AtomicBool::new(false),
        }
    }

    /// Writes a line. Where closures run one after the other they are one line.
    pub fn write(&self, line: Line) {
        for _ in 0..10_000_000u32 {
            if let Some(mut lines) = self.lines.try_lock() {
                if line != RAN || lines.last() != Some(&line) {
                    let _ = lines.push(line);
                }
                return;
            }
            yield_now();
        }
    }

    /// Waits until a job may begin, for some seconds at most: whether it may.
    pub fn await_hand_off(&self) -> bool {
        for _ in 0..10_000_000u32 {
            if self.is_handed_off.load(Ordering::SeqCst) {
                return true;
            }
            yield_now();
        }
        false
    }

    /// Says that the caller of a job has it.
    pub fn hand_off(&self) {
        self.is_handed_off.store(true, Ordering::SeqCst);
    }

    /// What was written.
    pub fn lines<Rt: Wait>(&self, rt: &Rt) -> MutexGuard<'_, Vec<Line>> {
        self.lines.lock(rt)
    }
}
