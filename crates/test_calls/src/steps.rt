//! The steps of the tests' folds and fills, and jobs. One that stands here is proved once, and not
//! once for each test that hands it on.
ghost use Rattle.std.specs.Prelude.{◌≡◌, ⊤};

use crate::logs::{Log, RAN};
use crate::meetings::Meeting;
use commonware_parallel::Job;
use std::alloc::Global;
use std::sync::Arc;

pub fn no_count() -> usize {
    0
}

pub fn add_counts(left: usize, right: usize) -> usize {
    left.wrapping_add(right)
}

// The number of cells, of which the next row has none yet.
pub fn cells_counted(count: &mut usize, _row: usize) -> usize {
    let cells = *count;
    *count = 0;
    cells
}

/// A job that returns its number.
#[derive(Drop)]
pub struct Gives(pub u64);

impl<S: Drop> Job<S, u64> for Gives {
    ghost may_run = { λ _ _. ⊤ };

    ghost may_answer = { λ job _ answer. answer ≡ job.0 };

    fn run_on(self, _strategy: S) -> u64 {
        self.0
    }
}

/// A job that comes to a meeting, and one that writes that it ran. Both return 7.
#[derive(Drop)]
pub enum Does {
    Attends(Arc<Meeting, Global>),
    Writes(Arc<Log, Global>),
}

impl<S: Drop> Job<S, u64> for Does {
    ghost may_run = { λ _ _. ⊤ };

    ghost may_answer = { λ _ _ answer. answer ≡ 7 };

    fn run_on(self, _strategy: S) -> u64 {
        match &self {
            Does::Attends(meeting) => meeting.attend(),
            Does::Writes(log) => log.write(RAN),
        }
        7
    }
}
