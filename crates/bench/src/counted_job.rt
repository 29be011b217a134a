//! The jobs that pools are brought here: values of one type, and none of them boxed.
use crate::work::mixed;
use parallel_pool::rayon::Execute;
use std::alloc::{AllocError, Global};
use std::sync::Arc;
use std::sync::atomic::{AtomicU64, Ordering};

/// How often each of a list of jobs was called.
#[derive(Drop)]
pub struct Board {
    marks: Vec<AtomicU64>,
    calls: AtomicU64,
    checksum: AtomicU64,
}

impl Board {
    /// A board of `jobs` jobs, of which none was called.
    ///
    /// # Errors
    ///
    /// `AllocError` if an allocation fails.
    pub fn new(alloc: Global, jobs: usize) -> Result<Board, AllocError> {
        let mut marks = Vec::with_capacity(alloc, jobs)?;
        for _ in 0..jobs {
            marks.push(AtomicU64::new(0))?;
        }
        Ok(Board {
            marks,
            calls: AtomicU64::new(0),
            checksum: AtomicU64::new(0),
        })
    }

    /// How many calls there were, of all jobs together.
    pub fn calls(&self) -> u64 {
        self.calls.load(Ordering::SeqCst)
    }

    /// Whether each job was called, and none twice.
    pub fn is_each_once(&self) -> bool {
        self.marks
            .iter()
            .all(|mark| mark.load(Ordering::SeqCst) == 1)
    }

    // The job of a number was called.
    fn mark(&self, number: usize) {
        if let Some(mark) = self.marks.get(number) {
            mark.fetch_add(1, Ordering::SeqCst);
        }
        self.calls.fetch_add(1, Ordering::SeqCst);
    }
}

/// A job that mixes its number and marks itself on a board.
#[derive(Drop)]
pub struct CountedJob {
    board: Arc<Board, Global>,
    number: usize,
    rounds: u64,
}

impl CountedJob {
    /// The job of that number.
    ///
    /// # Errors
    ///
    /// `AllocError` if an allocation fails.
    pub fn new(
        board: &Arc<Board, Global>,
        number: usize,
        rounds: u64,
    ) -> Result<CountedJob, AllocError> {
        Ok(CountedJob {
            board: Arc::try_clone(board)?,
            number,
            rounds,
        })
    }
}

impl Execute for CountedJob {
    fn execute(self, _index: usize) {
        let CountedJob {
            board,
            number,
            rounds,
        } = self;
        if rounds > 0 {
            let answer = mixed(number as u64, rounds);
            board.checksum.fetch_add(answer, Ordering::Relaxed);
        }
        board.mark(number);
    }
}
