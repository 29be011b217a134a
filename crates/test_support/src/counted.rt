//! Items that are counted.
use std::alloc::Global;
use std::sync::atomic::{AtomicU64, Ordering};

/// Counts those that were made and those that were dropped.
#[derive(Drop)]
pub struct Counts {
    made: AtomicU64,
    gone: AtomicU64,
}

impl Counts {
    pub fn new() -> Counts {
        Counts {
            made: AtomicU64::new(0),
            gone: AtomicU64::new(0),
        }
    }

    /// How many are there, or near 2 to the power of 64 where some were dropped twice.
    pub fn left(&self) -> usize {
        let gone = self.gone.load(Ordering::SeqCst);
        self.made.load(Ordering::SeqCst).wrapping_sub(gone) as usize
    }
}

/// A value that is counted.
pub struct Counted<'a> {
    counts: &'a Counts,
    pub place: usize,
}

impl<'a> Counted<'a> {
    pub fn new(counts: &'a Counts, place: usize) -> Self {
        counts.made.fetch_add(1, Ordering::SeqCst);
        Counted { counts, place }
    }

    /// A further one, of a place.
    pub fn at(&self, place: usize) -> Counted<'a> {
        Counted::new(self.counts, place)
    }
}

impl Drop for Counted<'_> {
    fn drop(self) {
        let Self { counts, place: _ } = self;
        counts.gone.fetch_add(1, Ordering::SeqCst);
    }
}

/// A number of them, whose places go from 0 on, where memory is given for them.
pub fn counted_items<'a>(
    alloc: Global,
    counts: &'a Counts,
    len: usize,
) -> Option<Vec<Counted<'a>>> {
    let mut items = Vec::new(alloc);
    for place in 0..len {
        items.push(Counted::new(counts, place)).ok()?;
    }
    Some(items)
}
