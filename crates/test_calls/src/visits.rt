//! What a probe has the closures of a call do.
use crate::logs::{Log, RAN};
use crate::meetings::Meeting;
use crate::own_part::OwnPart;
use std::alloc::Global;
use std::sync::atomic::{AtomicUsize, Ordering};
use std::thread::yield_now;
use test_support::no_memory::all_places;

/// How often closures are called, those for items and those that begin a state, and a list is cut.
#[derive(Drop)]
pub struct Times {
    items: AtomicUsize,
    states: AtomicUsize,
    cuts: AtomicUsize,
}

impl Times {
    pub fn new() -> Times {
        Times {
            items: AtomicUsize::new(0),
            states: AtomicUsize::new(0),
            cuts: AtomicUsize::new(0),
        }
    }

    /// How many items came.
    pub fn items(&self) -> usize {
        self.items.load(Ordering::SeqCst)
    }

    /// How many items came, how many states were begun, and how often a list was cut.
    pub fn counted(&self) -> [usize; 3] {
        let states = self.states.load(Ordering::SeqCst);
        [self.items(), states, self.cuts.load(Ordering::SeqCst)]
    }

    // One item more: how many came before.
    fn count(&self) -> usize {
        self.items.fetch_add(1, Ordering::SeqCst)
    }

    // Waits until so many came, or for a bounded time, which is then counted as a state.
    fn await_items(&self, wanted: usize) {
        for _ in 0..1_000_000u32 {
            if self.items() >= wanted {
                return;
            }
            yield_now();
        }
        self.states.fetch_add(1, Ordering::SeqCst);
    }
}

/// What each closure of a call does, whatever its item.
#[derive(Clone, Copy)]
pub enum Visitor<'a> {
    Passes,
    /// Comes to a meeting, if it is one of the first thousand.
    Meets(&'a Meeting),
    /// Comes to the meeting of its level in a tree.
    MeetsByLevel(&'a [Meeting]),
    /// Writes that it ran.
    Writes(&'a Log),
    /// Writes that it ran, and fails, where it may.
    Fails(&'a Log),
    /// Counts its calls, and fails in that of a number, from 0 on, where it may.
    FailsAt(&'a Times, usize),
    /// Counts its calls, the states and the cuts.
    Counts(&'a Times),
    /// Counts its calls. So many first ones wait for each other, and the one of that number then
    /// waits until so many came.
    Holds(&'a Times, usize, usize, usize),
    /// Counts as `Counts` while no block of 1 MiB and more is to be had, but for the items.
    Starves(&'a Times),
    /// As `FailsAt`, over items that lie in a block of 64 MiB; or `Starves` over these.
    Roams(&'a Times, usize, bool),
    /// Looks how many threads were started before the caller's own part.
    Sees(HostRuntime, &'a OwnPart),
}

impl Visitor<'_> {
    /// One call of a closure. An error is that of the call, where it may fail.
    pub fn visit(self) -> Result<(), u32> {
        match self {
            Visitor::Passes | Visitor::MeetsByLevel(_) => {}
            Visitor::Counts(times) | Visitor::Starves(times) => {
                times.count();
            }
            Visitor::Holds(times, first, held, enough) => {
                let before = times.count();
                if before < first {
                    times.await_items(if before == held { enough } else { first });
                }
            }
            Visitor::Meets(meeting) => meeting.attend(),
            Visitor::Sees(rt, own) => own.see(&rt),
            Visitor::Writes(log) => log.write(RAN),
            Visitor::Fails(log) => {
                log.write(RAN);
                return Err(7);
            }
            Visitor::FailsAt(times, at) | Visitor::Roams(times, at, _) => {
                if times.count() == at {
                    return Err(7);
                }
            }
        }
        Ok(())
    }

    /// One call of a closure that counts: one more than before.
    pub fn counted(self, before: usize) -> usize {
        let _ = self.visit();
        before.wrapping_add(1)
    }

    /// One call of the closure that begins a state.
    pub fn begin(self) {
        if let Visitor::Counts(times) = self {
            times.states.fetch_add(1, Ordering::SeqCst);
        }
    }

    /// One call of a fallible fold's identity, which counts where its fold has failed already.
    pub fn begin_sum(self) {
        if let Visitor::FailsAt(times, at) = self {
            if times.items() > at {
                times.count();
            }
        }
    }

    /// One cut of a list.
    pub fn cut(self) {
        if let Visitor::Counts(times) = self {
            times.cuts.fetch_add(1, Ordering::SeqCst);
        }
    }

    /// One call of a tree's closure, at a level from the leaves' up.
    pub fn visit_level(self, level: usize) {
        if let Visitor::MeetsByLevel(meetings) = self {
            if let Some(meeting) = meetings.get(level) {
                meeting.attend();
            }
        } else {
            let _ = self.visit();
        }
    }

    /// How many places the block of a call's owned items has, of which there are that many.
    pub fn places(self, len: usize) -> usize {
        match self {
            Visitor::Roams(..) => 4 << 20,
            _ => len,
        }
    }

    /// What is held while a call is made, whose items are there.
    pub fn holds(self, alloc: Global) -> Option<Vec<Vec<u8>>> {
        match self {
            Visitor::Starves(_) | Visitor::Roams(_, _, true) => all_places(alloc),
            _ => None,
        }
    }
}
