//! A strategy that writes down all that it is asked and told.
ghost use Rattle.std.specs.Prelude.{◌≡◌, false, true};
ghost use Rattle.std.specs.Int.NonZero.{non_zero_usize_get};
ghost use Rattle.commonware_parallel.specs.Calls.{last_pick};

use crate::logs::{BEGUN, DROPPED, ENDED, INNER, Log, OUTER, TOLD, asked_at};
use commonware_parallel::{Call, Chooser, Fault, Kind, Learns, Meter, Pick, Place, Running};
use std::alloc::Global;
use std::num::NonZeroUsize;
use std::sync::{Arc, Wait};
use test_support::number;

/// Takes the last pick of each call, planned for as many as it has threads. A clone and the
/// strategy of a batch's parts write to the same log.
#[derive(Clone, Debug, Drop)]
pub struct Noting {
    threads: NonZeroUsize,
    log: Arc<Log, Global>,
    who: &'static str,
}

impl Noting {
    /// One of that many threads.
    pub fn new(alloc: Global, threads: usize) -> Result<Noting, Fault> {
        Ok(Noting {
            threads: number(threads),
            log: Arc::new(alloc, Log::new(alloc))?,
            who: OUTER,
        })
    }

    pub fn log(&self) -> &Log {
        &self.log
    }

    /// A handle of the log.
    pub fn handle(&self) -> Result<Arc<Log, Global>, Fault> {
        Ok(Arc::try_clone(&self.log)?)
    }
}

/// Measures nothing, and writes down what it is told. Without a handle of the log, for which there
/// always is memory here, it writes nothing.
#[derive(Debug)]
pub struct Noted {
    log: Option<Arc<Log, Global>>,
    who: &'static str,
    is_job: bool,
}

// Writes a line.
fn write(log: &Option<Arc<Log, Global>>, who: &'static str, met: &'static str) {
    if let Some(log) = log {
        log.write((who, met, None));
    }
}

impl Noted {
    // The run has ended in such a way.
    fn close(self, met: &'static str) {
        let Noted {
            log,
            who,
            is_job: _,
        } = self;
        write(&log, who, met);
    }
}

impl Drop for Noted {
    fn drop(self) {
        let Noted {
            log,
            who,
            is_job: _,
        } = self;
        write(&log, who, DROPPED);
    }
}

impl Learns for Noted {}

impl Meter for Noted {
    // A job begins aside: it waits until its caller has it.
    fn begin(&mut self) {
        if let Some(log) = &self.log {
            if !self.is_job || log.await_hand_off() {
                log.write((self.who, BEGUN, None));
            }
        }
    }

    fn end<Rt: Wait>(self, _rt: &Rt) {
        self.close(ENDED);
    }
}

impl Chooser for Noting {
    ghost takes = { λ _ _ call pick. pick ≡ last_pick call };

    ghost refuses = { λ _ _ _ _. ⊥ };

    ghost plans = { λ s. non_zero_usize_get s.threads };

    ghost threads = { λ s. non_zero_usize_get s.threads };

    ghost starts = { λ _. true };

    ghost unasked = { λ _. false };

    type Measure = Noted;

    fn planning(&self) -> NonZeroUsize {
        self.threads
    }

    fn thread_number(&self) -> NonZeroUsize {
        self.threads
    }

    fn is_serial(&self) -> bool {
        false
    }

    fn starts_workers(&self) -> bool {
        true
    }

    fn inner(&self) -> Result<Noting, Fault> {
        let log = Arc::try_clone(&self.log)?;
        Ok(Noting {
            threads: self.threads,
            log,
            who: INNER,
        })
    }

    fn choose<Rt: Wait, P: Place>(
        &self,
        _rt: &Rt,
        _alloc: Global,
        site: P,
        call: Call,
    ) -> Result<(Pick, Noted), Fault> {
        let column = site.site().column;
        self.log.write(asked_at(self.who, column, call));
        let measure = Noted {
            log: Arc::try_clone(&self.log).ok(),
            who: self.who,
            is_job: call.kind == Kind::Spawn,
        };
        Ok((call.last(), measure))
    }

    fn tell<Rt: Wait>(&self, _rt: &Rt, running: Running<Noted>) {
        running.into_measure().close(TOLD);
    }
}
