//! What a strategy writes: how it chooses.
ghost use Rattle.std.specs.Prelude.{◌≡◌, ◌≢◌, ◌<◌, ℕ, Bool, IfErr, IfOk, IsTrue};
ghost use Rattle.std.specs.Int.NonZero.{non_zero_usize_get};
ghost use Rattle.parallel_fault.specs.Trouble.{IsMemoryOnErr};
ghost use Rattle.commonware_parallel.specs.Calls.{HasPick, IsInnerOf};

use crate::call::{Call, Kind, Pick};
use crate::meter::Meter;
use crate::running::Running;
use parallel_fault::Fault;
use parallel_policy::{Place, Site};
use std::alloc::Global;
use std::fmt::Debug;
use std::num::NonZeroUsize;
use std::sync::Wait;

/// What a strategy writes: `choose`, readers of its numbers, `inner`, the type `Measure`, and six
/// ghost members, in which it says what it may pick. One that learns by measuring writes `tell`
/// too.
///
/// A strategy is asked before a run, and told how long it went where it has returned; the run
/// itself is the trait's. Whatever chooses is a `Strategy`, so bounds name that trait.
pub trait Chooser: Clone + Send + Sync + Debug + 'static {
    ghost use Rattle.parallel_policy.specs.declared.Site.{Site};
    ghost use Rattle.parallel_fault.specs.declared.fault.Fault.{Fault};
    ghost use Rattle.commonware_parallel.specs.declared.call.Call.{Call};
    ghost use Rattle.commonware_parallel.specs.declared.call.Kind.TheVariants.{Body, Spawn};
    ghost use Rattle.commonware_parallel.specs.declared.call.Pick.{Pick};
    ghost use Rattle.commonware_parallel.specs.declared.call.Pick.TheVariants.{By};
    ghost use Rattle.parallel_bridge.specs.declared.path.Path.TheVariants.{Serial};

    /// Whether a call at a site may be given a pick.
    ghost takes: { Self → Site → Call → Pick → Type 0 };

    /// Whether a call at a site may meet a refusal before its body runs.
    ghost refuses: { Self → Site → Call → Fault → Type 0 };

    /// The planning number, at least 1: how many parts batches and tiles are planned for.
    ghost plans: { Self → ℕ };

    /// The pool's thread number, at least 1: a parallel list goes along its shape of that number's
    /// `cutdepth`.
    ghost threads: { Self → ℕ };

    /// Whether a job that is handed off gets a worker; a pool of unstarted workers gives it none.
    ghost starts: { Self → Bool };

    /// Whether any call of the kind `Body` may run serially without the strategy being asked.
    ghost unasked: { Self → Bool };

    /// The planning number.
    fn planning(&self) -> NonZeroUsize
        ensures number { non_zero_usize_get result ≡ plans self.now }
        ensures positive { 0 < plans self.now };

    /// The pool's thread number.
    fn thread_number(&self) -> NonZeroUsize
        ensures number { non_zero_usize_get result ≡ threads self.now }
        ensures positive { 0 < threads self.now };

    /// Whether a job that is handed off gets a worker.
    fn starts_workers(&self) -> bool
        ensures { result ≡ starts self.now };

    /// That, as where the strategy has no other pick and measures nothing. A list call then goes
    /// over its source as it comes.
    fn is_serial(&self) -> bool
        ensures unasked { result ≡ unasked self.now }
        ensures first { IsTrue result → (site : Site) (call : Call) → call.kind ≡ Body
            → takes self.now site call (By Serial) };

    /// The strategy that the parts of a batch go through: one with the same numbers that no policy
    /// chooses for (`IsInnerOf`).
    ///
    /// # Errors
    ///
    /// `Fault::Memory` alone.
    fn inner(&self) -> Result<Self, Fault>
        ensures inner { IfOk result (IsInnerOf takes refuses plans threads starts self.now) }
        ensures fault { IsMemoryOnErr result };

    /// Measures a run, from when its pick was handed out until it has ended.
    type Measure: Meter + Send + 'static;

    /// Hands out a pick for the call, with a measure of the run to come.
    ///
    /// The run begins at once, so an implementation may take its time from here.
    ///
    /// # Errors
    ///
    /// A refusal that `refuses` allows; `Fault::Memory` alone for every call but a spawn.
    fn choose<Rt: Wait, P: Place>(
        &self,
        rt: &Rt,
        alloc: Global,
        site: P,
        call: Call,
    ) -> Result<(Pick, Self::Measure), Fault>
        requires parts { 0 < call.max_parts }
        ensures takes { IfOk result (λ chosen. HasPick call chosen.0
            × takes self.now (P.site_of site) call chosen.0) }
        ensures refused { IfErr result (refuses self.now (P.site_of site) call) }
        ensures memory { call.kind ≢ Spawn → IsMemoryOnErr result };

    /// Is told that a run for which it chose has returned. Of one that failed, or was refused,
    /// nothing is told. A job ends away from its strategy, so its measure alone is told of its end.
    ///
    /// Nothing is claimed of what is learnt. Where it isn't written the measure is ended, and where
    /// it is it has to end the run, or take its measure: a `Running` can't be dropped.
    fn tell<Rt: Wait>(&self, rt: &Rt, running: Running<Self::Measure>) {
        running.ended(rt);
    }
}
