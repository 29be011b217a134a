//! Picks by the kind of a call, and runs that begin by them.
//!
//! A strategy picks for every kind of call. Which picks a call has goes by its kind: so one that
//! goes by a path is given a path here, and any other a number of parts.
ghost use Rattle.std.specs.Prelude.{◌<◌, ◌≡◌, ◌≢◌, ◌≤◌, IfErr, IfOk, false, true};
ghost use Rattle.commonware_parallel.specs.Words.{By, Into, IsMemoryOnErr, Spawn, goes_by_path};

use crate::call::Call;
use crate::chooser::Chooser;
use crate::running::Running;
use parallel_bridge::Path;
use parallel_fault::Fault;
use parallel_policy::Place;
use std::alloc::Global;
use std::num::NonZeroUsize;
use std::sync::Wait;

/// A path that the strategy takes for the call, with a measure of the run to come.
///
/// # Errors
///
/// What the strategy refuses.
// (inlined, since each return would copy the measure)
#[inline(always)]
pub(crate) fn choose_path<S: Chooser, Rt: Wait, P: Place>(
    strategy: &S,
    rt: &Rt,
    alloc: Global,
    site: P,
    call: Call,
) -> Result<(Path, S::Measure), Fault>
    requires parts { 0 < call.max_parts }
    requires by_path { goes_by_path call.kind ≡ true }
    ensures takes { IfOk result (λ chosen. S.takes strategy.now (P.site_of site) call
        (By chosen.0)) }
    ensures refused { IfErr result (S.refuses strategy.now (P.site_of site) call) }
    ensures memory { call.kind ≢ Spawn → IsMemoryOnErr result }
{
    let (pick, measure) = strategy.choose(rt, alloc, site, call)?;
    Ok((call.path(pick), measure))
}

/// A number of parts that the strategy takes for the call, with a measure of the run to come.
///
/// # Errors
///
/// What the strategy refuses: `Fault::Memory` alone.
pub(crate) fn choose_parts<S: Chooser, Rt: Wait, P: Place>(
    strategy: &S,
    rt: &Rt,
    alloc: Global,
    site: P,
    call: Call,
) -> Result<(usize, S::Measure), Fault>
    requires parts { 0 < call.max_parts }
    requires in_parts { goes_by_path call.kind ≡ false }
    ensures some { IfOk result (λ chosen. 0 < chosen.0) }
    ensures fit { IfOk result (λ chosen. chosen.0 ≤ call.max_parts) }
    ensures takes { IfOk result (λ chosen. S.takes strategy.now (P.site_of site) call
        (Into chosen.0)) }
    ensures memory { IsMemoryOnErr result }
{
    let (pick, measure) = strategy.choose(rt, alloc, site, call)?;
    Ok((call.parts(pick), measure))
}

/// A path that the strategy takes for the call, by which the run has begun. A call of one's own
/// that goes by a path begins so, runs its body by the path, and says by `end_run` that it has
/// ended.
///
/// # Errors
///
/// What the strategy refuses.
#[inline(always)]
pub fn begin_path<S: Chooser, Rt: Wait, P: Place>(
    strategy: &S,
    rt: &Rt,
    alloc: Global,
    site: P,
    call: Call,
) -> Result<(Path, Running<S::Measure>), Fault>
    requires parts { 0 < call.max_parts }
    requires by_path { goes_by_path call.kind ≡ true }
    requires kind { call.kind ≢ Spawn }
    ensures takes { IfOk result (λ begun. S.takes strategy.now (P.site_of site) call
        (By begun.0)) }
    ensures refused { IfErr result (S.refuses strategy.now (P.site_of site) call) }
    ensures memory { IsMemoryOnErr result }
{
    let (path, measure) = choose_path(strategy, rt, alloc, site, call)?;
    Ok((path, Running::begun(measure)))
}

/// How many threads a body over a list has by that path: the caller's alone, or as many as the
/// strategy says.
pub(crate) fn threads_by<S: Chooser>(strategy: &S, path: Path) -> NonZeroUsize {
    match path {
        Path::Serial => NonZeroUsize::MIN,
        Path::Parallel => strategy.thread_number(),
    }
}
