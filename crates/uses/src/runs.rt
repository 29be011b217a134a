//! Runs: one of two bodies, as the strategy chooses.
ghost use Rattle.std.specs.Prelude.{◌≡◌, ℕ, ◌≤◌, ◌⊎◌, count_by, length, IfOk, IfErr};
ghost use Rattle.commonware_parallel.specs.Answers.{OneOf};
ghost use Rattle.commonware_parallel.specs.Calls.{AtSomePath, body_call};

use commonware_parallel::{Fault, Place, Strategy};
use std::alloc::Global;
use std::sync::Wait;

/// One of two values, as the strategy chooses for that many items: the first serially, the second
/// in parallel.
///
/// # Errors
///
/// What the strategy refuses for this call.
pub fn one_of<Rt: Wait, P: Place, S: Strategy, R: Drop>(
    rt: &Rt,
    alloc: Global,
    strategy: &S,
    site: P,
    len: usize,
    serial: R,
    parallel: R,
) -> Result<R, Fault>
    ensures either { IfOk result (λ answer. (answer ≡ serial) ⊎ (answer ≡ parallel)) }
    ensures picked { IfOk result (λ answer.
        AtSomePath (S.takes strategy.now (P.site_of site) (body_call len))
        (OneOf (answer ≡ serial) (answer ≡ parallel))) }
    ensures refused { IfErr result (S.refuses strategy.now (P.site_of site) (body_call len)) }
{
    strategy.run(rt, alloc, site, len, || serial, || parallel)
}

/// How many of the flags are set. Both bodies count them all, so it is the same whichever runs.
///
/// # Errors
///
/// What the strategy refuses for this call.
pub fn count_set<Rt: Wait, P: Place, S: Strategy>(
    rt: &Rt,
    alloc: Global,
    strategy: &S,
    site: P,
    flags: &[bool],
) -> Result<usize, Fault>
    ensures counted { IfOk result (λ count. count ≡ count_by (λ flag. flag) flags.now) }
    ensures refused { IfErr result
        (S.refuses strategy.now (P.site_of site) (body_call (length flags.now))) }
{
    strategy.run(
        rt,
        alloc,
        site,
        flags.len(),
        || count_in_one(flags),
        || count_in_halves(flags),
    )
}

// The set flags, counted from the first to the last.
pub(crate) fn count_in_one(flags: &[bool]) -> usize
    ensures counted { result ≡ count_by (λ flag. flag) flags.now }
    ensures at_most { result ≤ length flags.now }
{
    flags.iter().filter(|flag| **flag).count()
}

// The set flags, counted in each half of the list.
fn count_in_halves(flags: &[bool]) -> usize
    ensures { result ≡ count_by (λ flag. flag) flags.now }
{
    let (front, back) = flags.split_at(flags.len() / 2);
    count_in_one(front) + count_in_one(back)
}
