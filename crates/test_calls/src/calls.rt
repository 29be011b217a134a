//! The list calls, each over any source, with closures that visit a probe.
use crate::every_call::Host;
use crate::ready::{Ready, make_ready};
use crate::steps::{add_counts, no_count};
use crate::visits::Visitor;
use commonware_parallel::{Fault, Runtime, Site, Source, Strategy, Trouble};
use std::alloc::Global;
use test_strategies::SITE;

/// A list call at one site, which is the strategy's of that name, or one that stands on these.
#[derive(Clone, Copy, Debug)]
pub enum Called {
    Map,
    MultipliedMap,
    TryMap,
    MapInit,
    MultipliedMapInit,
    Fold,
    FoldInit,
    TryFold,
    Partition,
    Ready(Ready),
}

/// All of a strategy.
pub const CALLS: [Called; 9] = [
    Called::Map,
    Called::MultipliedMap,
    Called::TryMap,
    Called::MapInit,
    Called::MultipliedMapInit,
    Called::Fold,
    Called::FoldInit,
    Called::TryFold,
    Called::Partition,
];

/// What stands for the work of an item in the calls that are told so.
pub const MULTIPLIER: usize = 9;

/// How a call went.
pub type Outcome = Result<(), Trouble<u32>>;

/// What the calls through a strategy have in common.
#[derive(Drop)]
pub struct Here<'a, Rt, S> {
    /// The runtime.
    pub rt: &'a Rt,
    /// What memory is taken from.
    pub alloc: Global,
    /// The strategy.
    pub strategy: &'a S,
    /// Their call site.
    pub site: Site,
}

/// The same of such a strategy, at the tests' call site.
pub fn called_here<'a, Rt: Host, S>(rt: &'a Rt, strategy: &'a S) -> Here<'a, Rt, S> {
    let (alloc, site) = (rt.alloc(), SITE);
    Here {
        rt,
        alloc,
        strategy,
        site,
    }
}

/// The outcome of a call without its result.
pub fn done<T: Drop>(outcome: Result<T, Fault>) -> Outcome {
    let _ = outcome?;
    Ok(())
}

/// The same of a call that may fail.
pub fn tried<T: Drop>(outcome: Result<T, Trouble<u32>>) -> Outcome {
    let _ = outcome?;
    Ok(())
}

// The maps, of one closure for all of them.
fn map<Rt: Runtime, S: Strategy, M, I: Source<M>>(
    on: &Here<'_, Rt, S>,
    called: Called,
    source: I,
    visited: Visitor<'_>,
) -> Outcome
    requires { I.can source }
{
    let (rt, alloc, site) = (on.rt, on.alloc, on.site);
    let map_op = |item: I::Item| match visited.visit() {
        Ok(()) => Ok(item),
        Err(error) => Err(error),
    };
    match called {
        Called::Map => done(
            on.strategy
                .map_collect_vec(on.rt, on.alloc, on.site, source, map_op),
        ),
        Called::TryMap => tried(
            on.strategy
                .try_map_collect_vec(on.rt, on.alloc, on.site, source, map_op),
        ),
        _ => done(
            on.strategy
                .map_collect_vec_with_multiplier(rt, alloc, site, source, MULTIPLIER, map_op),
        ),
    }
}

fn map_init<Rt: Runtime, S: Strategy, M, I: Source<M>>(
    on: &Here<'_, Rt, S>,
    called: Called,
    source: I,
    visited: Visitor<'_>,
) -> Outcome
    requires { I.can source }
{
    let (rt, alloc, site) = (on.rt, on.alloc, on.site);
    let init = || visited.begin();
    let map_op = |_: &mut (), item: I::Item| {
        let _ = visited.visit();
        item
    };
    if matches!(called, Called::MapInit) {
        return done(
            on.strategy
                .map_init_collect_vec(on.rt, on.alloc, on.site, source, init, map_op),
        );
    }
    done(
        on.strategy
            .map_init_collect_vec_with_multiplier(
                rt, alloc, site, source, MULTIPLIER, init, map_op,
            ),
    )
}

fn fold<Rt: Runtime, S: Strategy, M, I: Source<M>>(
    on: &Here<'_, Rt, S>,
    source: I,
    visited: Visitor<'_>,
) -> Outcome
    requires { I.can source }
{
    let step = |count: usize, _: I::Item| visited.counted(count);
    done(on.strategy.fold(on.rt, on.alloc, on.site, source, no_count, step, add_counts))
}

fn fold_init<Rt: Runtime, S: Strategy, M, I: Source<M>>(
    on: &Here<'_, Rt, S>,
    source: I,
    visited: Visitor<'_>,
) -> Outcome
    requires { I.can source }
{
    let init = || visited.begin();
    let step = |count: usize, _: &mut (), _: I::Item| visited.counted(count);
    done(
        on.strategy.fold_init(
            on.rt, on.alloc, on.site, source, init, no_count, step, add_counts,
        ),
    )
}

fn try_fold<Rt: Runtime, S: Strategy, M, I: Source<M>>(
    on: &Here<'_, Rt, S>,
    source: I,
    visited: Visitor<'_>,
) -> Outcome
    requires { I.can source }
{
    let identity = || visited.begin_sum();
    let step = |_: (), _: I::Item| visited.visit();
    tried(
        on.strategy.try_fold(
            on.rt,
            on.alloc,
            on.site,
            source,
            identity,
            step,
            |_: (), _: ()| (),
        ),
    )
}

fn partition<Rt: Runtime, S: Strategy, M, I: Source<M>>(
    on: &Here<'_, Rt, S>,
    source: I,
    visited: Visitor<'_>,
) -> Outcome
    requires { I.can source }
{
    let map_op = |item: I::Item| (item, visited.visit().ok());
    done(
        on.strategy
            .map_partition_collect_vec(on.rt, on.alloc, on.site, source, map_op),
    )
}

/// The fallible map, or else the fallible fold.
pub fn make_fallible<Rt: Runtime, S: Strategy, M, I: Source<M>>(
    on: &Here<'_, Rt, S>,
    called: Called,
    source: I,
    visited: Visitor<'_>,
) -> Outcome
    requires { I.can source }
{
    let held = visited.holds(on.alloc);
    let made = match called {
        Called::TryMap => map(on, called, source, visited),
        _ => try_fold(on, source, visited),
    };
    drop(held);
    made
}

/// Makes such a call, of which each closure visits once for each item. A map returns the items.
pub fn make<Rt: Runtime, S: Strategy, M, I: Source<M>>(
    on: &Here<'_, Rt, S>,
    called: Called,
    source: I,
    visited: Visitor<'_>,
) -> Outcome
    requires { I.can source }
{
    let held = visited.holds(on.alloc);
    let made = match called {
        Called::Map | Called::MultipliedMap | Called::TryMap => map(on, called, source, visited),
        Called::MapInit | Called::MultipliedMapInit => map_init(on, called, source, visited),
        Called::Fold => fold(on, source, visited),
        Called::FoldInit => fold_init(on, source, visited),
        Called::TryFold => try_fold(on, source, visited),
        Called::Partition => partition(on, source, visited),
        Called::Ready(ready) => make_ready(on, ready, source, visited),
    };
    drop(held);
    made
}
