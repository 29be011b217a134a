//! Lists that are changed where they lie, by a plain loop and through a strategy.
use crate::calls::SITE;
use crate::case::Cost;
use crate::work::{heavy, light, rising};
use commonware_parallel::{Fault, Runtime, Strategy};
use std::alloc::Global;

/// Changes each item by a plain loop.
pub fn change_by_loop(cost: Cost, items: &mut [u64]) {
    match cost {
        Cost::Light => change_each(items, light),
        Cost::Heavy => change_each(items, heavy),
        Cost::Rising => change_each(items, rising),
    }
}

fn change_each<F: Fn(u64) -> u64 + Drop>(items: &mut [u64], op: F)
    requires { F.IsAlwaysCallable op }
{
    for item in items.iter_mut() {
        *item = op(*item);
    }
}

/// Changes each item through a strategy.
///
/// # Errors
///
/// What was refused; no item is changed then.
pub fn change_by_strategy<Rt: Runtime, S: Strategy>(
    rt: &Rt,
    alloc: Global,
    strategy: &S,
    cost: Cost,
    items: &mut [u64],
) -> Result<(), Fault> {
    match cost {
        Cost::Light => strategy.for_each_mut(rt, alloc, SITE, items, set_light),
        Cost::Heavy => strategy.for_each_mut(rt, alloc, SITE, items, set_heavy),
        Cost::Rising => strategy.for_each_mut(rt, alloc, SITE, items, set_rising),
    }
}

fn set_light(_index: usize, item: &mut u64) {
    *item = light(*item);
}

fn set_heavy(_index: usize, item: &mut u64) {
    *item = heavy(*item);
}

fn set_rising(_index: usize, item: &mut u64) {
    *item = rising(*item);
}
