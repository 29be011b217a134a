//! The items that satisfy a test, and the values that the items give, in their order.
ghost use Rattle.std.specs.Borrow.{Bor};
ghost use Rattle.std.specs.Prelude.{◌≡◌, Bool, Option, IfOk};
ghost use Rattle.std.specs.Fn.{FnReturnsAt};
ghost use Rattle.std.specs.List.{filter, filter_map};
ghost use Rattle.commonware_parallel.specs.Words.{GivesSome, IsMemoryOnErr};
ghost use Rattle.parallel_calls.specs.Filters.{FilterOf, KeptBy, ValuesOf};
ghost use Rattle.parallel_calls.specs.Functions.{AcceptsAt, GoesBy};

use crate::on::On;
use commonware_parallel::{Fault, Place, Source, Strategy};
use std::sync::Wait;
use std::thread::Threads;

impl<'s, Rt: Threads + Wait + Sync, S: Strategy, P: Place> On<'s, Rt, S, P> {
    /// The items that satisfy the test, in their order.
    ///
    /// # Errors
    ///
    /// `Fault::Memory` if an allocation fails.
    pub fn filter<M, I: Source<M>, F: Fn(&I::Item) -> bool + Send + Sync + Drop>(
        &self,
        source: I,
        test: F,
    ) -> Result<Vec<I::Item>, Fault>
        requires can { I.can source }
        requires accepts { (x : Bor I.Item) → I.may source x.now → F.pre test x }
        ensures kept { IfOk result (λ kept. GivesSome I.gives source
            (λ xs. FilterOf (λ x b. FnReturnsAt F.Fn test x b) xs kept.items)) }
        ensures plain { (passes : I.Item → Bool)
            → GoesBy (λ x b. FnReturnsAt F.Fn test x b) passes
            → IfOk result (λ kept. GivesSome I.gives source
            (λ xs. kept.items ≡ filter passes xs)) }
        ensures fault { IsMemoryOnErr result }
    {
        let keep = |item: I::Item| -> Option<I::Item>
            requires { AcceptsAt (F.pre test) item }
            ensures { KeptBy (λ x b. FnReturnsAt F.Fn test x b) item result }
        { kept(item, &test) };
        self.filter_map(source, keep)
    }

    /// The values that the closure gives of the items, in the items' order.
    ///
    /// # Errors
    ///
    /// `Fault::Memory` if an allocation fails.
    pub fn filter_map<
        M,
        I: Source<M>,
        T: Send + Drop,
        F: Fn(I::Item) -> Option<T> + Send + Sync + Drop,
    >(&self, source: I, map_op: F) -> Result<Vec<T>, Fault>
        requires can { I.can source }
        requires accepts { (x : I.Item) → I.may source x → F.pre map_op x }
        ensures values { IfOk result (λ values. GivesSome I.gives source
            (λ xs. ValuesOf (F.post map_op) xs values.items)) }
        ensures plain { (f : I.Item → Option T) → GoesBy (F.post map_op) f
            → IfOk result (λ values. GivesSome I.gives source
            (λ xs. values.items ≡ filter_map f xs)) }
        ensures fault { IsMemoryOnErr result }
    {
        let unkeyed = |item: I::Item| -> ((), Option<T>)
            requires { F.pre map_op item }
            ensures { F.post map_op item result.1 }
        { ((), map_op(item)) };
        let parts = self.map_partition(source, unkeyed)?;
        Ok(parts.0)
    }
}

/// The item, where it satisfies the test.
pub(crate) fn kept<T: Drop, F: Fn(&T) -> bool>(item: T, test: &F) -> Option<T>
    requires { AcceptsAt (F.pre test.now) item }
    ensures { KeptBy (λ x b. FnReturnsAt F.Fn test.now x b) item result }
{
    if test(&item) { Some(item) } else { None }
}
