//! Sorts by keys.
ghost use Rattle.std.specs.Fn.{FnReturnsAt};
ghost use Rattle.std.specs.List.Sorted.{IsSortedByKey, IsStableByKey};
ghost use Rattle.std.specs.Prelude.{◌≡◌, OnOk};
ghost use Rattle.commonware_parallel.specs.Words.{IsMemoryOnErr, IsPermutation};
ghost use Rattle.parallel_calls.specs.Functions.{GoesBy};

use crate::by_key::{by_key, order_law};
use crate::on::On;
use commonware_parallel::{Fault, Place, Strategy};
use std::cmp::Ordering;
use std::sync::Wait;
use std::thread::Threads;

impl<'s, Rt: Threads + Wait + Sync, S: Strategy, P: Place> On<'s, Rt, S, P> {
    /// Sorts the items by their keys, those that tie in their order. The closure is called twice at
    /// each comparison.
    ///
    /// # Errors
    ///
    /// `Fault::Memory` if an allocation fails; the items are then a permutation of what they were.
    pub fn sort_by_key<T: Send, K: Ord + Send + Sync + Drop, F: Fn(&T) -> K + Send + Sync + Drop>(
        &self,
        items: &mut [T],
        key: F,
    ) -> Result<(), Fault>
        requires accepts { F.IsAlwaysCallable key }
        ensures permutation { IsPermutation items.old items.new }
        ensures sorted { (key_of : T → K) → GoesBy (λ x k. FnReturnsAt F.Fn key x k) key_of
            → OnOk result (IsSortedByKey key_of K.cmp items.new) }
        ensures stable { (key_of : T → K) → GoesBy (λ x k. FnReturnsAt F.Fn key x k) key_of
            → IsStableByKey key_of K.cmp items.old items.new }
        ensures fault { IsMemoryOnErr result }
    {
        let compare = |left: &T, right: &T| -> Ordering
            requires { F.IsAlwaysCallable key }
            ensures { (key_of : T → K) → GoesBy (λ x k. FnReturnsAt F.Fn key x k) key_of
                → result ≡ K.cmp (key_of left.now) (key_of right.now) }
        { by_key(&key, left, right) };
        order_law::<K>();
        self.sort_by(items, compare)
    }

    /// Sorts the items by their keys; those that tie may change places. The closure is called twice
    /// at each comparison.
    ///
    /// # Errors
    ///
    /// `Fault::Memory` if an allocation fails; the items are then a permutation of what they were.
    pub fn sort_unstable_by_key<
        T: Send,
        K: Ord + Send + Sync + Drop,
        F: Fn(&T) -> K + Send + Sync + Drop,
    >(&self, items: &mut [T], key: F) -> Result<(), Fault>
        requires accepts { F.IsAlwaysCallable key }
        ensures permutation { IsPermutation items.old items.new }
        ensures sorted { (key_of : T → K) → GoesBy (λ x k. FnReturnsAt F.Fn key x k) key_of
            → OnOk result (IsSortedByKey key_of K.cmp items.new) }
        ensures fault { IsMemoryOnErr result }
    {
        let compare = |left: &T, right: &T| -> Ordering
            requires { F.IsAlwaysCallable key }
            ensures { (key_of : T → K) → GoesBy (λ x k. FnReturnsAt F.Fn key x k) key_of
                → result ≡ K.cmp (key_of left.now) (key_of right.now) }
        { by_key(&key, left, right) };
        order_law::<K>();
        self.sort_unstable_by(items, compare)
    }
}
