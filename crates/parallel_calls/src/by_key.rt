//! The first least item and the last greatest one, by keys.
ghost use Rattle.std.specs.Borrow.{Bor};
ghost use Rattle.std.specs.Prelude.{◌≡◌, IfOk};
ghost use Rattle.std.specs.Cmp.{IsTotalOrder};
ghost use Rattle.std.specs.Fn.{FnReturnsAt};
ghost use Rattle.commonware_parallel.specs.Words.{GivesSome, IsMemoryOnErr};
ghost use Rattle.parallel_calls.specs.Extremes.{GreatestOf, LeastOf};
ghost use Rattle.parallel_calls.specs.Functions.{GoesBy};
ghost use Rattle.parallel_calls.specs.Keys.{less_by};

use crate::on::On;
use commonware_parallel::{Fault, Place, Source, Strategy};
use std::cmp::Ordering;
use std::sync::Wait;
use std::thread::Threads;

impl<'s, Rt: Threads + Wait + Sync, S: Strategy, P: Place> On<'s, Rt, S, P> {
    /// The first of the items with the least key, as `Iterator::min_by_key` gives it; and none
    /// where there is no item. The closure is called at each comparison.
    ///
    /// # Errors
    ///
    /// `Fault::Memory` if an allocation fails.
    pub fn min_by_key<
        M,
        I: Source<M>,
        K: Ord + Send + Sync + Drop,
        F: Fn(&I::Item) -> K + Send + Sync + Drop,
    >(&self, source: I, key: F) -> Result<Option<I::Item>, Fault>
        requires can { I.can source }
        requires accepts { (x : Bor I.Item) → I.may source x.now → F.pre key x }
        ensures least { (key_of : I.Item → K) → GoesBy (λ x k. FnReturnsAt F.Fn key x k) key_of
            → IfOk result (λ least. GivesSome I.gives source
            (λ xs. LeastOf (less_by K.cmp key_of) xs least)) }
        ensures fault { IsMemoryOnErr result }
    {
        let compare = |left: &I::Item, right: &I::Item| -> Ordering
            requires left { F.pre key left }
            requires right { F.pre key right }
            ensures { (key_of : I.Item → K) → GoesBy (λ x k. FnReturnsAt F.Fn key x k) key_of
                → result ≡ K.cmp (key_of left.now) (key_of right.now) }
        { by_key(&key, left, right) };
        order_law::<K>();
        self.min_by(source, compare)
    }

    /// The last of the items with the greatest key, as `Iterator::max_by_key` gives it; and none
    /// where there is no item. The closure is called at each comparison.
    ///
    /// # Errors
    ///
    /// `Fault::Memory` if an allocation fails.
    pub fn max_by_key<
        M,
        I: Source<M>,
        K: Ord + Send + Sync + Drop,
        F: Fn(&I::Item) -> K + Send + Sync + Drop,
    >(&self, source: I, key: F) -> Result<Option<I::Item>, Fault>
        requires can { I.can source }
        requires accepts { (x : Bor I.Item) → I.may source x.now → F.pre key x }
        ensures greatest { (key_of : I.Item → K) → GoesBy (λ x k. FnReturnsAt F.Fn key x k) key_of
            → IfOk result (λ greatest. GivesSome I.gives source
            (λ xs. GreatestOf (less_by K.cmp key_of) xs greatest)) }
        ensures fault { IsMemoryOnErr result }
    {
        let compare = |left: &I::Item, right: &I::Item| -> Ordering
            requires left { F.pre key left }
            requires right { F.pre key right }
            ensures { (key_of : I.Item → K) → GoesBy (λ x k. FnReturnsAt F.Fn key x k) key_of
                → result ≡ K.cmp (key_of left.now) (key_of right.now) }
        { by_key(&key, left, right) };
        order_law::<K>();
        self.max_by(source, compare)
    }
}

// The order of two items' keys.
pub(crate) fn by_key<T, K: Ord + Drop, F: Fn(&T) -> K>(key: &F, left: &T, right: &T) -> Ordering
    requires left { F.pre key.now left }
    requires right { F.pre key.now right }
    ensures { (key_of : T → K) → GoesBy (λ x k. FnReturnsAt F.Fn key.now x k) key_of
        → result ≡ K.cmp (key_of left.now) (key_of right.now) }
{
    let one = key(left);
    let other = key(right);
    one.cmp(&other)
}

// The law of an order: it is total. It does nothing.
pub(crate) fn order_law<K: Ord>()
    ensures { IsTotalOrder K.cmp }
{}
