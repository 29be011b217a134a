//! The first least item and the last greatest one, by an order and by keys.
ghost use Rattle.std.specs.Prelude.{◌≡◌, Bool, Some, IfOk, cond, not};
ghost use Rattle.std.specs.Borrow.{Bor};
ghost use Rattle.std.specs.Cmp.{IsStrictWeakOrder};
ghost use Rattle.commonware_parallel.specs.Words.{GivesSome, IsMemoryOnErr};
ghost use Rattle.parallel_calls.specs.Extremes.{AcceptsTwo, GreatestOf, IsOneOf, LeastOf, OrdersBy, PickOf, beats, picked};

use crate::on::On;
use commonware_parallel::{Fault, Place, Source, Strategy};
use std::cmp::Ordering;
use std::sync::Wait;
use std::thread::Threads;

impl<'s, Rt: Threads + Wait + Sync, S: Strategy, P: Place> On<'s, Rt, S, P> {
    /// The first of the least items, as `Iterator::min_by` gives it for an order in which `Less` is
    /// a strict weak order; and none where there is no item.
    ///
    /// # Errors
    ///
    /// `Fault::Memory` if an allocation fails.
    pub fn min_by<M, I: Source<M>, C: Fn(&I::Item, &I::Item) -> Ordering + Send + Sync + Drop>(
        &self,
        source: I,
        compare: C,
    ) -> Result<Option<I::Item>, Fault>
        requires can { I.can source }
        requires accepts { (left right : Bor I.Item) → I.may source left.now
            → I.may source right.now → C.pre compare left right }
        ensures least { (lt : I.Item → I.Item → Bool) → IsStrictWeakOrder lt
            → OrdersBy C.Fn compare lt → IfOk result (λ least. GivesSome I.gives source
            (λ xs. LeastOf lt xs least)) }
        ensures fault { IsMemoryOnErr result }
    {
        self.pick(source, compare, true)
    }

    /// The last of the greatest items, as `Iterator::max_by` gives it for an order in which `Less`
    /// is a strict weak order; and none where there is no item.
    ///
    /// # Errors
    ///
    /// `Fault::Memory` if an allocation fails.
    pub fn max_by<M, I: Source<M>, C: Fn(&I::Item, &I::Item) -> Ordering + Send + Sync + Drop>(
        &self,
        source: I,
        compare: C,
    ) -> Result<Option<I::Item>, Fault>
        requires can { I.can source }
        requires accepts { (left right : Bor I.Item) → I.may source left.now
            → I.may source right.now → C.pre compare left right }
        ensures greatest { (lt : I.Item → I.Item → Bool) → IsStrictWeakOrder lt
            → OrdersBy C.Fn compare lt → IfOk result (λ greatest. GivesSome I.gives source
            (λ xs. GreatestOf lt xs greatest)) }
        ensures fault { IsMemoryOnErr result }
    {
        self.pick(source, compare, false)
    }

    // The first least item, or the last greatest one.
    fn pick<M, I: Source<M>, C: Fn(&I::Item, &I::Item) -> Ordering + Send + Sync + Drop>(
        &self,
        source: I,
        compare: C,
        is_least: bool,
    ) -> Result<Option<I::Item>, Fault>
        requires can { I.can source }
        requires accepts { (left right : Bor I.Item) → I.may source left.now
            → I.may source right.now → C.pre compare left right }
        ensures pick { (lt : I.Item → I.Item → Bool) → IsStrictWeakOrder lt
            → OrdersBy C.Fn compare lt → IfOk result (λ found. GivesSome I.gives source
            (λ xs. PickOf (beats is_least lt) xs found)) }
        ensures fault { IsMemoryOnErr result }
    {
        let step = |best: Option<I::Item>, item: I::Item| -> Option<I::Item>
            requires { AcceptsTwo (C.pre compare) best (Some item) }
            ensures one { IsOneOf best (Some item) result }
            ensures picks { (lt : I.Item → I.Item → Bool) → OrdersBy C.Fn compare lt
                → result ≡ picked (beats is_least lt) best (Some item) }
        { of_two(&compare, is_least, best, Some(item)) };
        let reduce = |left: Option<I::Item>, right: Option<I::Item>| -> Option<I::Item>
            requires { AcceptsTwo (C.pre compare) left right }
            ensures one { IsOneOf left right result }
            ensures picks { (lt : I.Item → I.Item → Bool) → OrdersBy C.Fn compare lt
                → result ≡ picked (beats is_least lt) left right }
        { of_two(&compare, is_least, left, right) };
        self.fold(source, || None, step, reduce)
    }
}

// The second where it takes the first one's place, and the first otherwise.
fn of_two<T: Drop, C: Fn(&T, &T) -> Ordering>(
    compare: &C,
    is_least: bool,
    first: Option<T>,
    second: Option<T>,
) -> Option<T>
    requires { AcceptsTwo (C.pre compare.now) first second }
    ensures one { IsOneOf first second result }
    ensures picks { (lt : T → T → Bool) → OrdersBy C.Fn compare.now lt
        → result ≡ picked (beats is_least lt) first second }
{
    let Some(earlier) = first else {
        return second;
    };
    let Some(later) = second else {
        return Some(earlier);
    };
    if wins(is_least, compare(&later, &earlier).is_lt()) {
        Some(later)
    } else {
        Some(earlier)
    }
}

// Whether a later item takes the earlier one's place, as it is less or not.
fn wins(is_least: bool, is_less: bool) -> bool
    ensures { result ≡ cond is_least is_less (not is_less) }
{
    is_less == is_least
}
