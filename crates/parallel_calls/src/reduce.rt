//! The items put together by an operation, with no identity.
ghost use Rattle.std.specs.Prelude.{◌≡◌, Some, IfOk};
ghost use Rattle.commonware_parallel.specs.Words.{GivesSome, IsMemoryOnErr};
ghost use Rattle.parallel_calls.specs.Reductions.{IsAssociative, ReducedTwo, ReductionOf, reduced_by};

use crate::on::On;
use commonware_parallel::{Fault, Place, Source, Strategy};
use std::sync::Wait;
use std::thread::Threads;

impl<'s, Rt: Threads + Wait + Sync, S: Strategy, P: Place> On<'s, Rt, S, P> {
    /// The items put together by the operation, and none where there is no item. Brackets stand
    /// where the list is cut, so one result is certain for an associative operation alone: that of
    /// `Iterator::reduce`.
    ///
    /// # Errors
    ///
    /// `Fault::Memory` if an allocation fails.
    pub fn reduce<M, I: Source<M>, G: Fn(I::Item, I::Item) -> I::Item + Send + Sync + Drop>(
        &self,
        source: I,
        op: G,
    ) -> Result<Option<I::Item>, Fault>
        requires can { I.can source }
        requires accepts { G.IsAlwaysCallable op }
        ensures reduced { IfOk result (λ found. GivesSome I.gives source
            (λ xs. ReductionOf (G.post op) xs found)) }
        ensures plain { (g : I.Item → I.Item → I.Item) → IsAssociative (G.post op) g
            → IfOk result (λ found. GivesSome I.gives source (λ xs. found ≡ reduced_by g xs)) }
        ensures fault { IsMemoryOnErr result }
    {
        let step = |so_far: Option<I::Item>, item: I::Item| -> Option<I::Item>
            requires { G.IsAlwaysCallable op }
            ensures { ReducedTwo (G.post op) so_far (Some item) result }
        { of_two(&op, so_far, Some(item)) };
        let both = |left: Option<I::Item>, right: Option<I::Item>| -> Option<I::Item>
            requires { G.IsAlwaysCallable op }
            ensures { ReducedTwo (G.post op) left right result }
        { of_two(&op, left, right) };
        self.fold(source, || None, step, both)
    }
}

// What the operation gives of two, where there are two.
fn of_two<T: Drop, G: Fn(T, T) -> T>(op: &G, first: Option<T>, second: Option<T>) -> Option<T>
    requires { G.IsAlwaysCallable op.now }
    ensures { ReducedTwo (G.post op.now) first second result }
{
    let Some(left) = first else {
        return second;
    };
    let Some(right) = second else {
        return Some(left);
    };
    Some(op(left, right))
}
