//! The outcomes of a segment reduced, up to the first error, and then the results.
ghost use Rattle.std.specs.Prelude.{Err, IfOk, Ok, Result, true};
ghost use Rattle.parallel_bridge.specs.Onto.{ReducesTo, TryContinues};
ghost use Rattle.parallel_bridge.specs.Tries.{OnlyOk, TryFoldSegment};

use crate::domain::Domain;
use crate::plumbing::{Consumer, Folder, Reducer};
use parallel_fault::{Fault, Trouble};
use std::alloc::Global;
use std::marker::PhantomData;

/// Reduces the outcomes of each segment after an identity, and then the results; the leftmost
/// error is returned instead.
#[derive(Drop)]
pub struct TryReduceConsumer<'r, I, G, D> {
    /// The closure that returns a value to reduce from.
    pub identity: &'r I,
    /// The closure that reduces two values, the left one first.
    pub reduce_op: &'r G,
    /// The values that the reduction stays among.
    pub domain: PhantomData<D>,
}

/// The value that the outcomes of a segment are reduced to so far, or the first error among them.
#[derive(Drop)]
pub struct TryReduceFolder<'r, T, E, G, D> {
    /// The value so far, or the first error.
    pub control: Result<T, E>,
    /// The closure that reduces two values, the left one first.
    pub reduce_op: &'r G,
    /// The values that the reduction stays among.
    pub domain: PhantomData<D>,
}

impl<'r, T, E, I: Fn() -> T, G: Fn(T, T) -> T, D: Domain<T>> Reducer<T, E>
    for TryReduceConsumer<'r, I, G, D> {
    ghost can_reduce = { λ s left right. G.pre s.reduce_op.now left right
        × ((r : T) → G.post s.reduce_op.now left right r → D.has r) };

    ghost reduce_gives = { λ s left right out. OnlyOk
        (λ all. G.post s.reduce_op.now left right all × D.has all) out };

    fn reduce(self, left: T, right: T) -> Result<T, Trouble<E>> {
        Ok((self.reduce_op)(left, right))
    }
}

impl<'r, T: Drop, E: Drop, G: Fn(T, T) -> T, D: Domain<T>> Folder<Result<T, E>, T, E>
    for TryReduceFolder<'r, T, E, G, D> {
    ghost ready = { λ s. IfOk s.control (λ u. D.has u) × ((a b : T) → D.has a → D.has b
        → G.pre s.reduce_op.now a b × ((r : T) → G.post s.reduce_op.now a b r → D.has r)) };

    ghost takes = { λ _ x. IfOk x (λ u. D.has u) };

    ghost gives = { λ s xs out. TryContinues
        (ReducesTo (λ a b c. G.post s.reduce_op.now a b c)) s.control xs out
        × IfOk out (λ u. D.has u) };

    ghost may_fill = { true };

    fn consume(self, _alloc: Global, item: Result<T, E>) -> Result<Self, Fault> {
        let TryReduceFolder {
            control,
            reduce_op,
            domain,
        } = self;
        match (control, item) {
            (Ok(left), Ok(right)) => Ok(TryReduceFolder {
                control: Ok(reduce_op(left, right)),
                reduce_op,
                domain,
            }),
            (Ok(_), Err(error)) | (Err(error), _) => Ok(TryReduceFolder {
                control: Err(error),
                reduce_op,
                domain,
            }),
        }
    }

    fn complete(self, _alloc: Global) -> Result<T, Trouble<E>> {
        match self.control {
            Ok(value) => Ok(value),
            Err(error) => Err(Trouble::Closure(error)),
        }
    }

    fn full(&self) -> bool {
        self.control.is_err()
    }
}

impl<
    'r,
    T: Send + Drop,
    E: Send + Drop,
    I: Fn() -> T + Sync,
    G: Fn(T, T) -> T + Sync,
    D: Domain<T> + Send,
> Consumer<Result<T, E>> for TryReduceConsumer<'r, I, G, D> {
    type Result = T;

    type Error = E;

    type Folder = TryReduceFolder<'r, T, E, G, D>;

    type Reducer = TryReduceConsumer<'r, I, G, D>;

    ghost ready = { λ s. I.IsAlwaysCallable s.identity.now
        × ((e : T) → I.post s.identity.now e → D.has e)
        × ((a b : T) → D.has a → D.has b
        → G.pre s.reduce_op.now a b × ((r : T) → G.post s.reduce_op.now a b r → D.has r)) };

    ghost takes = { λ _ x. IfOk x (λ u. D.has u) };

    ghost leaf_gives = { λ s xs out. TryFoldSegment (I.post s.identity.now)
        (ReducesTo (λ a b c. G.post s.reduce_op.now a b c)) xs out
        × IfOk out (λ u. D.has u) };

    ghost node_gives = { λ s left right out. OnlyOk
        (λ all. G.post s.reduce_op.now left right all × D.has all) out };

    fn split_at(self, _index: usize) -> Result<(Self, Self, Self), Fault> {
        let right = TryReduceConsumer { ..self };
        let reducer = TryReduceConsumer { ..self };
        Ok((self, right, reducer))
    }

    fn into_folder(self, _alloc: Global) -> Result<TryReduceFolder<'r, T, E, G, D>, Fault> {
        Ok(TryReduceFolder {
            control: Ok((self.identity)()),
            reduce_op: self.reduce_op,
            domain: PhantomData,
        })
    }
}
