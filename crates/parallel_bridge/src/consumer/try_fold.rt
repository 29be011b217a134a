//! The value that the items of a segment are folded to by a step that may fail.
ghost use Rattle.std.specs.Prelude.{◌∷◌, ◌++◌, [], Err, IfOk, List, Ok, Result, true};
ghost use Rattle.parallel_bridge.specs.Onto.{TryContinues};
ghost use Rattle.parallel_bridge.specs.Tries.{TryFoldSegment};

use crate::domain::Domain;
use crate::plumbing::{Consumer, Folder};
use parallel_fault::{Fault, Trouble};
use std::alloc::Global;
use std::marker::PhantomData;

/// Folds the items of each segment from an identity by a step that may fail, and hands the outcome
/// to another consumer.
#[derive(Drop)]
pub struct TryFoldConsumer<'c, C, I, F, D> {
    /// What takes the outcome of a segment.
    pub base: C,
    /// The closure that returns a value to fold from.
    pub identity: &'c I,
    /// The closure that takes the folded value one item further, or fails.
    pub fold_op: &'c F,
    /// The values that the fold stays among.
    pub domain: PhantomData<D>,
}

/// The value that the items of a segment are folded to so far, or the first error.
#[derive(Drop)]
pub struct TryFoldFolder<'c, C, T, E, F, D> {
    /// What takes the outcome of the segment.
    pub base: C,
    /// The value so far, or the first error.
    pub control: Result<T, E>,
    /// The closure that takes the value one item further, or fails.
    pub fold_op: &'c F,
    /// The values that the fold stays among.
    pub domain: PhantomData<D>,
}

impl<
    'c,
    X: Drop,
    T: Drop,
    E: Drop,
    R,
    B,
    C: Folder<Result<T, E>, R, B>,
    F: Fn(T, X) -> Result<T, E>,
    D: Domain<T>,
> Folder<X, R, B> for TryFoldFolder<'c, C, T, E, F, D> {
    ghost ready = { λ s. C.ready s.base
        × ((v : Result T E) → IfOk v (λ u. D.has u) → C.takes s.base v)
        × IfOk s.control (λ u. D.has u) };

    ghost takes = { λ s x. (a : T) → D.has a → F.pre s.fold_op.now a x
        × ((b : T) → F.post s.fold_op.now a x (Ok b) → D.has b) };

    ghost gives = { λ s xs out. (v : Result T E)
        × TryContinues (λ a x o. F.post s.fold_op.now a x o) s.control xs v
        × C.gives s.base (v ∷ []) out };

    ghost may_fill = { true };

    fn consume(self, _alloc: Global, item: X) -> Result<Self, Fault> {
        let control = try_fold_step(self.control, item, self.fold_op);
        Ok(TryFoldFolder { control, ..self })
    }

    fn complete(self, alloc: Global) -> Result<R, Trouble<B>> {
        let base = self.base.consume(alloc, self.control)?;
        base.complete(alloc)
    }

    fn full(&self) -> bool {
        self.control.is_err()
    }
}

impl<
    'c,
    X: Drop,
    T: Send + Drop,
    E: Send + Drop,
    C: Consumer<Result<T, E>>,
    I: Fn() -> T + Sync,
    F: Fn(T, X) -> Result<T, E> + Sync,
    D: Domain<T> + Send,
> Consumer<X> for TryFoldConsumer<'c, C, I, F, D> {
    type Result = C::Result;

    type Error = C::Error;

    type Folder = TryFoldFolder<'c, C::Folder, T, E, F, D>;

    type Reducer = C::Reducer;

    ghost ready = { λ s. C.ready s.base
        × ((v : Result T E) → IfOk v (λ u. D.has u) → C.takes s.base v)
        × I.IsAlwaysCallable s.identity.now × ((e : T) → I.post s.identity.now e → D.has e) };

    ghost takes = { λ s x. (a : T) → D.has a → F.pre s.fold_op.now a x
        × ((b : T) → F.post s.fold_op.now a x (Ok b) → D.has b) };

    ghost leaf_gives = { λ s xs out. (v : Result T E)
        × TryFoldSegment (I.post s.identity.now) (λ a x o. F.post s.fold_op.now a x o) xs v
        × C.leaf_gives s.base (v ∷ []) out };

    ghost node_gives = { λ s a b out. C.node_gives s.base a b out };

    fn split_at(self, index: usize) -> Result<(Self, Self, C::Reducer), Fault> {
        let (left, rest, reducer) = self.base.split_at(index)?;
        let left = TryFoldConsumer { base: left, ..self };
        let right = TryFoldConsumer { base: rest, ..self };
        Ok((left, right, reducer))
    }

    fn into_folder(self, alloc: Global) -> Result<TryFoldFolder<'c, C::Folder, T, E, F, D>, Fault> {
        let base = self.base.into_folder(alloc)?;
        Ok(TryFoldFolder {
            base,
            control: Ok((self.identity)()),
            fold_op: self.fold_op,
            domain: PhantomData,
        })
    }
}

/// One item folded onto a value; or the error that is there, which stands.
///
/// # Errors
///
/// The error that is there; and where there is none, the one that `fold_op` returns.
pub(crate) fn try_fold_step<X: Drop, R: Drop, E: Drop, F: Fn(R, X) -> Result<R, E>>(
    control: Result<R, E>,
    item: X,
    fold_op: &F,
) -> Result<R, E>
    requires { IfOk control (λ value. F.pre fold_op.now value item) }
    ensures { TryContinues (λ a x out. F.post fold_op.now a x out) control (item ∷ []) result }
{
    match control {
        Ok(value) => fold_op(value, item),
        Err(error) => Err(error),
    }
}
