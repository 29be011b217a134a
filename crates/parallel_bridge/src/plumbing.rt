//! What a list is handed to: the traits, with the laws by which one bridge drives them all.
ghost use Rattle.std.specs.Prelude.{◌≡◌, ◌++◌, ◌∷◌, [], false, Bool, List, Result, IfOk, IsTrue};
ghost use Rattle.std.specs.Iterator.{Drains, HoldsAlong, IsFinite};
ghost use Rattle.std.specs.List.{All};
ghost use Rattle.parallel_fault.specs.Trouble.{IsMemoryOnErr};
ghost use Rattle.parallel_bridge.specs.Comes.{Given};
ghost use Rattle.parallel_bridge.specs.Outcomes.{UnlessRefused};

use parallel_fault::{Fault, Trouble};
use std::alloc::Global;

/// Puts the results of two neighbouring parts of a list together, left before right. `E` is the
/// error of a closure that it may return.
pub trait Reducer<R, E>: Drop {
    /// The results that may be put together.
    ghost can_reduce: { Self → R → R → Type 0 };
    /// What the results of a left and a right part may be put together to.
    ghost reduce_gives: { Self → R → R → Result R E → Type 0 };

    /// Puts two results together.
    ///
    /// # Errors
    ///
    /// `Trouble::Closure` with the closure's error; `Trouble::Fault` with `Fault::Memory` if an
    /// allocation fails.
    fn reduce(self, left: R, right: R) -> Result<R, Trouble<E>>
        requires { can_reduce self left right }
        ensures { UnlessRefused result (λ out. reduce_gives self left right out) };
}

/// Takes the items of one segment in turn, and then returns. `R` is its result, `E` the error of a
/// closure that it may return instead.
pub trait Folder<Item: Drop, R, E>: Sized + Drop {
    /// A folder that may work.
    ghost ready: { Self → Type 0 };
    /// An item that it may take.
    ghost takes: { Self → Item → Type 0 };
    /// What it may return after it took these items more.
    ghost gives: { Self → List Item → Result R E → Type 0 };
    /// Whether a folder of this type may come to be full.
    ghost may_fill: { Bool };

    /// The folder with one item taken.
    ///
    /// # Errors
    ///
    /// `Fault::Memory` if an allocation fails.
    fn consume(self, alloc: Global, item: Item) -> Result<Self, Fault>
        requires ready { ready self }
        requires item { takes self item }
        ensures ready { IfOk result (λ f. ready f) }
        ensures takes { IfOk result (λ f. (x : Item) → takes self x → takes f x) }
        ensures gives { IfOk result (λ f. (xs : List Item) (out : Result R E) → gives f xs out
            → gives self (item ∷ xs) out) }
        ensures fault { IsMemoryOnErr result };

    /// The result, or the error that a closure returned for one of the items.
    ///
    /// # Errors
    ///
    /// `Trouble::Closure` with the closure's error; `Trouble::Fault` with `Fault::Memory` if an
    /// allocation fails.
    fn complete(self, alloc: Global) -> Result<R, Trouble<E>>
        requires { ready self }
        ensures { UnlessRefused result (λ out. gives self [] out) };

    /// Whether further items make no difference, since an error or a `None` was met.
    fn full(&self) -> bool
        ensures fills { IsTrue result → IsTrue may_fill }
        ensures rests { IsTrue result → (xs ys : List Item) (out : Result R E)
            → gives self.now xs out → gives self.now ys out };

    /// The folder with the items of an iterator taken, in order, up to its end.
    final fn consume_iter<I: Iterator<Item = Item>>(
        self,
        alloc: Global,
        iter: I,
    ) -> Result<Self, Fault>
        requires ready { ready self }
        requires can { I.can_next iter }
        requires ends { IsFinite (I.remaining iter) }
        requires items { HoldsAlong I.next_gives iter (All (takes self)) }
        ensures ready { IfOk result (λ f. ready f) }
        ensures takes { IfOk result (λ f. (x : Item) → takes self x → takes f x) }
        ensures gives { IfOk result (λ f. (xs : List Item) × Drains I.next_gives iter xs
            × ((more : List Item) (out : Result R E) → gives f more out
            → gives self (xs ++ more) out)) }
        ensures fault { IsMemoryOnErr result }
    {
        let mut folder = self;
        for item in iter {
            folder = folder.consume(alloc, item)?;
        }
        Ok(folder)
    }
}

/// Takes the items of a list, which may be split first, each part for a consumer of its own.
pub trait Consumer<Item: Drop>: Sized + Drop {
    /// What a part of the list comes to.
    type Result: Send + Drop;

    /// The error of a closure that may be returned instead.
    type Error: Send + Drop;

    /// What takes the items of a segment.
    type Folder: Folder<Item, Self::Result, Self::Error> + Send;

    /// What puts the results of two parts together.
    type Reducer: Reducer<Self::Result, Self::Error> + Send;

    /// A consumer that may work.
    ghost ready: { Self → Type 0 };
    /// An item that may be handed over.
    ghost takes: { Self → Item → Type 0 };
    /// What the items of a list that is not split may give.
    ghost leaf_gives: { Self → List Item → Result Self.Result Self.Error → Type 0 };
    /// What the results of a left and a right part may give.
    ghost node_gives: { Self → Self.Result → Self.Result → Result Self.Result Self.Error → Type 0 };

    /// Two consumers, for the first `index` items and for the rest, and the reducer of their
    /// results.
    ///
    /// # Errors
    ///
    /// `Fault::Memory` if an allocation fails.
    fn split_at(self, index: usize) -> Result<(Self, Self, Self::Reducer), Fault>
        requires { ready self }
        ensures ready { IfOk result (λ p. ready p.0 × ready p.1) }
        ensures takes { IfOk result (λ p. (x : Item) → takes self x → takes p.0 x × takes p.1 x) }
        ensures reducer { IfOk result (λ p. (a b : Self.Result)
            → Given (leaf_gives p.0) (node_gives p.0) a → Given (leaf_gives p.1) (node_gives p.1) b
            → Self.Reducer.can_reduce p.2 a b) }
        ensures left_leaf { IfOk result (λ p. (xs : List Item) (out : Result Self.Result Self.Error)
            → leaf_gives p.0 xs out → leaf_gives self xs out) }
        ensures right_leaf { IfOk result
            (λ p. (xs : List Item) (out : Result Self.Result Self.Error) → leaf_gives p.1 xs out
            → leaf_gives self xs out) }
        ensures left_node { IfOk result
            (λ p. (a b : Self.Result) (out : Result Self.Result Self.Error) → node_gives p.0 a b out
            → node_gives self a b out) }
        ensures right_node { IfOk result
            (λ p. (a b : Self.Result) (out : Result Self.Result Self.Error) → node_gives p.1 a b out
            → node_gives self a b out) }
        ensures node { IfOk result (λ p. (a b : Self.Result) (out : Result Self.Result Self.Error)
            → Self.Reducer.reduce_gives p.2 a b out → node_gives self a b out) }
        ensures fault { IsMemoryOnErr result };

    /// What takes the items of a list that is not split.
    ///
    /// # Errors
    ///
    /// `Fault::Memory` if an allocation fails.
    fn into_folder(self, alloc: Global) -> Result<Self::Folder, Fault>
        requires { ready self }
        ensures ready { IfOk result (λ f. Self.Folder.ready f) }
        ensures takes { IfOk result (λ f. (x : Item) → takes self x → Self.Folder.takes f x) }
        ensures gives { IfOk result (λ f. (xs : List Item) (out : Result Self.Result Self.Error)
            → Self.Folder.gives f xs out → leaf_gives self xs out) }
        ensures fault { IsMemoryOnErr result };

    /// Whether no part of the list matters any more. No consumer knows of the others' parts, so
    /// none is ever full.
    fn full(&self) -> bool
        ensures { result ≡ false }
    {
        false
    }
}
