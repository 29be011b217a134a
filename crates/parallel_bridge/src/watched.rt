//! The items of a segment under its watch. A look gives leave for one item, which goes to a writer
//! or a folder at once: no item comes in any other way.
ghost use Rattle.std.specs.Prelude.{◌≡◌, ◌++◌, ◌<◌, ◌∷◌, [], IfErr, IfOk, List, Result};
ghost use Rattle.parallel_fault.specs.Trouble.{IsMemoryOnErr};
ghost use Rattle.parallel_bridge.specs.Endings.{Goes, IsUnderway, LooksOnce, failing, stopping, well};

use crate::cursor::Cursor;
use crate::fill::writer::Writer;
use crate::plumbing::Folder;
use crate::watch::Watch;
use parallel_fault::Fault;
use std::alloc::Global;

/// The items of a segment that didn't come yet, with the segment's watch.
///
/// Contracts name what gives the items by `items_of`, and the watch by `watch_of`.
#[derive(Drop)]
pub struct Watched<C, G> {
    items: C,
    watch: G,
}

/// Leave for the next item: the watch has looked since the item before, and didn't stop it.
///
/// Contracts name the items and their watch by `granted`.
#[derive(Drop)]
pub struct Leave<C, G> {
    held: Watched<C, G>,
}

/// An item that came by a leave, and the others. A writer or a folder takes it, and nobody else.
///
/// Contracts name it by `item_of`, and the others and their watch by `behind`.
#[derive(Drop)]
pub struct Coming<X, C, G> {
    item: X,
    held: Watched<C, G>,
}

impl<C: Drop, G: Watch> Watched<C, G> {
    ghost use Rattle.parallel_bridge.specs.Watched.{granted, items_of, watch_of};

    /// The items under the watch.
    pub fn new(items: C, watch: G) -> Self
        ensures items { items_of result ≡ items }
        ensures watch { watch_of result ≡ watch }
    {
        Watched { items, watch }
    }

    /// One look: leave for the next item, or the same items where the segment is to stop.
    ///
    /// # Errors
    ///
    /// The items, of which none comes any more.
    pub fn look(self) -> Result<Leave<C, G>, Self>
        requires { IsUnderway G.ends (watch_of self) }
        ensures goes { IfOk result (λ leave. Goes G.ends (watch_of self) (watch_of (granted leave))
            well) }
        ensures stops { IfErr result (λ held. Goes G.ends (watch_of self) (watch_of held)
            stopping) }
        ensures looks { IfOk result (λ leave. LooksOnce G.looked (watch_of self)
            (watch_of (granted leave))) }
        ensures last { IfErr result (λ held. LooksOnce G.looked (watch_of self) (watch_of held)) }
        ensures items { IfOk result (λ leave. items_of (granted leave) ≡ items_of self) }
        ensures left { IfErr result (λ held. items_of held ≡ items_of self) }
    {
        let mut held = self;
        if held.watch.stopped() {
            return Err(held);
        }
        Ok(Leave { held })
    }

    /// Tells the watch that the segment has failed.
    pub fn failed(&mut self)
        requires { IsUnderway G.ends (watch_of self.old) }
        ensures goes { Goes G.ends (watch_of self.old) (watch_of self.new) failing }
        ensures items { items_of self.new ≡ items_of self.old }
    {
        self.watch.failed();
    }

    /// Drops the items that didn't come yet.
    pub fn rest<X: Drop, L>(self) -> (L, G)
    where
        C: Cursor<X, L>,
        requires { C.ready (items_of self) }
        ensures gives { (xs : List X) × C.gives (items_of self) xs }
        ensures leaves { C.leaves (items_of self) result.0 }
        ensures watch { result.1 ≡ watch_of self }
    {
        (self.items.rest(), self.watch)
    }

    /// What is left where no item is.
    pub fn end<X: Drop, L>(self) -> (L, G)
    where
        C: Cursor<X, L>,
        ensures leaves { C.leaves (items_of self) result.0 }
        ensures watch { result.1 ≡ watch_of self }
    {
        (self.items.end(), self.watch)
    }
}

impl<C: Drop, G: Watch> Leave<C, G> {
    ghost use Rattle.parallel_bridge.specs.Watched.{behind, granted, item_of, items_of, watch_of};

    /// The next item, or what is left where no item is. The leave is used up.
    ///
    /// # Errors
    ///
    /// No item was left.
    pub fn next<X: Drop, L>(self) -> Result<Coming<X, C, G>, Watched<C, G>>
    where
        C: Cursor<X, L>,
        requires { C.ready (items_of (granted self)) }
        ensures none { IfErr result (λ held. C.gives (items_of (granted self)) []) }
        ensures item { IfOk result (λ coming. (xs : List X) → C.gives (items_of (behind coming)) xs
            → C.gives (items_of (granted self)) (item_of coming ∷ xs)) }
        ensures ready { IfOk result (λ coming. C.ready (items_of (behind coming))) }
        ensures may { IfOk result (λ coming. C.may (items_of (granted self)) (item_of coming)) }
        ensures others { IfOk result (λ coming. (y : X) → C.may (items_of (behind coming)) y
            → C.may (items_of (granted self)) y) }
        ensures fewer { IfOk result (λ coming. C.left (items_of (behind coming))
            < C.left (items_of (granted self))) }
        ensures leaves { IfOk result (λ coming. (rest : L) → C.leaves (items_of (behind coming)) rest
            → C.leaves (items_of (granted self)) rest) }
        ensures nothing { IfErr result (λ held. (rest : L) → C.leaves (items_of held) rest
            → C.leaves (items_of (granted self)) rest) }
        ensures watch { IfOk result (λ coming. watch_of (behind coming)
            ≡ watch_of (granted self)) }
        ensures same { IfErr result (λ held. watch_of held ≡ watch_of (granted self)) }
    {
        let mut held = self.held;
        match held.items.next() {
            Some(item) => Ok(Coming { item, held }),
            None => Err(held),
        }
    }

    /// The items, where the leave isn't used.
    pub fn unused(self) -> Watched<C, G>
        ensures { result ≡ granted self }
    {
        self.held
    }
}

impl<X: Drop, C: Drop, G: Watch> Coming<X, C, G> {
    ghost use Rattle.parallel_bridge.specs.Watched.{behind, item_of, items_of, watch_of};

    /// The writer's result for the item, or its error, of which the watch was told, and the other
    /// items.
    pub fn answer<W: Writer<X>>(
        self,
        writer: &W,
        state: &mut W::State,
    ) -> (Result<W::Answer, W::Error>, Watched<C, G>)
        requires takes { W.takes writer.now (item_of self) }
        requires watch { IsUnderway G.ends (watch_of (behind self)) }
        ensures next { IfOk result.0 (λ y. (xs : List X) (ys : List W.Answer)
            → W.so_far writer.now xs state.old ys
            → W.so_far writer.now (xs ++ item_of self ∷ []) state.new (ys ++ y ∷ [])) }
        ensures ends { IfErr result.0 (λ e. (xs more : List X) (ys : List W.Answer)
            → W.so_far writer.now xs state.old ys
            → W.fails writer.now (xs ++ item_of self ∷ more) e) }
        ensures items { items_of result.1 ≡ items_of (behind self) }
        ensures watch { IfOk result.0 (λ _. watch_of result.1 ≡ watch_of (behind self)) }
        ensures told { IfErr result.0 (λ _. Goes G.ends (watch_of (behind self))
            (watch_of result.1) failing) }
    {
        let mut held = self.held;
        match writer.answer(state, self.item) {
            Ok(answer) => (Ok(answer), held),
            Err(error) => {
                held.watch.failed();
                (Err(error), held)
            }
        }
    }

    /// The folder with the item taken, and the other items.
    ///
    /// # Errors
    ///
    /// `Fault::Memory` if an allocation fails.
    pub fn consume<R, E, F: Folder<X, R, E>>(
        self,
        alloc: Global,
        folder: F,
    ) -> (Result<F, Fault>, Watched<C, G>)
        requires ready { F.ready folder }
        requires item { F.takes folder (item_of self) }
        ensures ready { IfOk result.0 (λ f. F.ready f) }
        ensures takes { IfOk result.0 (λ f. (x : X) → F.takes folder x → F.takes f x) }
        ensures gives { IfOk result.0 (λ f. (xs : List X) (out : Result R E) → F.gives f xs out
            → F.gives folder (item_of self ∷ xs) out) }
        ensures fault { IsMemoryOnErr result.0 }
        ensures others { result.1 ≡ behind self }
    {
        (folder.consume(alloc, self.item), self.held)
    }
}
