//! What gives the results for a list's items one by one, and the loop that writes them: those of a
//! closure, of one that may fail, and of one with a state at hand.
ghost use Rattle.std.specs.Prelude.{◌≡◌, ◌++◌, ◌+◌, ◌<◌, ◌∷◌, [], IfErr, IfOk, List, Result, length};
ghost use Rattle.std.specs.Borrow.{MutBor};
ghost use Rattle.parallel_bridge.specs.Fills.{Answered, IsFull, IsRoom, SamePlaces, kept};
ghost use Rattle.parallel_bridge.specs.Endings.{Goes, IsUnderway, ending};
ghost use Rattle.parallel_bridge.specs.Halting.{halting};
ghost use Rattle.parallel_bridge.specs.Lists.{MapOf};
ghost use Rattle.parallel_bridge.specs.Sources.{GivesSome};
ghost use Rattle.parallel_bridge.specs.States.{MapStep, StateSegment, StatesFrom};
ghost use Rattle.parallel_bridge.specs.Tries.{EachOk, FirstErr};
ghost use Rattle.parallel_bridge.specs.Watched.{items_of, watch_of};

use crate::cursor::Cursor;
use crate::halt::Halt;
use crate::watch::Watch;
use crate::watched::Watched;
use crate::window::part::Window;
use std::convert::Infallible;

/// Gives the results for the items of a segment one by one, with a state that goes from item to
/// item and is fresh for each segment.
pub trait Writer<Item: Drop>: Sized + Drop {
    /// The result for an item.
    type Answer: Drop;

    /// The error of a closure that may be returned instead.
    type Error: Drop;

    /// What goes from item to item.
    type State: Drop;

    /// Whether it may begin.
    ghost ready: { Self → Type 0 };
    /// An item that it may take.
    ghost takes: { Self → Item → Type 0 };
    /// The items so far, the state after them, and their results.
    ghost so_far: { Self → List Item → Self.State → List Self.Answer → Type 0 };
    /// The items of a segment, and the error that one of them came to.
    ghost fails: { Self → List Item → Self.Error → Type 0 };

    /// A fresh state.
    fn begin(&self) -> Self::State
        requires { ready self.now }
        ensures { so_far self.now [] result [] };

    /// The result for the next item, or its error.
    ///
    /// # Errors
    ///
    /// The error of the closure for that item.
    fn answer(&self, state: &mut Self::State, item: Item) -> Result<Self::Answer, Self::Error>
        requires { takes self.now item }
        ensures next { IfOk result (λ y. (xs : List Item) (ys : List Self.Answer)
            → so_far self.now xs state.old ys
            → so_far self.now (xs ++ item ∷ []) state.new (ys ++ y ∷ [])) }
        ensures ends { IfErr result (λ e. (xs more : List Item) (ys : List Self.Answer)
            → so_far self.now xs state.old ys → fails self.now (xs ++ item ∷ more) e) };
}

/// Writes the results for the items that come, in their order, up to the first item that fails,
/// whose error it returns, or to the look that stops it. There is a slot for each item. It looks
/// before each item and after the last, and the watch was told of an error before the items after
/// it are dropped. It takes no memory.
pub fn write_items<X: Drop, L, C: Cursor<X, L>, W: Writer<X>, G: Watch>(
    writer: &W,
    items: Watched<C, G>,
    room: &mut Window<W::Answer>,
) -> (Result<(), Halt<W::Error>>, L, G)
    requires items { C.ready (items_of items) }
    requires ready { W.ready writer.now }
    requires takes { (x : X) → C.may (items_of items) x → W.takes writer.now x }
    requires room { IsRoom room.old }
    requires enough { (xs : List X) → C.gives (items_of items) xs → length xs ≡ room.old.room }
    requires watch { IsUnderway G.ends (watch_of items) }
    ensures place { SamePlaces room.old room.new }
    ensures full { IfOk result.0 (λ _. IsFull room.new) }
    ensures gives { GivesSome C.gives (items_of items) (λ xs. halting
        (Answered (W.so_far writer.now) (W.fails writer.now)) xs (kept result.0 room.new.items)) }
    ensures leaves { C.leaves (items_of items) result.1 }
    ensures goes { Goes G.ends (watch_of items) result.2 (ending result.0) }
    ensures looks { IfOk result.0 (λ _. G.looked (watch_of items) (room.old.room + 1) result.2) }
{
    let mut items = items;
    let mut state = writer.begin();
    while room.len() < room.room() {
        let leave = match items.look() {
            Ok(leave) => leave,
            Err(held) => {
                let (rest, watch) = held.rest();
                return (Err(Halt::Stopped), rest, watch);
            }
        };
        let coming = match leave.next() {
            Ok(coming) => coming,
            Err(held) => {
                let (rest, watch) = held.end();
                return (Ok(()), rest, watch);
            }
        };
        let (answer, others) = coming.answer(writer, &mut state);
        items = others;
        match answer {
            Ok(answer) => room.put(answer),
            Err(error) => {
                let (rest, watch) = items.rest();
                return (Err(Halt::Failed(error)), rest, watch);
            }
        }
    }
    let (rest, mut watch) = items.rest();
    if watch.stopped() {
        return (Err(Halt::Stopped), rest, watch);
    }
    (Ok(()), rest, watch)
}

/// Maps each item by a closure.
#[derive(Drop)]
pub struct MapWriter<'f, F> {
    /// The closure that maps an item.
    pub map_op: &'f F,
}

impl<'f, X: Drop, T: Drop, F: Fn(X) -> T> Writer<X> for MapWriter<'f, F> {
    type Answer = T;

    type Error = Infallible;

    type State = ();

    ghost ready = { λ s. Unit {0} };

    ghost takes = { λ s x. F.pre s.map_op.now x };

    ghost so_far = { λ s xs state ys. MapOf (F.post s.map_op.now) xs ys };

    ghost fails = { λ s xs e. ⊥ };

    fn begin(&self) {}

    fn answer(&self, _state: &mut (), item: X) -> Result<T, Infallible> {
        Ok((self.map_op)(item))
    }
}

/// Maps each item by a closure that may fail.
#[derive(Drop)]
pub struct TryMapWriter<'f, F> {
    /// The closure that maps an item.
    pub map_op: &'f F,
}

impl<'f, X: Drop, T: Drop, E: Drop, F: Fn(X) -> Result<T, E>> Writer<X> for TryMapWriter<'f, F> {
    type Answer = T;

    type Error = E;

    type State = ();

    ghost ready = { λ s. Unit {0} };

    ghost takes = { λ s x. F.pre s.map_op.now x };

    ghost so_far = { λ s xs state ys. EachOk (F.post s.map_op.now) xs ys };

    ghost fails = { λ s xs e. FirstErr (F.post s.map_op.now) xs e };

    fn begin(&self) {}

    fn answer(&self, _state: &mut (), item: X) -> Result<T, E> {
        (self.map_op)(item)
    }
}

/// Maps each item by a closure with a state at hand, which is fresh for each segment.
#[derive(Drop)]
pub struct MapInitWriter<'f, N, F> {
    /// The closure that makes a state.
    pub init: &'f N,
    /// The closure that maps an item.
    pub map_op: &'f F,
}

impl<'f, X: Drop, S: Drop, T: Drop, N: Fn() -> S, F: Fn(&mut S, X) -> T> Writer<X>
    for MapInitWriter<'f, N, F> {
    type Answer = T;

    type Error = Infallible;

    type State = S;

    ghost ready = { λ s. N.IsAlwaysCallable s.init.now };

    ghost takes = { λ s x. (p : MutBor S) → F.pre s.map_op.now p x };

    ghost so_far = { λ s xs state ys. (more : List X) (zs : List T)
        → StatesFrom (MapStep (λ p x y q. F.post s.map_op.now p x y q)) state more zs
        → StateSegment (N.post s.init.now) (MapStep (λ p x y q. F.post s.map_op.now p x y q))
        (xs ++ more) (ys ++ zs) };

    ghost fails = { λ s xs e. ⊥ };

    fn begin(&self) -> S {
        (self.init)()
    }

    fn answer(&self, state: &mut S, item: X) -> Result<T, Infallible> {
        Ok((self.map_op)(state, item))
    }
}
