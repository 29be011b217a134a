//! The first item that satisfies a test, its place, and the first value that an item gives.
ghost use Rattle.std.specs.Borrow.{Bor};
ghost use Rattle.std.specs.Prelude.{◌≡◌, Bool, Option, IfOk};
ghost use Rattle.std.specs.Fn.{FnReturnsAt};
ghost use Rattle.std.specs.List.{find, position};
ghost use Rattle.commonware_parallel.specs.Words.{GivesSome, IsMemoryOnErr};
ghost use Rattle.parallel_calls.specs.Firsts.{FirstOf, FirstPlaceOf, FirstValueOf, find_map};
ghost use Rattle.parallel_calls.specs.Functions.{AcceptsAt, GoesBy};
ghost use Rattle.parallel_calls.specs.Verdicts.{LooksFor, LooksForPlace, LooksForValue};

use crate::filter::kept;
use crate::on::On;
use commonware_parallel::{Enumerated, Fault, Place, Producer, Source, Strategy};
use std::sync::Wait;
use std::thread::Threads;

impl<'s, Rt: Threads + Wait + Sync, S: Strategy, P: Place> On<'s, Rt, S, P> {
    /// The first item that satisfies the test, whichever thread found one first; and none, where
    /// no item does.
    ///
    /// # Errors
    ///
    /// `Fault::Memory` if an allocation fails.
    pub fn find_first<M, I: Source<M>, F: Fn(&I::Item) -> bool + Send + Sync + Drop>(
        &self,
        source: I,
        test: F,
    ) -> Result<Option<I::Item>, Fault>
        requires can { I.can source }
        requires accepts { (x : Bor I.Item) → I.may source x.now → F.pre test x }
        ensures first { IfOk result (λ found. GivesSome I.gives source
            (λ xs. FirstOf (λ x b. FnReturnsAt F.Fn test x b) xs found)) }
        ensures plain { (passes : I.Item → Bool)
            → GoesBy (λ x b. FnReturnsAt F.Fn test x b) passes
            → IfOk result (λ found. GivesSome I.gives source (λ xs. found ≡ find passes xs)) }
        ensures fault { IsMemoryOnErr result }
    {
        let look = |item: I::Item| -> Result<(), I::Item>
            requires { AcceptsAt (F.pre test) item }
            ensures { LooksFor (λ x b. FnReturnsAt F.Fn test x b) item result }
        {
            match kept(item, &test) {
                Some(found) => Err(found),
                None => Ok(()),
            }
        };
        self.first_stop(source, look)
    }

    /// The place of the first item of a list that satisfies the test, from 0 on; and none, where no
    /// item does.
    ///
    /// # Errors
    ///
    /// `Fault::Memory` if an allocation fails.
    pub fn position_first<L: Producer, F: Fn(L::Item) -> bool + Send + Sync + Drop>(
        &self,
        list: L,
        test: F,
    ) -> Result<Option<usize>, Fault>
        requires accepts { (x : L.Item) → L.may list x → F.pre test x }
        ensures first { IfOk result (λ found. GivesSome L.gives list
            (λ xs. FirstPlaceOf (F.post test) xs found)) }
        ensures plain { (passes : L.Item → Bool) → GoesBy (F.post test) passes
            → IfOk result (λ found. GivesSome L.gives list (λ xs. found ≡ position passes xs)) }
        ensures fault { IsMemoryOnErr result }
    {
        let step = |item: (usize, L::Item)| -> Result<(), usize>
            requires { F.pre test item.1 }
            ensures { LooksForPlace (F.post test) item result }
        {
            let (place, item) = item;
            if test(item) { Err(place) } else { Ok(()) }
        };
        let _len = list.len();
        self.first_stop(Enumerated::new(list), step)
    }

    /// The first value that the closure gives of an item, in the items' order; and none, where it
    /// gives none of each.
    ///
    /// # Errors
    ///
    /// `Fault::Memory` if an allocation fails.
    pub fn find_map_first<
        M,
        I: Source<M>,
        T: Send + Drop,
        F: Fn(I::Item) -> Option<T> + Send + Sync + Drop,
    >(&self, source: I, map_op: F) -> Result<Option<T>, Fault>
        requires can { I.can source }
        requires accepts { (x : I.Item) → I.may source x → F.pre map_op x }
        ensures first { IfOk result (λ found. GivesSome I.gives source
            (λ xs. FirstValueOf (F.post map_op) xs found)) }
        ensures plain { (f : I.Item → Option T) → GoesBy (F.post map_op) f
            → IfOk result (λ found. GivesSome I.gives source (λ xs. found ≡ find_map f xs)) }
        ensures fault { IsMemoryOnErr result }
    {
        let step = |item: I::Item| -> Result<(), T>
            requires { F.pre map_op item }
            ensures { LooksForValue (F.post map_op) item result }
        {
            match map_op(item) {
                Some(value) => Err(value),
                None => Ok(()),
            }
        };
        self.first_stop(source, step)
    }
}
