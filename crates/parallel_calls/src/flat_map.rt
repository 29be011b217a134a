//! The items of the lists that a closure gives, one list after another.
ghost use Rattle.std.specs.Prelude.{◌≡◌, ◌++◌, IfOk, List, flat_map};
ghost use Rattle.commonware_parallel.specs.Words.{GivesSome, IsMemoryOnErr};
ghost use Rattle.parallel_calls.specs.Flat.{FlatOf, GivesItems, items_of};
ghost use Rattle.parallel_calls.specs.Functions.{GoesBy};

use crate::on::On;
use commonware_parallel::{Fault, Place, Source, Strategy};
use std::alloc::Global;
use std::sync::Wait;
use std::thread::Threads;

impl<'s, Rt: Threads + Wait + Sync, S: Strategy, P: Place> On<'s, Rt, S, P> {
    /// The items of the lists that the closure gives, in the order of the source's items. Each is
    /// moved once, into a list that has room for all from the beginning.
    ///
    /// # Errors
    ///
    /// `Fault::Memory` if an allocation fails.
    pub fn flat_map<M, I: Source<M>, T: Send + Drop, F: Fn(I::Item) -> Vec<T> + Send + Sync + Drop>(
        &self,
        source: I,
        map_op: F,
    ) -> Result<Vec<T>, Fault>
        requires can { I.can source }
        requires accepts { (x : I.Item) → I.may source x → F.pre map_op x }
        ensures items { IfOk result (λ all. GivesSome I.gives source
            (λ xs. FlatOf (F.post map_op) xs all.items)) }
        ensures plain { (f : I.Item → List T) → GoesBy (GivesItems (F.post map_op)) f
            → IfOk result (λ all. GivesSome I.gives source (λ xs. all.items ≡ flat_map f xs)) }
        ensures fault { IsMemoryOnErr result }
    {
        let lists = self.map(source, map_op)?;
        joined(self.alloc, lists)
    }
}

// The items of the lists, one list after another.
fn joined<T: Drop>(alloc: Global, lists: Vec<Vec<T>>) -> Result<Vec<T>, Fault>
    ensures items { IfOk result (λ all. all.items ≡ items_of lists.items) }
    ensures fault { IsMemoryOnErr result }
{
    let mut all = Vec::with_capacity(alloc, total(&lists))?;
    for mut list in lists {
        all.append(&mut list)?;
    }
    Ok(all)
}

// How many items the lists have.
fn total<T>(lists: &[Vec<T>]) -> usize {
    let mut total: usize = 0;
    for list in lists {
        total = total.saturating_add(list.len());
    }
    total
}
