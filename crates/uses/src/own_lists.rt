//! Lists of a user's own: a producer, which is a list that can be cut, and a source, which is made
//! into one where a call goes parallel.
ghost use Rattle.std.specs.Prelude.{◌≡◌, ◌*◌, ◌++◌, length, map, reverse, IfOk, ⊤};
ghost use Rattle.std.specs.List.{Contains};
ghost use Rattle.parallel_fault.specs.Trouble.{IsMemoryOnErr};

use commonware_parallel::bridge::DrainProducer;
use commonware_parallel::{Fault, Place, Producer, Source, Strategy};
use std::alloc::Global;
use std::iter::{Chain, Copied, Rev};
use std::slice::Iter;
use std::sync::Wait;
use std::thread::Threads;

/// The items of a slice from its last one back, each copied as it comes.
#[derive(Clone, Copy, Debug)]
pub struct Backwards<'a, T> {
    /// The items, the last one to come first.
    pub slice: &'a [T],
}

impl<'a, T: Copy + Send + Sync + Drop> Producer for Backwards<'a, T> {
    type Item = T;

    type Iter = Copied<Rev<Iter<'a, T>>>;

    ghost gives = { λ s xs. xs ≡ reverse s.slice.now };

    ghost may = { λ s x. Contains (reverse s.slice.now) x };

    ghost count = { λ s. length s.slice.now };

    fn len(&self) -> usize {
        self.slice.len()
    }

    // The first items to come stand at the slice's end.
    fn split_at(self, _alloc: Global, index: usize) -> Result<(Self, Self), Fault> {
        let rest = self.slice.len() - index;
        let front = Backwards {
            slice: &self.slice[rest..],
        };
        let back = Backwards {
            slice: &self.slice[..rest],
        };
        Ok((front, back))
    }

    fn into_items(self) -> Copied<Rev<Iter<'a, T>>> {
        self.slice.iter().rev().copied()
    }
}

/// The items of a buffer that wraps around: those up to the buffer's end, and then those at its
/// beginning. It is no list that can be cut, so where a call goes parallel its items are gathered.
#[derive(Clone, Copy, Debug)]
pub struct Wrapped<'a, T> {
    /// The items that come first.
    pub front: &'a [T],
    /// The items after them.
    pub back: &'a [T],
}

/// The kind of source that a wrapped buffer is, by which its calls are told from those of an
/// iterator.
pub struct ByWrapping;

impl<'a, T: Copy + Send + Sync + Drop> Source<ByWrapping> for Wrapped<'a, T> {
    type Item = T;

    type Parts = DrainProducer<T>;

    type Iter = Chain<Copied<Iter<'a, T>>, Copied<Iter<'a, T>>>;

    ghost can = { λ _. ⊤ };

    ghost gives = { λ s xs. xs ≡ s.front.now ++ s.back.now };

    ghost may = { λ s x. Contains (s.front.now ++ s.back.now) x };

    fn into_items(self) -> Chain<Copied<Iter<'a, T>>, Copied<Iter<'a, T>>> {
        self.front.iter().copied().chain(self.back.iter().copied())
    }

    fn into_parts(self, alloc: Global) -> Result<DrainProducer<T>, Fault> {
        let mut items = Vec::new(alloc);
        items.extend_from_slice(self.front)?;
        items.extend_from_slice(self.back)?;
        Ok(DrainProducer::from_vec(items))
    }
}

/// The squares of the numbers, from the last number back.
///
/// # Errors
///
/// `Fault::Memory` if an allocation fails.
pub fn squares_backwards<Rt: Threads + Wait + Sync, P: Place, S: Strategy>(
    rt: &Rt,
    alloc: Global,
    strategy: &S,
    site: P,
    numbers: &[u32],
) -> Result<Vec<u64>, Fault>
    ensures squares { IfOk result
        (λ answers. answers.items ≡ map (λ x. x * x) (reverse numbers.now)) }
    ensures fault { IsMemoryOnErr result }
{
    strategy.map_collect_vec(rt, alloc, site, Backwards { slice: numbers }, |number| {
        u64::from(number) * u64::from(number)
    })
}

/// The squares of the numbers of a buffer that wraps around.
///
/// # Errors
///
/// `Fault::Memory` if an allocation fails.
pub fn squares_of_wrapped<Rt: Threads + Wait + Sync, P: Place, S: Strategy>(
    rt: &Rt,
    alloc: Global,
    strategy: &S,
    site: P,
    front: &[u32],
    back: &[u32],
) -> Result<Vec<u64>, Fault>
    ensures squares { IfOk result
        (λ answers. answers.items ≡ map (λ x. x * x) (front.now ++ back.now)) }
    ensures fault { IsMemoryOnErr result }
{
    strategy.map_collect_vec(rt, alloc, site, Wrapped { front, back }, |number| {
        u64::from(number) * u64::from(number)
    })
}
