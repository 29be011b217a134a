//! How many items satisfy a test.
ghost use Rattle.std.specs.Prelude.{◌≡◌, ◌<◌, ◌^◌, ◌%◌, Bool, IfOk, count_by, length};
ghost use Rattle.commonware_parallel.specs.Words.{GivesSome, IsMemoryOnErr};
ghost use Rattle.parallel_calls.specs.Counts.{CountOf, CountsOn};
ghost use Rattle.parallel_calls.specs.Functions.{GoesBy};

use crate::on::On;
use commonware_parallel::{Fault, Place, Source, Strategy};
use std::sync::Wait;
use std::thread::Threads;

impl<'s, Rt: Threads + Wait + Sync, S: Strategy, P: Place> On<'s, Rt, S, P> {
    /// How many items satisfy the test. The count is exact for fewer than 2 to the power of 64
    /// items, as every list has, and wraps around for an iterator that gives more.
    ///
    /// # Errors
    ///
    /// `Fault::Memory` if an allocation fails.
    pub fn count<M, I: Source<M>, F: Fn(I::Item) -> bool + Send + Sync + Drop>(
        &self,
        source: I,
        test: F,
    ) -> Result<usize, Fault>
        requires can { I.can source }
        requires accepts { (x : I.Item) → I.may source x → F.pre test x }
        ensures counted { IfOk result (λ count. GivesSome I.gives source
            (λ xs. CountOf (F.post test) xs count)) }
        ensures plain { (passes : I.Item → Bool) → GoesBy (F.post test) passes
            → IfOk result (λ count. GivesSome I.gives source
            (λ xs. count ≡ count_by passes xs % 2 ^ 64)) }
        ensures exact { (passes : I.Item → Bool) → GoesBy (F.post test) passes
            → IfOk result (λ count. GivesSome I.gives source
            (λ xs. length xs < 2 ^ 64 → count ≡ count_by passes xs)) }
        ensures fault { IsMemoryOnErr result }
    {
        let step = |count: usize, item: I::Item| -> usize
            requires { F.pre test item }
            ensures { CountsOn (F.post test) count item result }
        {
            if test(item) {
                count.wrapping_add(1)
            } else {
                count
            }
        };
        self.fold(
            source,
            || 0,
            step,
            |left: usize, right: usize| left.wrapping_add(right),
        )
    }
}
