//! Sums and products of whole numbers.
ghost use Rattle.std.specs.Prelude.{◌≡◌, ◌%◌, ◌^◌, Some, IfOk, sum_by};
ghost use Rattle.commonware_parallel.specs.Words.{GivesSome, IsMemoryOnErr};
ghost use Rattle.parallel_calls.specs.Sums.{CheckedSumOf, ChecksTwo, product_by};

use crate::on::On;
use crate::whole::Whole;
use commonware_parallel::{Fault, Parts, Place, Source, Strategy};
use parallel_bridge::Segment;
use std::sync::Wait;
use std::thread::Threads;

impl<'s, Rt: Threads + Wait + Sync, S: Strategy, P: Place> On<'s, Rt, S, P> {
    /// The sum of the numbers, which wraps around at 2 to the power of 64.
    ///
    /// # Errors
    ///
    /// `Fault::Memory` if an allocation fails.
    pub fn sum<M, N: Whole, I: Source<M, Item = N, Parts: Parts<Segment: Segment<N>>>>(
        &self,
        source: I,
    ) -> Result<N, Fault>
        requires can { I.can source }
        ensures sum { IfOk result (λ sum. GivesSome I.gives source
            (λ xs. N.value sum ≡ sum_by N.value xs % 2 ^ 64)) }
        ensures fault { IsMemoryOnErr result }
    {
        self.fold(
            source,
            || N::zero(),
            |sum: N, number: N| sum.plus(number),
            |left: N, right: N| left.plus(right),
        )
    }

    /// The product of the numbers, which wraps around at 2 to the power of 64.
    ///
    /// # Errors
    ///
    /// `Fault::Memory` if an allocation fails.
    pub fn product<M, N: Whole, I: Source<M, Item = N, Parts: Parts<Segment: Segment<N>>>>(
        &self,
        source: I,
    ) -> Result<N, Fault>
        requires can { I.can source }
        ensures product { IfOk result (λ product. GivesSome I.gives source
            (λ xs. N.value product ≡ product_by N.value xs % 2 ^ 64)) }
        ensures fault { IsMemoryOnErr result }
    {
        self.fold(
            source,
            || N::one(),
            |product: N, number: N| product.times(number),
            |left: N, right: N| left.times(right),
        )
    }

    /// The sum of the numbers, and none where it is 2 to the power of 64 or more.
    ///
    /// # Errors
    ///
    /// `Fault::Memory` if an allocation fails.
    pub fn checked_sum<M, N: Whole, I: Source<M, Item = N, Parts: Parts<Segment: Segment<N>>>>(
        &self,
        source: I,
    ) -> Result<Option<N>, Fault>
        requires can { I.can source }
        ensures sum { IfOk result (λ sum. GivesSome I.gives source
            (λ xs. CheckedSumOf N.value xs sum)) }
        ensures fault { IsMemoryOnErr result }
    {
        let step = |sum: Option<N>, number: N| -> Option<N>
            ensures { ChecksTwo N.value sum (Some number) result }
        { of_two(sum, Some(number)) };
        let both = |left: Option<N>, right: Option<N>| -> Option<N>
            ensures { ChecksTwo N.value left right result }
        { of_two(left, right) };
        self.fold(source, || Some(N::zero()), step, both)
    }
}

// The sum of two, where both are there and it fits.
fn of_two<N: Whole>(left: Option<N>, right: Option<N>) -> Option<N>
    ensures { ChecksTwo N.value left right result }
{
    left?.plus_if_fits(right?)
}
