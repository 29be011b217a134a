//! Whether some item satisfies a test, and whether each does.
ghost use Rattle.std.specs.Prelude.{◌≡◌, Bool, true, false, IfOk};
ghost use Rattle.std.specs.List.{list_all, list_any};
ghost use Rattle.commonware_parallel.specs.Words.{GivesSome, IsMemoryOnErr};
ghost use Rattle.parallel_calls.specs.Functions.{GoesBy};
ghost use Rattle.parallel_calls.specs.Verdicts.{AllOf, AnyOf, StopsUnless};

use crate::on::On;
use commonware_parallel::{Fault, Place, Source, Strategy};
use std::sync::Wait;
use std::thread::Threads;

impl<'s, Rt: Threads + Wait + Sync, S: Strategy, P: Place> On<'s, Rt, S, P> {
    /// Whether some item satisfies the test. Once one does, the test is called no more than the
    /// fallible map calls its closure after an error.
    ///
    /// # Errors
    ///
    /// `Fault::Memory` if an allocation fails.
    pub fn any<M, I: Source<M>, F: Fn(I::Item) -> bool + Send + Sync + Drop>(
        &self,
        source: I,
        test: F,
    ) -> Result<bool, Fault>
        requires can { I.can source }
        requires accepts { (x : I.Item) → I.may source x → F.pre test x }
        ensures found { IfOk result (λ found. GivesSome I.gives source
            (λ xs. AnyOf (F.post test) xs found)) }
        ensures plain { (passes : I.Item → Bool) → GoesBy (F.post test) passes
            → IfOk result (λ found. GivesSome I.gives source (λ xs. found ≡ list_any passes xs)) }
        ensures fault { IsMemoryOnErr result }
    {
        let step = |item: I::Item| -> Result<(), ()>
            requires { F.pre test item }
            ensures { StopsUnless false (F.post test) item result }
        { if test(item) { Err(()) } else { Ok(()) } };
        let stop = self.first_stop(source, step)?;
        Ok(stop.is_some())
    }

    /// Whether each item satisfies the test. Once one fails, the test is called no more than the
    /// fallible map calls its closure after an error.
    ///
    /// # Errors
    ///
    /// `Fault::Memory` if an allocation fails.
    pub fn all<M, I: Source<M>, F: Fn(I::Item) -> bool + Send + Sync + Drop>(
        &self,
        source: I,
        test: F,
    ) -> Result<bool, Fault>
        requires can { I.can source }
        requires accepts { (x : I.Item) → I.may source x → F.pre test x }
        ensures all { IfOk result (λ all. GivesSome I.gives source
            (λ xs. AllOf (F.post test) xs all)) }
        ensures plain { (passes : I.Item → Bool) → GoesBy (F.post test) passes
            → IfOk result (λ all. GivesSome I.gives source (λ xs. all ≡ list_all passes xs)) }
        ensures fault { IsMemoryOnErr result }
    {
        let step = |item: I::Item| -> Result<(), ()>
            requires { F.pre test item }
            ensures { StopsUnless true (F.post test) item result }
        { if test(item) { Ok(()) } else { Err(()) } };
        let stop = self.first_stop(source, step)?;
        Ok(stop.is_none())
    }
}
