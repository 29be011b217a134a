//! The first item at which a step stops.
ghost use Rattle.std.specs.Prelude.{IfOk};
ghost use Rattle.commonware_parallel.specs.Words.{GivesSome, IsMemoryOnErr};
ghost use Rattle.parallel_calls.specs.Firsts.{StopsAt};

use crate::on::On;
use commonware_parallel::{Fault, Place, Source, Strategy};
use parallel_fault::stopped;
use std::sync::Wait;
use std::thread::Threads;

impl<'s, Rt: Threads + Wait + Sync, S: Strategy, P: Place> On<'s, Rt, S, P> {
    // The error of the first item at which the step stops, and none where it stops at no item.
    pub(crate) fn first_stop<
        M,
        I: Source<M>,
        E: Send + Drop,
        F: Fn(I::Item) -> Result<(), E> + Send + Sync + Drop,
    >(&self, source: I, step: F) -> Result<Option<E>, Fault>
        requires can { I.can source }
        requires accepts { (x : I.Item) → I.may source x → F.pre step x }
        ensures stops { IfOk result (λ stop. GivesSome I.gives source
            (λ xs. StopsAt (F.post step) xs stop)) }
        ensures fault { IsMemoryOnErr result }
    {
        let told = self.try_map(source, step);
        stopped(told)
    }
}
