//! A closure that is called with each item.
ghost use Rattle.std.specs.Prelude.{All, IfOk};
ghost use Rattle.commonware_parallel.specs.Words.{GivesSome, IsMemoryOnErr};

use crate::on::On;
use commonware_parallel::{Fault, Place, Source, Strategy};
use std::sync::Wait;
use std::thread::Threads;

impl<'s, Rt: Threads + Wait + Sync, S: Strategy, P: Place> On<'s, Rt, S, P> {
    /// Calls the closure once with each item; no list of results is made.
    ///
    /// # Errors
    ///
    /// `Fault::Memory` if an allocation fails; any number of calls may have been made.
    pub fn for_each<M, I: Source<M>, F: Fn(I::Item) + Send + Sync + Drop>(
        &self,
        source: I,
        op: F,
    ) -> Result<(), Fault>
        requires can { I.can source }
        requires accepts { (x : I.Item) → I.may source x → F.pre op x }
        ensures called { IfOk result (λ _. GivesSome I.gives source
            (λ xs. All (λ x. F.post op x tt) xs)) }
        ensures fault { IsMemoryOnErr result }
    {
        let step = |_so_far: (), item: I::Item|
            requires { F.pre op item }
            ensures { F.post op item tt }
        {
            op(item);
        };
        self.fold(source, || (), step, |_left: (), _right: ()| ())
    }
}
