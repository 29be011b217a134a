//! A pass of a worker's own deque, for any thread.
use crate::rayon::job_history::{JobView, Numbered, Purpose, Takes};
use crossbeam_deque::{Pass, Steal, Stealer};
use std::alloc::Global;
use std::marker::Model;
use std::sync::Wait;

/// What takes jobs at the front of a worker's deque.
pub(crate) type Thief<T> = Stealer<T, Global, JobView<T>, Numbered>;

/// One seat's pass of a worker's deque, at whose front it takes jobs. Contracts see what it knows
/// of the deque.
#[derive(Drop)]
pub(crate) struct ThiefPort<T: Drop> {
    thief: Thief<T>,
    pass: Pass<T, JobView<T>>,
}

impl<T: Drop> Model for ThiefPort<T> {
    ghost use Rattle.crossbeam_deque.specs.Handles.{IsPassOf, stealer_deque};
    ghost use Rattle.parallel_pool.specs.declared.rayon.job_history.JobView.{JobView};

    ghost Value = { JobView T };

    ghost view = { λ p. p.pass.me.view.client };

    ghost invariant = { λ p. IsPassOf (stealer_deque p.thief) p.pass };
}

impl<T: Drop> ThiefPort<T> {
    ghost use Rattle.std.specs.Prelude.{◌≡◌, MatchOption};
    ghost use Rattle.crossbeam_deque.specs.Steals.{MatchSteal};
    ghost use Rattle.parallel_pool.specs.JobHistory.{HasTaken, new_pass};
    ghost use Rattle.parallel_pool.specs.declared.rayon.job_history.Deed.TheVariants.{TakeFirst};

    /// A pass that has seen nothing of the deque.
    pub(crate) fn new(thief: Thief<T>) -> ThiefPort<T>
        ensures { result ≡ new_pass }
    {
        let pass = thief.pass();
        ThiefPort { thief, pass }
    }

    // One try to take the first job.
    fn try_take<U: Purpose>(&mut self) -> Steal<T>
        ensures { MatchSteal result (self.new ≡ self.old) (self.new ≡ self.old)
            (λ job. HasTaken TakeFirst U.called self.old job self.new) }
    {
        self.thief.steal_as::<Takes<U>>(&mut self.pass)
    }

    /// Takes the first job.
    pub(crate) fn take<U: Purpose, R: Wait>(&mut self, rt: &R) -> Option<T>
        ensures { MatchOption result (self.new ≡ self.old)
            (λ job. HasTaken TakeFirst U.called self.old job self.new) }
    {
        for _ in rt.forever() {
            match self.try_take::<U>() {
                Steal::Success(job) => return Some(job),
                Steal::Empty => return None,
                Steal::Retry => {}
            }
        }
        unreachable!()
    }
}
