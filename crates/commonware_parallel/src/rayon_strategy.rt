//! The strategy over several threads, with the policy that it asks.
ghost use Rattle.std.specs.Prelude.{◌≡◌, ◌≢◌, ◌<◌, ◌≤◌, true, false, min, nat_eq, None, Some, IsSome, is_some, IfOk, IfErr};
ghost use Rattle.std.specs.Option.{option_copied};
ghost use Rattle.std.specs.Int.NonZero.{non_zero_usize_get};
ghost use Rattle.parallel_fault.specs.Trouble.{IsMemoryOnErr};
ghost use Rattle.parallel_policy.specs.Keys.{key_of};
ghost use Rattle.parallel_pool.specs.ThreadPool.{thread_count};

mod machine;

use crate::call::{Call, Kind, Pick};
use crate::chooser::Chooser;
use crate::meter::{Measured, Sample, Told};
use crate::running::Running;
use parallel_fault::Fault;
use parallel_policy::policy::INLINE_BUDGET;
use parallel_policy::{Clock, Key, Place, Policy, RunExecution, Site, SpawnExecution, ask, tell};
use parallel_pool::rayon::{MAX_THREADS, ThreadPool, ThreadPoolBuildError};
use std::alloc::Global;
use std::marker::Model;
use std::num::NonZeroUsize;
use std::sync::{Arc, Wait};
use std::thread::Threads;

/// Runs calls serially or on scoped threads, as its policy has learnt (`RayonTakes`).
///
/// Planned for one it runs all but joins and jobs serially. Planned for more the policy chooses, by
/// the times of earlier calls at the same site whose length and work have as many binary digits;
/// without a policy the call runs in parallel. A job goes by the thread number in the same way, and
/// a join is always parallel. A clone has the same pool, the same numbers and the same policy. A
/// contract sees it as these and whether jobs get workers (`RayonView`).
#[derive(Clone, Debug, Drop)]
pub struct Rayon<C> {
    pub(crate) pool: Arc<ThreadPool, Global>,
    pub(crate) parallelism: NonZeroUsize,
    pub(crate) starts_workers: bool,
    clock: C,
    policy: Option<Policy>,
}

impl<C> Model for Rayon<C> {
    ghost use Rattle.std.specs.Arc.{arc_value};
    ghost use Rattle.std.specs.Int.NonZero.{non_zero_usize_get};
    ghost use Rattle.parallel_pool.specs.ThreadPool.{thread_count};
    ghost use Rattle.commonware_parallel.specs.Rayon.{RayonView};

    ghost Value = { RayonView };

    ghost view = { λ r. record {
      planning = non_zero_usize_get r.parallelism;
      threads = thread_count (arc_value r.pool);
      policy = r.policy;
      starts = r.starts_workers;
    } };
}

impl<C: Clock> Rayon<C> {
    ghost use Rattle.commonware_parallel.specs.Rayon.{IsMade};

    /// A strategy over a pool of `num_threads` threads, 65535 at most, planned for as many, with a
    /// policy that knows nothing yet and reads the clock.
    ///
    /// # Errors
    ///
    /// `ThreadPoolBuildError::Memory` where the pool's or the policy's memory was refused; the
    /// clock is dropped.
    pub fn new<Rt: Threads>(
        _rt: &Rt,
        alloc: Global,
        num_threads: NonZeroUsize,
        clock: C,
    ) -> Result<Rayon<C>, ThreadPoolBuildError>
        ensures made { IfOk result
            (IsMade (min (non_zero_usize_get num_threads) MAX_THREADS)
            (min (non_zero_usize_get num_threads) MAX_THREADS) true) }
        ensures refused { IfErr result (λ error. error ≡ ThreadPoolBuildError.Memory) }
    {
        let pool = ThreadPool::new(num_threads);
        Rayon::with_pool(alloc, &pool, clock).map_err(|_| ThreadPoolBuildError::Memory)
    }

    /// A strategy with as many threads as the pool, planned for as many, with a policy that knows
    /// nothing yet and reads the clock.
    ///
    /// The pool's number is read and the pool isn't kept: the threads of a call are scoped ones,
    /// which end with it, so the pool's own workers are left to the jobs that are spawned on it.
    ///
    /// # Errors
    ///
    /// `Fault::Memory` where the policy's memory was refused; the clock is dropped.
    pub fn with_pool<W: Drop>(
        alloc: Global,
        pool: &ThreadPool<W>,
        clock: C,
    ) -> Result<Rayon<C>, Fault>
        ensures made { IfOk result
            (IsMade (thread_count pool.now) (thread_count pool.now) true) }
        ensures fault { IsMemoryOnErr result }
    {
        let parallelism = pool.num_threads();
        let pool = Arc::new(alloc, ThreadPool::new(parallelism))?;
        let policy = Policy::new(alloc)?;
        Ok(Rayon {
            pool,
            parallelism,
            starts_workers: true,
            clock,
            policy: Some(policy),
        })
    }
}

impl<C> Rayon<C> {
    ghost use Rattle.commonware_parallel.specs.Rayon.{chooses_of, RayonTakes};
    ghost use Rattle.commonware_parallel.specs.Calls.{HasPick, first_pick, last_pick, options_of};
    ghost use Rattle.commonware_parallel.specs.declared.call.Kind.TheVariants.{Join, Spawn};

    /// The same strategy, planned for `parallelism`. The pool, its thread number and the policy
    /// stay.
    pub fn with_parallelism(self, parallelism: NonZeroUsize) -> Rayon<C>
        ensures { result ≡ record self { planning = non_zero_usize_get parallelism } }
    {
        let mut planned = self;
        planned.parallelism = parallelism;
        planned
    }

    /// The same strategy, whose picks this policy chooses, in the place of the one that it has.
    ///
    /// A policy's clones are one table. So strategies that are given clones of one policy learn
    /// from each other's calls, and the caller's own clone shows what they learnt.
    pub fn with_policy(self, policy: Policy) -> Rayon<C>
        ensures { result ≡ record self { policy = Some policy } }
    {
        let mut chosen = self;
        chosen.policy = Some(policy);
        chosen
    }

    /// The policy that chooses the picks, if one does.
    pub fn policy(&self) -> Option<&Policy>
        ensures policy { option_copied result ≡ self.now.policy }
        ensures some { is_some result ≡ chooses_of self.now }
    {
        self.policy.as_ref()
    }

    /// The same strategy, which starts no worker for a job: where it hands a job off the job is
    /// dropped, and its result stays pending. All other calls go as before, on scoped threads.
    pub fn without_workers(self) -> Rayon<C>
        ensures { result ≡ record self { starts = false } }
    {
        let mut idle = self;
        idle.starts_workers = false;
        idle
    }

    // The number of threads by which a call is planned.
    fn planned(&self, call: Call) -> usize
        ensures spawn { call.kind ≡ Spawn → result ≡ self.now.threads }
        ensures others { call.kind ≢ Spawn → result ≡ self.now.planning }
    {
        match call.kind {
            Kind::Spawn => self.pool.num_threads().get(),
            Kind::Body | Kind::Batches | Kind::Tiles | Kind::Join => self.parallelism.get(),
        }
    }

    // The key by which a policy tells a call apart.
    fn key(&self, site: Site, call: Call) -> Key
        ensures spawn { call.kind ≡ Spawn
            → result ≡ key_of site call.len call.work self.now.threads }
        ensures others { call.kind ≢ Spawn
            → result ≡ key_of site call.len call.work self.now.planning }
    {
        Key::new(site, call.len, call.work, self.planned(call))
    }

    // The pick of a call that no policy is asked about.
    fn pick(&self, call: Call) -> Pick
        requires { 0 < call.max_parts }
        ensures has { HasPick call result }
        ensures takes { RayonTakes self.now call result }
    {
        if call.kind == Kind::Join || self.planned(call) > 1 {
            call.last()
        } else {
            call.first()
        }
    }

    // The policy, where it is asked about a call: not about a join, nor where there is nothing to
    // choose.
    fn asked(&self, call: Call) -> Option<&Policy>
        ensures chooses { IsSome result → chooses_of self.now ≡ true }
        ensures kind { IsSome result → call.kind ≢ Join }
        ensures options { IsSome result → 2 ≤ options_of call }
        ensures first { IsSome result → RayonTakes self.now call (first_pick call) }
        ensures last { IsSome result → RayonTakes self.now call (last_pick call) }
    {
        if call.kind == Kind::Join || call.options() < 2 || self.planned(call) < 2 {
            return None;
        }
        self.policy.as_ref()
    }
}

impl<C: Clone> Rayon<C> {
    /// A strategy over the same pool, with the same planning number, whose picks no policy chooses.
    ///
    /// # Errors
    ///
    /// `Fault::Memory` where the clone was refused memory.
    pub fn without_policy(&self) -> Result<Rayon<C>, Fault>
        ensures same { IfOk result (λ strategy. strategy ≡ record self.now { policy = None }) }
        ensures fault { IsMemoryOnErr result }
    {
        let pool = Arc::try_clone(&self.pool)?;
        let clock = self.clock.clone()?;
        Ok(Rayon {
            pool,
            parallelism: self.parallelism,
            starts_workers: self.starts_workers,
            clock,
            policy: None,
        })
    }
}

impl<C: Clock> Chooser for Rayon<C> {
    ghost use Rattle.commonware_parallel.specs.Rayon.{RayonTakes, RayonRefuses};

    ghost takes = { λ strategy _ call pick. RayonTakes strategy call pick };

    ghost refuses = { λ strategy _ call fault. RayonRefuses strategy call fault };

    ghost plans = { λ strategy. strategy.planning };

    ghost threads = { λ strategy. strategy.threads };

    ghost starts = { λ strategy. strategy.starts };

    ghost unasked = { λ strategy. nat_eq strategy.planning 1 };

    type Measure = Measured<C>;

    fn planning(&self) -> NonZeroUsize {
        self.parallelism
    }

    fn thread_number(&self) -> NonZeroUsize {
        self.pool.num_threads()
    }

    fn starts_workers(&self) -> bool {
        self.starts_workers
    }

    fn is_serial(&self) -> bool {
        self.parallelism.get() == 1
    }

    #[tactic(auto, using(crate::proofs::Picks::inner_of_rayon))]
    fn inner(&self) -> Result<Rayon<C>, Fault> {
        self.without_policy()
    }

    #[inline(always)]
    fn choose<Rt: Wait, P: Place>(
        &self,
        rt: &Rt,
        _alloc: Global,
        site: P,
        call: Call,
    ) -> Result<(Pick, Measured<C>), Fault> {
        let Some(policy) = self.asked(call) else {
            return Ok((self.pick(call), Measured::nothing()));
        };
        let key = self.key(site.site(), call);
        if call.kind != Kind::Spawn {
            let clock = &self.clock;
            let mut now = || clock.now();
            let ticket = ask(rt, &mut policy.locked(), key, self.planned(call), &mut now)?;
            let pick = match ticket.execution {
                RunExecution::Serial => call.first(),
                RunExecution::Parallel => call.last(),
            };
            return Ok((pick, Measured::run(key, ticket)));
        }
        let (execution, measured) = policy.choose_spawn(rt, key, INLINE_BUDGET)?;
        let pick = match execution {
            SpawnExecution::Inline => call.first(),
            SpawnExecution::Offload => call.last(),
        };
        if !measured {
            return Ok((pick, Measured::nothing()));
        }
        let chosen = self.clock.now();
        let told = Told {
            policy: policy.clone()?,
            clock: self.clock.clone()?,
            key,
            execution,
            chosen,
            begun: chosen,
        };
        Ok((pick, Measured::job(told)))
    }

    // Tells the policy how long a run took that it wanted measured.
    fn tell<Rt: Wait>(&self, rt: &Rt, running: Running<Measured<C>>) {
        let measure = running.into_measure();
        let Some(policy) = &self.policy else { return };
        if let Sample::Run(key, ticket) = measure.sample {
            let clock = &self.clock;
            tell(rt, &mut policy.locked(), key, ticket, &mut || clock.now());
        }
    }
}
