//! A strategy that picks by a rule, for tests.
ghost use Rattle.std.specs.Prelude.{◌≡◌, ◌<◌, IfOk, nat_eq};
ghost use Rattle.parallel_fault.specs.Trouble.{IsMemoryOnErr};

use crate::call::{Call, Kind, Pick};
use crate::chooser::Chooser;
use crate::meter::Unmeasured;
use crate::mocks::choice::pick;
use crate::mocks::rule::Rule;
use crate::rayon_strategy::Rayon;
use parallel_bridge::Path;
use parallel_fault::Fault;
use parallel_policy::{Place, Site};
use parallel_pool::rayon::ThreadPool;
use std::alloc::Global;
use std::marker::Model;
use std::num::NonZeroUsize;
use std::sync::{Arc, Wait};

/// A strategy that picks by a rule, for tests: the same call at the same site over as many items
/// goes the same way each time.
///
/// It has a pool's thread number and a planning number, and no policy. Planned for one it runs
/// every body serially; joins and jobs go by the rule alone. A clone has the same pool, number and
/// rule. A contract sees it as these and whether jobs get workers (`ExplorerView`).
#[derive(Clone, Debug, Drop)]
pub struct Explorer {
    pub(crate) pool: Arc<ThreadPool, Global>,
    pub(crate) parallelism: NonZeroUsize,
    pub(crate) starts_workers: bool,
    pub(crate) rule: Rule,
}

impl Model for Explorer {
    ghost use Rattle.std.specs.Arc.{arc_value};
    ghost use Rattle.std.specs.Int.NonZero.{non_zero_usize_get};
    ghost use Rattle.parallel_pool.specs.ThreadPool.{thread_count};
    ghost use Rattle.commonware_parallel.specs.Explorers.{ExplorerView};

    ghost Value = { ExplorerView };

    ghost view = { λ e. record {
      planning = non_zero_usize_get e.parallelism;
      threads = thread_count (arc_value e.pool);
      rule = e.rule;
      starts = e.starts_workers;
    } };
}

impl Explorer {
    ghost use Rattle.commonware_parallel.specs.Explorers.{explorer_of, picked};
    ghost use Rattle.commonware_parallel.specs.Calls.{HasPick};
    ghost use Rattle.commonware_parallel.specs.declared.mocks.rule.Rule.TheVariants.{Parallel, Seeded};

    /// Over the strategy's pool and planned as it is, by the rule.
    ///
    /// # Errors
    ///
    /// `Fault::Memory` where the pool's handle was refused memory.
    pub fn by_rule<C>(strategy: &Rayon<C>, rule: Rule) -> Result<Explorer, Fault>
        ensures over { IfOk result (λ explorer. explorer ≡ explorer_of strategy.now rule) }
        ensures fault { IsMemoryOnErr result }
    {
        let pool = Arc::try_clone(&strategy.pool)?;
        Ok(Explorer {
            pool,
            parallelism: strategy.parallelism,
            starts_workers: strategy.starts_workers,
            rule,
        })
    }

    /// Over the strategy's pool and planned as it is, the parallel way of every call.
    ///
    /// # Errors
    ///
    /// `Fault::Memory` where the pool's handle was refused memory.
    pub fn parallel<C>(strategy: &Rayon<C>) -> Result<Explorer, Fault>
        ensures over { IfOk result (λ explorer. explorer ≡ explorer_of strategy.now Parallel) }
        ensures fault { IsMemoryOnErr result }
    {
        Explorer::by_rule(strategy, Rule::Parallel)
    }

    /// Over the strategy's pool and planned as it is, a way of each call by a hash of the seed, the
    /// call's site and its length.
    ///
    /// # Errors
    ///
    /// `Fault::Memory` where the pool's handle was refused memory.
    pub fn seeded<C>(strategy: &Rayon<C>, seed: u64) -> Result<Explorer, Fault>
        ensures over { IfOk result (λ explorer. explorer ≡ explorer_of strategy.now (Seeded seed)) }
        ensures fault { IsMemoryOnErr result }
    {
        Explorer::by_rule(strategy, Rule::Seeded(seed))
    }

    /// The rule by which it picks, but for bodies that are planned for one.
    pub fn rule(&self) -> Rule
        ensures { result ≡ self.now.rule }
    {
        self.rule
    }

    // The pick for a call.
    fn picked(&self, site: Site, call: Call) -> Pick
        requires { 0 < call.max_parts }
        ensures pick { result ≡ picked self.now site call }
        ensures has { HasPick call result }
    {
        let options = NonZeroUsize::MIN.saturating_add(call.options() - 1);
        let index = match call.kind {
            Kind::Body if self.parallelism.get() == 1 => 0,
            _ => pick(self.rule, site, call.len, options),
        };
        call.nth(index)
    }
}

impl Chooser for Explorer {
    ghost use Rattle.commonware_parallel.specs.Explorers.{ExplorerTakes, ExplorerRefuses};

    ghost takes = { ExplorerTakes };

    ghost refuses = { ExplorerRefuses };

    ghost plans = { λ explorer. explorer.planning };

    ghost threads = { λ explorer. explorer.threads };

    ghost starts = { λ explorer. explorer.starts };

    ghost unasked = { λ explorer. nat_eq explorer.planning 1 };

    type Measure = Unmeasured;

    fn planning(&self) -> NonZeroUsize {
        self.parallelism
    }

    fn thread_number(&self) -> NonZeroUsize {
        self.pool.num_threads()
    }

    fn starts_workers(&self) -> bool {
        self.starts_workers
    }

    fn is_serial(&self) -> bool {
        self.parallelism.get() == 1
    }

    #[tactic(auto, using(crate::proofs::Picks::inner_of_explorer))]
    fn inner(&self) -> Result<Explorer, Fault> {
        let pool = Arc::try_clone(&self.pool)?;
        Ok(Explorer {
            pool,
            parallelism: self.parallelism,
            starts_workers: self.starts_workers,
            rule: self.rule,
        })
    }

    fn choose<Rt: Wait, P: Place>(
        &self,
        _rt: &Rt,
        _alloc: Global,
        site: P,
        call: Call,
    ) -> Result<(Pick, Unmeasured), Fault> {
        let pick = self.picked(site.site(), call);
        let hands_off = matches!(pick, Pick::By(Path::Parallel));
        if call.kind == Kind::Spawn && hands_off && self.pool.current_num_threads() == 1 {
            return Err(Fault::HandOff);
        }
        Ok((pick, Unmeasured))
    }
}
