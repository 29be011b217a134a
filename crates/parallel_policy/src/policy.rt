//! How a run is decided by a policy's choice and measured, whole and in two halves; and the policy,
//! a table of entries that is shared, under a lock.
ghost use Rattle.std.specs.Prelude.{◌≡◌, ℕ, ◌<◌, ◌≤◌, Bool, Result, IfOk, OnErr, ⊤};
ghost use Rattle.parallel_policy.specs.declared.execution.RunExecution.{RunExecution};
ghost use Rattle.parallel_policy.specs.Decisions.{AnswersOn, Asks, DecidesAs, Decides, ReadsAs, RunsSomewhen, RunsSerially, RunsWith, Tells};
ghost use Rattle.parallel_fault.specs.Trouble.{IsMemoryOnErr};

use crate::execution::{RunExecution, SpawnExecution};
use crate::key::Key;
use crate::run::RunEntry;
use crate::site::Place;
use crate::spawn::SpawnEntry;
use crate::table::Table;
use parallel_fault::{Fault, Trouble};
use std::alloc::Global;
use std::sync::{Arc, Mutex, Wait};

/// For up to this many nanoseconds a spawned job may keep its caller.
pub const INLINE_BUDGET: u64 = 1_000_000;

/// Chooses how a run is to go, by a key, and learns how long it took.
///
/// `chooses` says what a choice returns and leaves, `records` what a record leaves, and `refused`
/// what a choice leaves that was refused memory. The right to wait is for those that take a lock.
pub trait Choices<Q> {
    ghost chooses: { Self → Q → ℕ → RunExecution × Bool → Self → Type 0 };

    ghost records: { Self → Q → RunExecution → ℕ → Self → Type 0 };

    ghost refused: { Self → Q → Self → Type 0 };

    /// Chooses how a run planned for `parallelism` threads is to go, and says whether it is to be
    /// measured.
    ///
    /// # Errors
    ///
    /// `Fault::Memory` where a new entry was refused memory.
    fn choose<Rt: Wait>(
        &mut self,
        rt: &Rt,
        key: Q,
        parallelism: usize,
    ) -> Result<(RunExecution, bool), Fault>
        ensures chosen { IfOk result (λ answer. chooses self.old key parallelism answer self.new) }
        ensures fault { IsMemoryOnErr result }
        ensures refused { OnErr result (refused self.old key self.new) };

    /// Records that a run of that kind took that many nanoseconds.
    fn record<Rt: Wait>(&mut self, rt: &Rt, key: Q, execution: RunExecution, nanoseconds: u64)
        ensures { records self.old key execution nanoseconds self.new };
}

/// What a run that was asked about is told by when it has ended: the way that was chosen for it,
/// and where it is to be measured the reading of the clock at which it began.
#[derive(Clone, Copy, Debug, PartialEq, Eq)]
pub struct Ticket {
    /// How the run is to go.
    pub execution: RunExecution,
    /// When it began, where it is to be measured.
    pub start: Option<u64>,
}

/// Asks `choices` how a run is to go, and reads the clock where it is to be measured.
///
/// What `tell` is then given begins here: a run that is asked about is to go on at once.
///
/// # Errors
///
/// `Fault::Memory` where the choice was refused memory; the clock isn't read.
pub fn ask<Rt: Wait, Q: Copy, C: Choices<Q>, N: FnMut() -> u64>(
    rt: &Rt,
    choices: &mut C,
    key: Q,
    parallelism: usize,
    now: &mut N,
) -> Result<Ticket, Fault>
    requires clock { N.IsAlwaysCallable now.now }
    ensures asks { Asks C.chooses C.refused (ReadsAs N.FnMut) choices.old key parallelism now.old
        result choices.new now.new }
    ensures clock { N.IsAlwaysCallable now.new }
    ensures fault { IsMemoryOnErr result }
{
    let (execution, measured) = choices.choose(rt, key, parallelism)?;
    let start = if measured { Some(now()) } else { None };
    Ok(Ticket { execution, start })
}

/// Tells `choices` that a run has ended: where it was measured, its time is recorded, which is the
/// reading of the clock now less the one in the ticket, and 0 where the clock went back. Else
/// nothing is read and nothing is recorded.
///
/// For a run that returned `Ok`. Of one that failed nothing is told: its ticket is dropped.
pub fn tell<Rt: Wait, Q: Copy, C: Choices<Q>, N: FnMut() -> u64>(
    rt: &Rt,
    choices: &mut C,
    key: Q,
    ticket: Ticket,
    now: &mut N,
)
    requires clock { N.IsAlwaysCallable now.now }
    ensures tells { Tells C.records (ReadsAs N.FnMut) choices.old key ticket now.old choices.new
        now.new }
{
    if let Some(start) = ticket.start {
        let nanoseconds = now().saturating_sub(start);
        choices.record(rt, key, ticket.execution, nanoseconds);
    }
}

/// Runs `body` as `choices` chooses for `key`, and records how long it took where it was to be
/// measured and returned `Ok`; planned for one thread it runs serially, and nothing is recorded.
///
/// The time is the reading of the clock `now` after the body less the reading before it, and 0
/// where the clock went back. The body is lent the clock: what it reads, it reads between the two.
///
/// # Errors
///
/// `Trouble::Fault(Fault::Memory)` where the choice was refused memory; the body isn't called. The
/// body's own error as `Trouble::Closure`; nothing is recorded.
pub fn decide<
    Rt: Wait,
    Q: Copy,
    C: Choices<Q>,
    N: FnMut() -> u64,
    R,
    E,
    B: FnOnce(&mut N, RunExecution) -> Result<R, E>,
>(
    rt: &Rt,
    choices: &mut C,
    key: Q,
    parallelism: usize,
    now: &mut N,
    body: B,
) -> Result<R, Trouble<E>>
    requires clock { N.IsAlwaysCallable now.now }
    requires body { B.IsAlwaysCallable body }
    requires lent { (earlier later : N) (path : RunExecution) (r : Result R E)
        → N.IsAlwaysCallable earlier
        → RunsWith B.FnOnce body earlier path r later
        → N.IsAlwaysCallable later }
    ensures answers { DecidesAs (RunsSomewhen B.FnOnce body) result }
    ensures planned_for_one { parallelism ≤ 1
        → RunsSerially (RunsWith B.FnOnce body) result now.old now.new }
    ensures untouched { parallelism ≤ 1 → choices.new ≡ choices.old }
    ensures decided { 1 < parallelism
        → Decides C.chooses C.records C.refused (ReadsAs N.FnMut) (RunsWith B.FnOnce body)
        choices.old key parallelism now.old result choices.new now.new }
{
    if parallelism <= 1 {
        return run_on(now, RunExecution::Serial, body);
    }
    let ticket = ask(rt, choices, key, parallelism, now)?;
    let answer = run_on(now, ticket.execution, body)?;
    tell(rt, choices, key, ticket, now);
    Ok(answer)
}

// Runs `body` on a path, and takes its error for the closure's.
fn run_on<N, R, E, B: FnOnce(&mut N, RunExecution) -> Result<R, E>>(
    now: &mut N,
    path: RunExecution,
    body: B,
) -> Result<R, Trouble<E>>
    requires { B.IsAlwaysCallable body }
    ensures { AnswersOn (λ path r. RunsWith B.FnOnce body now.old path r now.new) path result }
{
    match body(now, path) {
        Ok(answer) => Ok(answer),
        Err(error) => Err(Trouble::Closure(error)),
    }
}

/// Learns, by key, whether a parallel run pays, and whether a job is worth a hand-off.
///
/// It is a table under a lock, shared by its clones. Each call takes the lock for one change of the
/// table; no lock is held while a body runs. What is said of the table's calls holds for each
/// change, and nothing is claimed of what other threads do between two calls.
#[derive(Clone, Debug, Drop)]
pub struct Policy {
    table: Arc<Mutex<Table>, Global>,
}

impl Policy {
    /// A policy that knows nothing.
    ///
    /// # Errors
    ///
    /// `Fault::Memory` where its memory was refused.
    pub fn new(alloc: Global) -> Result<Policy, Fault>
        ensures { IsMemoryOnErr result }
    {
        let table = Arc::new(alloc, Mutex::new(Table::new(alloc)))?;
        Ok(Policy { table })
    }

    /// Runs `body` as this policy chooses for a call at `site` over `len` items that stand for
    /// `work`, planned for `parallelism` threads, and records how long it took where it was to be
    /// measured and returned `Ok` (`decide`). No lock is held while the body runs.
    ///
    /// # Errors
    ///
    /// `Trouble::Fault(Fault::Memory)` where the choice was refused memory; the body isn't called.
    /// The body's own error as `Trouble::Closure`; nothing is recorded.
    pub fn try_run<
        Rt: Wait,
        P: Place,
        N: Fn() -> u64,
        R,
        E,
        B: FnOnce(RunExecution) -> Result<R, E>,
    >(
        &self,
        rt: &Rt,
        site: P,
        len: usize,
        work: usize,
        parallelism: usize,
        now: &N,
        body: B,
    ) -> Result<R, Trouble<E>>
        requires clock { N.IsAlwaysCallable now.now }
        requires body { B.IsAlwaysCallable body }
        ensures answers { DecidesAs (λ path r. B.post body path r) result }
        ensures planned_for_one { parallelism ≤ 1
            → AnswersOn (λ path r. B.post body path r) RunExecution.Serial result }
    {
        let key = Key::new(site.site(), len, work, parallelism);
        let mut clock = || now();
        decide(
            rt,
            &mut self.locked(),
            key,
            parallelism,
            &mut clock,
            |_clock, path| body(path),
        )
    }

    /// The choices of this policy, which take the lock for each choice and each record.
    pub fn locked(&self) -> Locked<'_> {
        Locked { table: &self.table }
    }

    /// The entry of runs at `key`, as it is now, if there is one.
    pub fn run_entry<Rt: Wait>(&self, rt: &Rt, key: Key) -> Option<RunEntry> {
        self.table.lock(rt).run_entry(key)
    }

    /// The entry of spawned jobs at `key`, as it is now, if there is one.
    pub fn spawn_entry<Rt: Wait>(&self, rt: &Rt, key: Key) -> Option<SpawnEntry> {
        self.table.lock(rt).spawn_entry(key)
    }

    /// Chooses how a run is to go (`Table::choose_run`).
    ///
    /// # Errors
    ///
    /// `Fault::Memory` where a new entry was refused memory; the table is as before.
    pub fn choose_run<Rt: Wait>(
        &self,
        rt: &Rt,
        key: Key,
        parallelism: usize,
    ) -> Result<(RunExecution, bool), Fault>
        ensures { IsMemoryOnErr result }
    {
        self.table.lock(rt).choose_run(key, parallelism)
    }

    /// Records that a run of that kind took that many nanoseconds (`Table::record_run`).
    ///
    /// # Errors
    ///
    /// `Fault::Memory` where a new entry was refused memory; the table is as before.
    pub fn record_run<Rt: Wait>(
        &self,
        rt: &Rt,
        key: Key,
        execution: RunExecution,
        nanoseconds: u64,
    ) -> Result<(), Fault>
        ensures { IsMemoryOnErr result }
    {
        self.table.lock(rt).record_run(key, execution, nanoseconds)
    }

    /// Chooses where a job is to run (`Table::choose_spawn`), inline within `budget` nanoseconds.
    ///
    /// # Errors
    ///
    /// `Fault::Memory` where a new entry was refused memory; the table is as before.
    pub fn choose_spawn<Rt: Wait>(
        &self,
        rt: &Rt,
        key: Key,
        budget: u64,
    ) -> Result<(SpawnExecution, bool), Fault>
        ensures { IsMemoryOnErr result }
    {
        self.table.lock(rt).choose_spawn(key, budget)
    }

    /// Records how long an inline run took, in nanoseconds (`Table::record_spawn_inline`).
    ///
    /// # Errors
    ///
    /// `Fault::Memory` where a new entry was refused memory; the table is as before.
    pub fn record_spawn_inline<Rt: Wait>(
        &self,
        rt: &Rt,
        key: Key,
        nanoseconds: u64,
    ) -> Result<(), Fault>
        ensures { IsMemoryOnErr result }
    {
        self.table.lock(rt).record_spawn_inline(key, nanoseconds)
    }

    /// Records how long a handed-off job took by itself, in nanoseconds
    /// (`Table::record_spawn_job`).
    ///
    /// # Errors
    ///
    /// `Fault::Memory` where a new entry was refused memory; the table is as before.
    pub fn record_spawn_job<Rt: Wait>(
        &self,
        rt: &Rt,
        key: Key,
        nanoseconds: u64,
    ) -> Result<(), Fault>
        ensures { IsMemoryOnErr result }
    {
        self.table.lock(rt).record_spawn_job(key, nanoseconds)
    }

    /// Records how much longer a handed-off job took than the job itself, in nanoseconds
    /// (`Table::record_spawn_overhead`).
    ///
    /// # Errors
    ///
    /// `Fault::Memory` where a new entry was refused memory; the table is as before.
    pub fn record_spawn_overhead<Rt: Wait>(
        &self,
        rt: &Rt,
        key: Key,
        nanoseconds: u64,
    ) -> Result<(), Fault>
        ensures { IsMemoryOnErr result }
    {
        self.table.lock(rt).record_spawn_overhead(key, nanoseconds)
    }
}

/// The choices of a policy: its table, locked for each choice and each record.
///
/// Other threads may change the table in between, so nothing is said of a result. A record that was
/// refused memory is left out; a key that was chosen for has its entry.
#[derive(Drop)]
pub struct Locked<'a> {
    table: &'a Mutex<Table>,
}

impl Choices<Key> for Locked<'_> {
    ghost chooses = { λ _ _ _ _ _. ⊤ };

    ghost records = { λ _ _ _ _ _. ⊤ };

    ghost refused = { λ _ _ _. ⊤ };

    fn choose<Rt: Wait>(
        &mut self,
        rt: &Rt,
        key: Key,
        parallelism: usize,
    ) -> Result<(RunExecution, bool), Fault> {
        self.table.lock(rt).choose_run(key, parallelism)
    }

    fn record<Rt: Wait>(&mut self, rt: &Rt, key: Key, execution: RunExecution, nanoseconds: u64) {
        let _ = self.table.lock(rt).record_run(key, execution, nanoseconds);
    }
}

/// The choices of a table, exactly: each is a choice or a record of its run entries.
///
/// A choice for a key that has an entry isn't refused, and a record for one is never left out. A
/// record for a key without an entry is left out where the new entry was refused memory; a key that
/// was chosen for has one.
impl Choices<Key> for Table {
    ghost use Rattle.parallel_policy.specs.Tables.{ChoosesRun, RecordsRun, RefusesRun};

    ghost chooses = { ChoosesRun };

    ghost records = { RecordsRun };

    ghost refused = { RefusesRun };

    fn choose<Rt: Wait>(
        &mut self,
        _rt: &Rt,
        key: Key,
        parallelism: usize,
    ) -> Result<(RunExecution, bool), Fault> {
        self.choose_run(key, parallelism)
    }

    fn record<Rt: Wait>(&mut self, _rt: &Rt, key: Key, execution: RunExecution, nanoseconds: u64) {
        let _ = self.record_run(key, execution, nanoseconds);
    }
}
