//! The entries of a policy, by their keys.
ghost use Rattle.std.specs.Prelude.{◌≡◌, ◌∷◌, false, None, Some, IsSome, IfOk, IsOk, OnOk, OnErr};
ghost use Rattle.std.specs.Fn.{FnOnceReturnsAtMut};
ghost use Rattle.std.specs.HashMap.{get};
ghost use Rattle.parallel_policy.specs.Entries.{IsEntryOr};
ghost use Rattle.parallel_policy.specs.Runs.{RunHistory, run_choice};
ghost use Rattle.parallel_policy.specs.Spawns.{SpawnHistory, spawn_choice};
ghost use Rattle.parallel_policy.specs.declared.history.RunEvent.{RunEvent};
ghost use Rattle.parallel_policy.specs.declared.history.SpawnEvent.{SpawnEvent};
ghost use Rattle.parallel_policy.specs.declared.history.SpawnSample.{SpawnSample};
ghost use Rattle.parallel_fault.specs.Trouble.{IsMemoryOnErr};

use crate::execution::{RunExecution, SpawnExecution};
use crate::key::Key;
use crate::run::RunEntry;
use crate::spawn::SpawnEntry;
use parallel_fault::Fault;
use std::alloc::Global;
use std::collections::HashMap;
use std::hash::Hash;

/// What a policy knows: an entry of runs and an entry of spawned jobs for each key that was chosen
/// for.
///
/// Each call changes the entry of its own key and no other; a key without an entry counts as one
/// with a default entry, and gets it by the first call. A call for a key that has an entry takes no
/// memory and can't fail. Where memory was refused, the table is as before.
#[derive(Debug, Drop)]
pub struct Table {
    runs: HashMap<Key, RunEntry>,
    spawns: HashMap<Key, SpawnEntry>,
}

impl Table {
    ghost use Rattle.parallel_policy.specs.declared.key.Key.{Key};
    ghost use Rattle.parallel_policy.specs.Tables.{run_of, spawn_of, HoldsRunAt, HoldsSpawnAt, HasSameRuns, HasSameSpawns, HasOtherRuns, HasOtherSpawns};

    /// A table without entries. It takes no memory.
    pub fn new(alloc: Global) -> Table
        ensures runs { (key : Key) → run_of result key ≡ None }
        ensures spawns { (key : Key) → spawn_of result key ≡ None }
    {
        Table {
            runs: HashMap::new(alloc),
            spawns: HashMap::new(alloc),
        }
    }

    /// The entry of runs at `key`, if it has one.
    pub fn run_entry(&self, key: Key) -> Option<RunEntry>
        ensures { result ≡ run_of self.now key }
    {
        self.runs.get(&key).copied()
    }

    /// The entry of spawned jobs at `key`, if it has one.
    pub fn spawn_entry(&self, key: Key) -> Option<SpawnEntry>
        ensures { result ≡ spawn_of self.now key }
    {
        self.spawns.get(&key).copied()
    }

    /// Chooses how a run is to go (`RunEntry::choose`).
    ///
    /// # Errors
    ///
    /// `Fault::Memory` where a new entry was refused memory; the table is as before.
    pub fn choose_run(
        &mut self,
        key: Key,
        parallelism: usize,
    ) -> Result<(RunExecution, bool), Fault>
        ensures answer { IfOk result (λ answer. (history : RunHistory)
            → HoldsRunAt self.old key history → answer ≡ run_choice history parallelism) }
        ensures holds { OnOk result ((history : RunHistory) → HoldsRunAt self.old key history
            → HoldsRunAt self.new key (RunEvent.Chosen parallelism ∷ history)) }
        ensures entry { OnOk result (IsSome (run_of self.new key)) }
        ensures others { HasOtherRuns self.old self.new key }
        ensures spawns { HasSameSpawns self.old self.new }
        ensures fault { IsMemoryOnErr result }
        ensures err { OnErr result (HasSameRuns self.old self.new) }
        ensures known { IsSome (run_of self.old key) → IsOk result }
    {
        change_entry(&mut self.runs, key, |entry| entry.choose(parallelism))
    }

    /// Records that a run of that kind took that many nanoseconds (`RunEntry::record`).
    ///
    /// # Errors
    ///
    /// `Fault::Memory` where a new entry was refused memory; the table is as before. A key that was
    /// chosen for has an entry.
    pub fn record_run(
        &mut self,
        key: Key,
        execution: RunExecution,
        nanoseconds: u64,
    ) -> Result<(), Fault>
        ensures holds { OnOk result ((history : RunHistory) → HoldsRunAt self.old key history
            → HoldsRunAt self.new key (RunEvent.Sampled execution nanoseconds ∷ history)) }
        ensures entry { OnOk result (IsSome (run_of self.new key)) }
        ensures others { HasOtherRuns self.old self.new key }
        ensures spawns { HasSameSpawns self.old self.new }
        ensures fault { IsMemoryOnErr result }
        ensures err { OnErr result (HasSameRuns self.old self.new) }
        ensures known { IsSome (run_of self.old key) → IsOk result }
    {
        change_entry(
            &mut self.runs,
            key,
            |entry| entry.record(execution, nanoseconds),
        )
    }

    /// Chooses where a job is to run, inline within `budget` nanoseconds (`SpawnEntry::choose`).
    ///
    /// # Errors
    ///
    /// `Fault::Memory` where a new entry was refused memory; the table is as before.
    pub fn choose_spawn(&mut self, key: Key, budget: u64) -> Result<(SpawnExecution, bool), Fault>
        ensures answer { IfOk result (λ answer. (history : SpawnHistory)
            → HoldsSpawnAt self.old key history → answer ≡ spawn_choice history budget) }
        ensures holds { OnOk result ((history : SpawnHistory) → HoldsSpawnAt self.old key history
            → HoldsSpawnAt self.new key (SpawnEvent.Chosen budget ∷ history)) }
        ensures entry { OnOk result (IsSome (spawn_of self.new key)) }
        ensures others { HasOtherSpawns self.old self.new key }
        ensures runs { HasSameRuns self.old self.new }
        ensures fault { IsMemoryOnErr result }
        ensures err { OnErr result (HasSameSpawns self.old self.new) }
        ensures known { IsSome (spawn_of self.old key) → IsOk result }
    {
        change_entry(&mut self.spawns, key, |entry| entry.choose(budget))
    }

    /// Records how long an inline run took, in nanoseconds (`SpawnEntry::record_inline`).
    ///
    /// # Errors
    ///
    /// `Fault::Memory` where a new entry was refused memory; the table is as before. A key that was
    /// chosen for has an entry.
    pub fn record_spawn_inline(&mut self, key: Key, nanoseconds: u64) -> Result<(), Fault>
        ensures holds { OnOk result ((history : SpawnHistory) → HoldsSpawnAt self.old key history
            → HoldsSpawnAt self.new key (SpawnEvent.Sampled SpawnSample.InlineRun
            nanoseconds ∷ history)) }
        ensures entry { OnOk result (IsSome (spawn_of self.new key)) }
        ensures others { HasOtherSpawns self.old self.new key }
        ensures runs { HasSameRuns self.old self.new }
        ensures fault { IsMemoryOnErr result }
        ensures err { OnErr result (HasSameSpawns self.old self.new) }
        ensures known { IsSome (spawn_of self.old key) → IsOk result }
    {
        change_entry(
            &mut self.spawns,
            key,
            |entry| entry.record_inline(nanoseconds),
        )
    }

    /// Records how long a handed-off job took by itself, in nanoseconds (`SpawnEntry::record_job`).
    ///
    /// # Errors
    ///
    /// `Fault::Memory` where a new entry was refused memory; the table is as before. A key that was
    /// chosen for has an entry.
    pub fn record_spawn_job(&mut self, key: Key, nanoseconds: u64) -> Result<(), Fault>
        ensures holds { OnOk result ((history : SpawnHistory) → HoldsSpawnAt self.old key history
            → HoldsSpawnAt self.new key (SpawnEvent.Sampled SpawnSample.Job
            nanoseconds ∷ history)) }
        ensures entry { OnOk result (IsSome (spawn_of self.new key)) }
        ensures others { HasOtherSpawns self.old self.new key }
        ensures runs { HasSameRuns self.old self.new }
        ensures fault { IsMemoryOnErr result }
        ensures err { OnErr result (HasSameSpawns self.old self.new) }
        ensures known { IsSome (spawn_of self.old key) → IsOk result }
    {
        change_entry(&mut self.spawns, key, |entry| entry.record_job(nanoseconds))
    }

    /// Records how much longer a handed-off job took than the job itself, in nanoseconds
    /// (`SpawnEntry::record_overhead`).
    ///
    /// # Errors
    ///
    /// `Fault::Memory` where a new entry was refused memory; the table is as before. A key that was
    /// chosen for has an entry.
    pub fn record_spawn_overhead(&mut self, key: Key, nanoseconds: u64) -> Result<(), Fault>
        ensures holds { OnOk result ((history : SpawnHistory) → HoldsSpawnAt self.old key history
            → HoldsSpawnAt self.new key (SpawnEvent.Sampled SpawnSample.Overhead
            nanoseconds ∷ history)) }
        ensures entry { OnOk result (IsSome (spawn_of self.new key)) }
        ensures others { HasOtherSpawns self.old self.new key }
        ensures runs { HasSameRuns self.old self.new }
        ensures fault { IsMemoryOnErr result }
        ensures err { OnErr result (HasSameSpawns self.old self.new) }
        ensures known { IsSome (spawn_of self.old key) → IsOk result }
    {
        change_entry(
            &mut self.spawns,
            key,
            |entry| entry.record_overhead(nanoseconds),
        )
    }
}

// Changes the entry at `key` by `change`, a default one where there is none; no other entry
// changes.
fn change_entry<K: Eq + Hash + Copy, V: Default + Copy, T, F: FnOnce(&mut V) -> T>(
    entries: &mut HashMap<K, V>,
    key: K,
    change: F,
) -> Result<T, Fault>
where
    T: Drop,
    requires { F.IsAlwaysCallable change }
    ensures changed { IfOk result (λ answer. (before after : V)
        × IsEntryOr V.is_default (get K.eq entries.old key) before
        × FnOnceReturnsAtMut F.FnOnce change before answer after
        × (get K.eq entries.new key ≡ Some after)) }
    ensures others { (other : K) → K.eq key other ≡ false
        → get K.eq entries.new other ≡ get K.eq entries.old other }
    ensures fault { IsMemoryOnErr result }
    ensures err { OnErr result ((other : K)
        → get K.eq entries.new other ≡ get K.eq entries.old other) }
    ensures known { IsSome (get K.eq entries.old key) → IsOk result }
{
    if let Some(entry) = entries.get_mut(&key) {
        return Ok(change(entry));
    }
    let mut entry = V::default();
    let answer = change(&mut entry);
    let _old = entries.insert(key, entry)?;
    Ok(answer)
}
