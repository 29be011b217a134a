//! What each of several threads gets of a task.
//!
//! The caller splits two tasks into loads, one for each thread, and then all loads are run side by
//! side (`each_item`), the last one by the caller. Of two tasks that are both split, one load gets
//! the front of the first with the back of the second, and another the rest: where work rises along
//! a list, or falls, each has as much of it. What the loads came to stands in their places, and is
//! put together as they were split.
ghost use Rattle.std.specs.Prelude.{◌≡◌, ◌+◌, ◌<◌, ◌≤◌, ◌++◌, ◌∷◌, [], IfOk, vec_capacity, vec_len};
ghost use Rattle.std.specs.Thread.{IsSync};
ghost use Rattle.parallel_bridge.specs.declared.drive.loads.Slot.TheVariants.{Done};
ghost use Rattle.parallel_bridge.specs.Loads.{AreReady, CameTo, IsCutOf, IsDone, IsReady, IsReadyLoad, Joins, LoadCameTo, Rejoins, SlotCameTo};

use crate::drive::{Task, drive_alone};
use parallel_row::{ROW, each_item};
use std::alloc::{AllocError, Global};
use std::mem::replace;
use std::num::NonZeroUsize;
use std::thread::Threads;

// A task that may be halved so often, what one came to, or neither.
#[derive(Drop)]
enum Slot<T, D> {
    Todo(usize, T),
    Done(D),
    Empty,
}

// Two tasks, and how many threads share them.
#[derive(Drop)]
struct Load<T, D> {
    threads: usize,
    left: Slot<T, D>,
    right: Slot<T, D>,
}

/// Two tasks that may be halved so often, with that many threads to share.
pub(super) fn drive_shared<Rt: Threads + Sync, T: Task>(
    rt: &Rt,
    alloc: Global,
    depth: usize,
    threads: usize,
    left: T,
    right: T,
) -> (T::Done, T::Done)
    requires left { T.ready left }
    requires right { T.ready right }
    ensures first { T.ends depth left result.0 }
    ensures second { T.ends depth right result.1 }
{
    let load = Load {
        threads,
        left: Slot::Todo(depth, left),
        right: Slot::Todo(depth, right),
    };
    let done = drive_load(rt, alloc, load);
    (done_of(done.left), done_of(done.right))
}

// What a task came to.
fn done_of<T: Drop, D: Drop>(slot: Slot<T, D>) -> D
    requires { IsDone slot }
    ensures { slot ≡ Done result }
{
    match slot {
        Slot::Done(done) => done,
        _ => unreachable!(),
    }
}

// What a load came to, by its threads.
#[cycle(loads)]
fn drive_load<Rt: Threads + Sync, T: Task>(
    rt: &Rt,
    alloc: Global,
    load: Load<T, T::Done>,
) -> Load<T, T::Done>
    requires { IsReadyLoad T.ready load }
    ensures { LoadCameTo T.ends load result }
{
    if load.threads < 2 {
        return run_load(alloc, load);
    }
    let threads = load.threads;
    let (mut loads, mut ready) = match lists(alloc, threads.min(ROW)) {
        Ok(lists) => lists,
        Err(_) => return run_load(alloc, load),
    };
    loads.push_reserved(load);
    drive_loads(rt, alloc, threads.div_ceil(ROW), &mut loads, &mut ready);
    loads.take_last()
}

// Two empty lists with memory for that many.
fn lists<L: Drop>(alloc: Global, places: usize) -> Result<(Vec<L>, Vec<L>), AllocError>
    ensures loads { IfOk result (λ r. r.0.items ≡ []) }
    ensures ready { IfOk result (λ r. r.1.items ≡ []) }
    ensures places { IfOk result (λ r. places ≤ vec_capacity r.0) }
    ensures room { IfOk result (λ r. places ≤ vec_capacity r.1) }
{
    let loads = Vec::with_capacity(alloc, places)?;
    let ready = Vec::with_capacity(alloc, places)?;
    Ok((loads, ready))
}

// What all loads came to, the last one first, beside those that are ready to be run. One of more
// than `grain` threads is split into two, where there is a place for both.
#[cycle(loads)]
fn drive_loads<Rt: Threads + Sync, T: Task>(
    rt: &Rt,
    alloc: Global,
    grain: usize,
    loads: &mut Vec<Load<T, T::Done>>,
    ready: &mut Vec<Load<T, T::Done>>,
)
    requires grain { 0 < grain }
    requires loads { AreReady T.ready loads.old.items }
    requires ready { AreReady T.ready ready.old.items }
    requires room { vec_len loads.old + vec_len ready.old ≤ vec_capacity ready.old }
    requires places { vec_len loads.old ≤ vec_capacity loads.old }
    ensures loads { CameTo T.ends loads.old.items loads.new.items }
    ensures ready { CameTo T.ends ready.old.items ready.new.items }
    ensures places { vec_capacity loads.new ≡ vec_capacity loads.old }
    ensures room { vec_capacity ready.new ≡ vec_capacity ready.old }
{
    if loads.is_empty() {
        run_row(rt, alloc, grain, ready.as_mut_slice());
        return;
    }
    let has_room = loads.len() < loads.capacity() && loads.len() + ready.len() < ready.capacity();
    let load = loads.take_last();
    if has_room && load.threads > grain && is_long(&load) {
        drive_parted(rt, alloc, grain, load, loads, ready);
        return;
    }
    ready.push_reserved(load);
    drive_loads(rt, alloc, grain, loads, ready);
    loads.push_reserved(ready.take_last());
}

// What a load that is split came to, beside the others; its first half is run before its second.
#[cycle(loads)]
fn drive_parted<Rt: Threads + Sync, T: Task>(
    rt: &Rt,
    alloc: Global,
    grain: usize,
    load: Load<T, T::Done>,
    loads: &mut Vec<Load<T, T::Done>>,
    ready: &mut Vec<Load<T, T::Done>>,
)
    requires grain { 0 < grain }
    requires threads { 2 ≤ load.threads }
    requires load { IsReadyLoad T.ready load }
    requires loads { AreReady T.ready loads.old.items }
    requires ready { AreReady T.ready ready.old.items }
    requires room { vec_len loads.old + 2 + vec_len ready.old ≤ vec_capacity ready.old }
    requires places { vec_len loads.old + 2 ≤ vec_capacity loads.old }
    ensures loads { CameTo T.ends (loads.old.items ++ load ∷ []) loads.new.items }
    ensures ready { CameTo T.ends ready.old.items ready.new.items }
    ensures places { vec_capacity loads.new ≡ vec_capacity loads.old }
    ensures room { vec_capacity ready.new ≡ vec_capacity ready.old }
{
    let Load {
        threads,
        left,
        right,
    } = load;
    let (left_front, left_back, left_seam) = cut_slot(alloc, left);
    let (right_front, right_back, right_seam) = cut_slot(alloc, right);
    let others = threads / 2;
    loads.push_reserved(Load {
        threads: threads - others,
        left: left_back,
        right: right_front,
    });
    loads.push_reserved(Load {
        threads: others,
        left: left_front,
        right: right_back,
    });
    drive_loads(rt, alloc, grain, loads, ready);
    let outer = loads.take_last();
    let inner = loads.take_last();
    let left = join_slots(left_seam, outer.left, inner.left);
    let right = join_slots(right_seam, inner.right, outer.right);
    loads.push_reserved(Load {
        threads,
        left,
        right,
    });
}

// Whether threads can share a load: one of its tasks can be split, or there are two.
fn is_long<T: Task>(load: &Load<T, T::Done>) -> bool {
    can_be_cut(&load.left)
        || can_be_cut(&load.right)
        || matches!((&load.left, &load.right), (Slot::Todo(..), Slot::Todo(..)))
}

fn can_be_cut<T: Task>(slot: &Slot<T, T::Done>) -> bool {
    match slot {
        Slot::Todo(depth, task) => !task.is_leaf(*depth),
        _ => false,
    }
}

// The halves of a task, and what puts their ends together; all of it and nothing where it isn't
// split.
fn cut_slot<T: Task>(
    alloc: Global,
    slot: Slot<T, T::Done>,
) -> (Slot<T, T::Done>, Slot<T, T::Done>, Option<T::Seam>)
    requires { IsReady T.ready slot }
    ensures front { IsReady T.ready result.0 }
    ensures back { IsReady T.ready result.1 }
    ensures cut { IsCutOf T.ends T.meet T.together slot result.0 result.1 result.2 }
{
    let (depth, task) = match slot {
        Slot::Todo(depth, task) => (depth, task),
        other => return (other, Slot::Empty, None),
    };
    if task.is_leaf(depth) {
        return (Slot::Todo(depth, task), Slot::Empty, None);
    }
    match task.split(alloc) {
        Ok((left, right, seam)) => (
            Slot::Todo(depth - 1, left),
            Slot::Todo(depth - 1, right),
            Some(seam),
        ),
        Err(done) => (Slot::Done(done), Slot::Empty, None),
    }
}

// What a task that was cut came to.
fn join_slots<T: Task>(
    seam: Option<T::Seam>,
    front: Slot<T, T::Done>,
    back: Slot<T, T::Done>,
) -> Slot<T, T::Done>
    requires { Joins T.meet seam front back }
    ensures { Rejoins T.together seam front back result }
{
    let Some(seam) = seam else {
        return front;
    };
    match (front, back) {
        (Slot::Done(left), Slot::Done(right)) => Slot::Done(T::join(seam, left, right)),
        _ => unreachable!(),
    }
}

// Runs each load in a thread. One of several threads starts those that share it; any other is run
// by a closure that has no runtime, and can start none.
#[cycle(loads)]
fn run_row<Rt: Threads + Sync, T: Task>(
    rt: &Rt,
    alloc: Global,
    grain: usize,
    ready: &mut [Load<T, T::Done>],
)
    requires grain { 0 < grain }
    requires ready { AreReady T.ready ready.old }
    ensures { CameTo T.ends ready.old ready.new }
{
    let threads = NonZeroUsize::MIN.saturating_add(ready.len());
    if grain < 2 {
        let run = move |_: usize, load: &mut Load<T, T::Done>|
            requires { IsReadyLoad T.ready load.now }
            ensures { LoadCameTo T.ends load.entry.now load.exit.now }
        { *load = run_load(alloc, take(load)) };
        each_item(rt, threads, ready, &run);
        return;
    }
    let share = move |_: usize, load: &mut Load<T, T::Done>|
        requires { (0 < grain) × IsSync Rt.row × IsReadyLoad T.ready load.now }
        ensures { LoadCameTo T.ends load.entry.now load.exit.now }
    { *load = drive_load(rt, alloc, shared_by(grain, take(load))) };
    each_item(rt, threads, ready, &share);
}

// A load in the place of which nothing is left.
fn take<T: Drop, D: Drop>(load: &mut Load<T, D>) -> Load<T, D>
    ensures { result ≡ load.old }
{
    let empty = Load {
        threads: 0,
        left: Slot::Empty,
        right: Slot::Empty,
    };
    replace(load, empty)
}

// A load that no more than so many threads share.
fn shared_by<T, D>(most: usize, load: Load<T, D>) -> Load<T, D>
    ensures threads { result.threads ≤ most }
    ensures left { result.left ≡ load.left }
    ensures right { result.right ≡ load.right }
{
    Load {
        threads: load.threads.min(most),
        ..load
    }
}

// What a load came to, by one thread.
fn run_load<T: Task>(alloc: Global, load: Load<T, T::Done>) -> Load<T, T::Done>
    requires { IsReadyLoad T.ready load }
    ensures { LoadCameTo T.ends load result }
{
    Load {
        threads: load.threads,
        left: run_slot(alloc, load.left),
        right: run_slot(alloc, load.right),
    }
}

// What a task came to, by one thread.
fn run_slot<T: Task>(alloc: Global, slot: Slot<T, T::Done>) -> Slot<T, T::Done>
    requires { IsReady T.ready slot }
    ensures { SlotCameTo T.ends slot result }
{
    match slot {
        Slot::Todo(depth, task) => Slot::Done(drive_alone(alloc, depth, task)),
        other => other,
    }
}
