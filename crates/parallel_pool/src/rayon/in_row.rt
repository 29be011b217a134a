//! Calls that run at the same time, in threads that one thread, the caller's, starts one after
//! another.
ghost use Rattle.std.specs.Prelude.{◌≡◌, [], ◌++◌, ◌+◌, ◌<◌, ◌≤◌, filter_map, length, map, vec_capacity, vec_len, IfOk};
ghost use Rattle.std.specs.List.{cons_option};
ghost use Rattle.std.specs.Fork.{AcceptsJobs, GivesJobs};
ghost use Rattle.parallel_fault.specs.Trouble.{IsMemoryOnErr};
ghost use Rattle.parallel_pool.specs.InRow.{AcceptsPlace, AcceptsPlaces, AnswersPlace, AnswersPlaces, answer_of, waits};

use parallel_fault::Fault;
use parallel_row::each_item;
use std::alloc::{AllocError, Global};
use std::num::NonZeroUsize;
use std::thread::Threads;

/// An item that waits for its call, and what the call has returned.
#[derive(Drop)]
pub(crate) struct Place<X: Drop, T: Drop> {
    pub(crate) item: Option<X>,
    pub(crate) answer: Option<T>,
}

/// Calls `op` with each of the items, all at the same time, and lists the results in the order of
/// the items. Each call has a thread of its own (`parts_in_row`), of which the caller's is one; it
/// makes those for which no thread can be started.
///
/// # Errors
///
/// `Fault::Memory` where a list can't grow. No item has been given to `op` then.
pub fn map_in_row<R: Threads + Sync, X: Send + Drop, T: Send + Drop, F: Fn(X) -> T + Sync>(
    rt: &R,
    alloc: Global,
    items: Vec<X>,
    op: &F,
) -> Result<Vec<T>, Fault>
    requires { AcceptsJobs F.Fn op.now items.items }
    ensures len { IfOk result (λ answers. vec_len answers ≡ vec_len items) }
    ensures each { IfOk result (λ answers. GivesJobs F.Fn op.now items.items answers.items) }
    ensures fault { IsMemoryOnErr result }
{
    let answers = Vec::with_capacity(alloc, items.len())?;
    let mut places = waiting(alloc, items)?;
    answer_all(rt, op, places.as_mut_slice());
    Ok(answers_of(places, answers))
}

// A slot for each item.
fn waiting<X: Drop, T: Drop>(alloc: Global, items: Vec<X>) -> Result<Vec<Place<X, T>>, AllocError>
    ensures { IfOk result (λ places. places.items ≡ map waits items.items) }
{
    let mut places = Vec::with_capacity(alloc, items.len())?;
    for item in items {
        places.push(Place {
            item: Some(item),
            answer: None,
        })?;
    }
    Ok(places)
}

// The results in the slots, in a list that has room for them: of calls that were made nothing is
// refused.
fn answers_of<X: Drop, T: Drop>(places: Vec<Place<X, T>>, mut answers: Vec<T>) -> Vec<T>
    requires empty { answers.items ≡ [] }
    requires room { vec_len answers + length places.items ≤ vec_capacity answers }
    ensures { result.items ≡ filter_map answer_of places.items }
{
    for place in places {
        add_answer(&mut answers, place);
    }
    answers
}

fn add_answer<X: Drop, T: Drop>(answers: &mut Vec<T>, place: Place<X, T>)
    requires { vec_len answers.old < vec_capacity answers.old }
    ensures items { answers.new.items ≡ answers.old.items ++ cons_option (answer_of place) [] }
    ensures len { vec_len answers.new ≤ vec_len answers.old + 1 }
    ensures capacity { vec_capacity answers.new ≡ vec_capacity answers.old }
{
    let Place { item: _, answer } = place;
    if let Some(answer) = answer {
        answers.push_reserved(answer);
    }
}

// The items that wait in the slots get their results there, all at the same time.
fn answer_all<R: Threads + Sync, X: Send + Drop, T: Send + Drop, F: Fn(X) -> T + Sync>(
    rt: &R,
    op: &F,
    places: &mut [Place<X, T>],
)
    requires { AcceptsPlaces F.Fn op.now places.old }
    ensures { AnswersPlaces F.Fn op.now places.old places.new }
{
    // (one for each slot; no more are used than there are)
    let threads = NonZeroUsize::MIN.saturating_add(places.len());
    each_item(
        rt,
        threads,
        places,
        &|_index: usize, place: &mut Place<X, T>|
            requires { AcceptsPlace F.Fn op.now place.now }
            ensures { AnswersPlace F.Fn op.entry.now place.entry.now place.exit.now }
        { answer(op, place) },
    );
}

// The item that waits in the slot, if one does, gets its result there.
fn answer<X: Drop, T: Drop, F: Fn(X) -> T>(op: &F, place: &mut Place<X, T>)
    requires { AcceptsPlace F.Fn op.now place.old }
    ensures { AnswersPlace F.Fn op.now place.old place.new }
{
    if let Some(item) = place.item.take() {
        place.answer = Some(op(item));
    }
}
