//! Lists that are given their slots at once.
ghost use Rattle.std.specs.Prelude.{◌≡◌, []};

use std::alloc::Global;

// A list of that many items, or of more, is given slots to spare.
const LONG: usize = 4_096;

// How many slots to spare it has, beside an eighth of its items.
const SPARE: usize = 34_816;

// As much for lists that are counted in bytes.
const SPARE_BYTES: usize = 262_144;

/// How many slots a list is given that is said to have that many items.
///
/// glibc gives the free memory at the end of its heap back once that is more than twice the
/// greatest block that was freed. Two lists, as a gathered one and its results, with the 128 KiB
/// that the heap keeps, would be more, and each call would get all their pages anew. The slots to
/// spare, which are never touched, make the greatest block great enough.
pub(crate) fn places_for(hint: usize) -> usize {
    if hint < LONG {
        hint
    } else {
        hint.saturating_add(hint / 8).saturating_add(SPARE)
    }
}

/// How many slots a second list is given beside one that has `places_for(hint)`: none to spare but
/// an eighth.
pub(crate) fn second_places_for(hint: usize) -> usize {
    if hint < LONG {
        hint
    } else {
        hint.saturating_add(hint / 8)
    }
}

/// An empty list with that many slots, or with none where they are refused: a hint may be too
/// high, so that without its slots the list may still be made.
pub(crate) fn with_places<T: Drop>(alloc: Global, places: usize) -> Vec<T>
    ensures { result.items ≡ [] }
{
    match Vec::with_capacity(alloc, places) {
        Ok(list) => list,
        Err(_) => Vec::new(alloc),
    }
}

/// Makes glibc keep the pages of lists that are dropped later, where all of them together have no
/// more than twice the memory of that many items.
pub(crate) fn keep_pages_of<T: Drop>(alloc: Global, items: usize) {
    let block: Vec<T> = with_places(alloc, places_for(items));
    drop(block);
}

/// The same of lists that together have no more than twice that many bytes.
///
/// glibc gives the free memory at the end of its heap back once that is more than twice the
/// greatest block that was freed. So this takes a block of that many bytes and an eighth more,
/// never touched, and frees it; from then on the process holds back up to twice as much of what
/// was freed at the end. A block of more than 32 MiB is mapped by itself and changes nothing, so
/// that no more than 64 MiB are held back, and lists of more than some 28 MiB aren't kept.
pub(crate) fn keep_pages(alloc: Global, bytes: usize) {
    keep_pages_of::<u8>(alloc, bytes.saturating_add(SPARE_BYTES));
}
