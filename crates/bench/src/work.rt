//! The functions of an item, the steps of folds and sorts, and the list that they are called on. A
//! call is passed them by name, so that each is proved once.
use crate::case::Case;
use std::alloc::{AllocError, Global};
use std::cmp::Ordering;

/// In how many rounds the heavy function mixes its number, which takes about a microsecond.
pub const ROUNDS: u64 = 512;

/// What a round multiplies by: the factor of Knuth's generator of 64 bits.
const FACTOR: u64 = 6_364_136_223_846_793_005;

/// What a round adds: the summand of that generator.
const SUMMAND: u64 = 1_442_695_040_888_963_407;

/// What the nodes of a tree are taken modulo.
const MODULUS: u64 = 1_000_003;

/// The one item that `try_heavy` fails at.
const FAILING: u64 = u64::MAX;

/// A function that takes a nanosecond or less.
pub fn light(item: u64) -> u64 {
    item.wrapping_mul(2).wrapping_add(1)
}

/// A function that takes about a microsecond.
pub fn heavy(item: u64) -> u64 {
    mixed(item, ROUNDS)
}

/// A function that takes as many rounds as its item is great.
pub fn rising(item: u64) -> u64 {
    mixed(item, item)
}

/// What `rounds` rounds make of an item. Each needs the number that the last one made.
pub fn mixed(item: u64, rounds: u64) -> u64 {
    let mut state = item;
    for _ in 0..rounds {
        state = mixed_once(state);
    }
    state
}

/// The next number of a chain that looks random.
pub fn mixed_once(state: u64) -> u64 {
    (state ^ (state >> 29))
        .wrapping_mul(FACTOR)
        .wrapping_add(SUMMAND)
}

/// The light function as one that may fail, though it never does.
///
/// # Errors
///
/// None: it never fails.
pub fn try_light(item: u64) -> Result<u64, u64> {
    Ok(light(item))
}

/// The heavy function as one that fails at one item, by that item.
///
/// # Errors
///
/// The item at which it fails.
pub fn try_heavy(item: u64) -> Result<u64, u64> {
    if item == FAILING {
        return Err(item);
    }
    Ok(heavy(item))
}

/// An even item with what the light function makes of it, and an odd one as a key alone.
pub fn parted_lightly(item: u64) -> (u64, Option<u64>) {
    if item % 2 == 0 {
        (item, Some(light(item)))
    } else {
        (item, None)
    }
}

/// The same with the heavy function, which is called for odd items too.
pub fn parted_heavily(item: u64) -> (u64, Option<u64>) {
    let answer = heavy(item);
    if item % 2 == 0 {
        (item, Some(answer))
    } else {
        (answer, None)
    }
}

/// What a fold begins at.
pub fn zero() -> u64 {
    0
}

/// A step of a fold that adds up.
pub fn add(left: u64, right: u64) -> u64 {
    left.wrapping_add(right)
}

/// A step that adds what the heavy function makes of an item.
pub fn add_heavy(total: u64, item: u64) -> u64 {
    total.wrapping_add(heavy(item))
}

/// A step that adds what the function of rising work makes of an item.
pub fn add_rising(total: u64, item: u64) -> u64 {
    total.wrapping_add(rising(item))
}

/// A step that adds an item, and counts it in a state.
pub fn add_counted(total: u64, count: &mut u64, item: u64) -> u64 {
    *count = count.wrapping_add(1);
    total.wrapping_add(item)
}

/// The order of a sort.
pub fn ascending(left: &u64, right: &u64) -> Ordering {
    left.cmp(right)
}

/// The order of what the heavy function makes of items.
pub fn heavier(left: &u64, right: &u64) -> Ordering {
    heavy(*left).cmp(&heavy(*right))
}

/// Whether an item is even.
pub fn is_even(item: u64) -> bool {
    item % 2 == 0
}

/// The same of an item that is lent.
pub fn is_even_at(item: &u64) -> bool {
    is_even(*item)
}

/// The leaf of an item.
pub fn same(item: u64) -> u64 {
    item
}

/// The node above two neighbours of a tree, in a few nanoseconds.
pub fn combined(left: u64, right: u64) -> u64 {
    (2 * (left % MODULUS) + 3 * (right % MODULUS)) % MODULUS
}

/// The node above two neighbours of a tree, in about a microsecond.
pub fn combined_heavily(left: u64, right: u64) -> u64 {
    heavy(combined(left, right))
}

/// The items that a case is timed over, `len` of them: the numbers from 0 on where the work is to
/// rise, and a shuffled list elsewhere, with the item that fails at a tenth of it where one is to.
///
/// # Errors
///
/// `AllocError` if an allocation fails.
pub fn items_of(alloc: Global, case: Case, len: usize) -> Result<Vec<u64>, AllocError> {
    let factor = if case.is_rising() { 1 } else { FACTOR };
    let mut items = Vec::with_capacity(alloc, len)?;
    for index in 0..len as u64 {
        items.push(index.wrapping_mul(factor))?;
    }
    if matches!(case, Case::TryMapEarly)
        && let Some(failing) = items.get_mut(len / 10)
    {
        *failing = FAILING;
    }
    Ok(items)
}
