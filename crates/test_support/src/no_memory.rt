//! A machine without memory, as a test makes it: it takes all the addresses that the process may
//! have, untouched, and then each request is refused until some of them are given back.
//!
//! Where allocations are checked, as by `rt try`, small requests are granted from a store without
//! end: there is no such machine then, but one that has no place for large blocks.
use std::alloc::Global;

/// Asks for blocks of a size until one is refused, and keeps them; for that many at most: whether
/// one was refused.
pub fn take_all(alloc: Global, size: usize, most: u32, held: &mut Vec<Vec<u8>>) -> bool {
    for _ in 0..most {
        let Ok(block) = Vec::with_capacity(alloc, size) else {
            return true;
        };
        if held.push(block).is_err() {
            return true;
        }
    }
    false
}

/// All places for blocks of 1 MiB and more: while they are held, each request of so much is
/// refused. None where such places have no end.
pub fn all_places(alloc: Global) -> Option<Vec<Vec<u8>>> {
    let mut held = Vec::with_capacity(alloc, 70_000).ok()?;
    for halvings in 0..27u32 {
        if !take_all(alloc, (1usize << 46) >> halvings, 60_000, &mut held) {
            return None;
        }
    }
    Some(held)
}

/// All memory that is left, in blocks of all sizes: while they are held, each request is refused.
/// None where memory has no end.
pub fn all_memory(alloc: Global) -> Option<Vec<Vec<u8>>> {
    let mut held = all_places(alloc)?;
    if hold_rest(alloc, &mut held) {
        Some(held)
    } else {
        None
    }
}

/// Holds all that is left below 1 MiB too, in blocks of all sizes: whether it has an end.
pub fn hold_rest(alloc: Global, held: &mut Vec<Vec<u8>>) -> bool {
    for halvings in 27..43u32 {
        if !take_all(alloc, (1usize << 46) >> halvings, 1000, held) {
            return false;
        }
    }
    for sixteens in 1..70usize {
        if !take_all(alloc, sixteens.wrapping_mul(16), 1000, held) {
            return false;
        }
    }
    true
}

/// The bytes that a call is left at most, of which each try that was refused gives it some more.
pub const ROOM: usize = 16_384;

/// The greatest block, of up to a size, that is still to be had.
pub fn greatest_block(alloc: Global, most: usize) -> Vec<u8> {
    for step in 0..1200usize {
        let size = most.saturating_sub(step.saturating_mul(16));
        if let Ok(block) = Vec::with_capacity(alloc, size) {
            return block;
        }
    }
    Vec::new(alloc)
}
