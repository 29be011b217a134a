//! Callers as they are met: the bytes of a matrix that are above a threshold, counted by row, and
//! messages that are checked against their digests.
use crate::calls::SITE;
use crate::case::Case;
use batch_verifier::{Digest, verify_digests};
use commonware_parallel::{Fault, Runtime, Strategy, Trouble};
use sha2::{Digest as _, Sha256};
use std::alloc::{AllocError, Global};
use uses::tile_rows::above_by_row;

/// How many rows a matrix has. Bytes that fill no row are left out.
pub const ROWS: usize = 2000;

/// The threshold: half of all bytes are above it.
pub const THRESHOLD: u8 = 127;

/// How long a message is.
const MESSAGE: usize = 64;

/// What a caller takes.
#[derive(Clone, Copy)]
pub struct Extras<'a> {
    /// The cells of a matrix.
    pub bytes: &'a [u8],
    pub messages: &'a [&'a [u8]],
    /// The digest of each message.
    pub digests: &'a [Digest],
}

/// The cells of a matrix, the highest byte of each number, as many as fill the rows; or the
/// messages one after the other, a number eight times in each. Nothing for other cases.
///
/// # Errors
///
/// `AllocError` if an allocation fails.
pub fn bytes_of(alloc: Global, case: Case, numbers: &[u64]) -> Result<Vec<u8>, AllocError> {
    match case {
        Case::RowsAbove => {
            let cells = numbers.len() / ROWS * ROWS;
            let high = |number: &u64| (*number >> 56) as u8;
            numbers.iter().take(cells).map(high).collect(alloc)
        }
        Case::Digests => message_bytes(alloc, numbers),
        _ => Ok(Vec::new(alloc)),
    }
}

fn message_bytes(alloc: Global, numbers: &[u64]) -> Result<Vec<u8>, AllocError> {
    let mut bytes = Vec::new(alloc);
    for place in 0..numbers.len().saturating_mul(MESSAGE / 8) {
        if let Some(number) = numbers.get(place / (MESSAGE / 8)) {
            bytes.extend_from_slice(&number.to_le_bytes())?;
        }
    }
    Ok(bytes)
}

/// The messages of the case `digests`.
///
/// # Errors
///
/// `AllocError` if an allocation fails.
pub fn messages_of<'a>(
    alloc: Global,
    case: Case,
    bytes: &'a [u8],
) -> Result<Vec<&'a [u8]>, AllocError> {
    let bytes = if matches!(case, Case::Digests) {
        bytes
    } else {
        &[]
    };
    bytes.chunks(MESSAGE).collect(alloc)
}

/// The digests of messages.
///
/// # Errors
///
/// `AllocError` if an allocation fails.
pub fn digests_of(alloc: Global, messages: &[&[u8]]) -> Result<Vec<Digest>, AllocError> {
    messages.iter().map(digest_of).collect(alloc)
}

/// A message's digest by SHA-256.
pub fn digest_of(message: &&[u8]) -> Digest {
    Sha256::digest(*message)
}

/// How many bytes are above the threshold, counted by row through a strategy.
///
/// # Errors
///
/// What was refused.
pub fn bytes_above<Rt: Runtime, S: Strategy>(
    rt: &Rt,
    alloc: Global,
    strategy: &S,
    matrix: &[u8],
) -> Result<u64, Fault> {
    let len = matrix.len() / ROWS;
    if matrix.len() % ROWS != 0 {
        return Ok(0);
    }
    let counts = above_by_row(rt, alloc, strategy, SITE, matrix, ROWS, len, THRESHOLD)?;
    let mut total = 0u64;
    for count in counts.as_slice() {
        total = total.wrapping_add(*count as u64);
    }
    Ok(total)
}

/// How many messages have their digest, up to the first one that hasn't, through a
/// strategy.
///
/// # Errors
///
/// What was refused.
pub fn first_mismatch<Rt: Runtime, S: Strategy>(
    rt: &Rt,
    alloc: Global,
    strategy: &S,
    extras: Extras<'_>,
) -> Result<usize, Fault> {
    let Extras {
        messages,
        digests,
        ..
    } = extras;
    if messages.len() != digests.len() {
        return Ok(0);
    }
    match verify_digests(rt, alloc, strategy, SITE, messages, digests) {
        Ok(passed) => Ok(passed.len()),
        Err(Trouble::Closure(index)) => Ok(index),
        Err(Trouble::Fault(fault)) => Err(fault),
    }
}
