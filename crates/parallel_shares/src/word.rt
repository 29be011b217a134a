//! A word packs the range of the units that are left in a share; a claim takes a front of it, and a
//! steal its back half.
ghost use Rattle.std.specs.Prelude.{◌≡◌, ◌+◌, ◌*◌, ◌-◌, ◌≤◌, ◌↔◌, min, eqb, IsTrue};
ghost use Rattle.parallel_shares.specs.Words.{start_of, end_of, packed, IsEmptyWord};
ghost use Rattle.parallel_shares.specs.Answers.{middle_of};

use std::ops::Range;

/// Packs a range of units into a word: `start * 65536 + end`.
///
/// Both ends are at most 65535.
pub fn pack(start: usize, end: usize) -> u64
    requires start_fits { start ≤ 65535 }
    requires end_fits { end ≤ 65535 }
    ensures { result ≡ start * 65536 + end }
{
    (start * 65536 + end) as u64
}

/// The start and the end of the range of units that `pack` packed into the word.
pub fn unpack(word: u64) -> (usize, usize)
    requires { word ≤ 4294967295 }
    ensures start_fits { result.0 ≤ 65535 }
    ensures end_fits { result.1 ≤ 65535 }
    ensures packed { word ≡ result.0 * 65536 + result.1 }
{
    let word = word as usize;
    (word / 65536, word % 65536)
}

/// Whether no unit is left in a word.
pub(crate) fn is_empty(word: u64) -> bool
    requires { word ≤ 4294967295 }
    ensures tells { IsTrue result ↔ IsEmptyWord word }
    ensures value { result ≡ eqb (start_of word) (end_of word) }
{
    let (start, end) = unpack(word);
    start == end
}

/// The first units of a word, at most that many, and the word of those after them.
pub(crate) fn front(word: u64, most: usize) -> (Range<usize>, u64)
    requires fits { word ≤ 4294967295 }
    requires in_order { start_of word ≤ end_of word }
    ensures start { result.0.start ≡ start_of word }
    ensures stop { result.0.end ≡ start_of word + min most (end_of word - start_of word) }
    ensures left { result.1 ≡ packed result.0.end (end_of word) }
{
    let (start, end) = unpack(word);
    let stop = start + most.min(end - start);
    (start..stop, pack(stop, end))
}

/// The back half of a word, the greater one where the halves differ, and the word of the other.
pub(crate) fn back(word: u64) -> (Range<usize>, u64)
    requires fits { word ≤ 4294967295 }
    requires in_order { start_of word ≤ end_of word }
    ensures units { result.0 ≡ record { start = middle_of word; end = end_of word } }
    ensures left { result.1 ≡ packed (start_of word) (middle_of word) }
{
    let (start, end) = unpack(word);
    let middle = start + (end - start) / 2;
    (middle..end, pack(start, middle))
}
