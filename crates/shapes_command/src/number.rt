//! The numbers of a command line: decimal digits alone, from one number up to another.
ghost use Rattle.std.specs.Prelude.{◌≡◌, ◌≢◌, ◌≤◌, ◌-◌, ◌^◌, SomeIff, MatchOption, codes};
ghost use Rattle.std.specs.NonZero.{non_zero_usize_get};
ghost use Rattle.std.specs.Str.Parse.{digits_value};
ghost use Rattle.shapes_command.specs.Number.{IsNumberUpTo, IsCountUpTo, IsCountOrNone, CountsOrNone, IsTextOrNone};

use std::num::NonZeroUsize;

/// The number from 0 to `most` that the word writes in decimal digits.
///
/// Zeros may lead. A sign, a space or any other character makes it no number, as does no character.
pub fn number(word: &str, most: usize) -> Option<usize>
    ensures { SomeIff result (IsNumberUpTo most word.now) (digits_value 10 word.now) }
{
    if word.starts_with('+') {
        return None;
    }
    let number = word.parse().ok()?;
    if number <= most { Some(number) } else { None }
}

/// The number of 64 bits that the word writes, read as `number` reads it.
pub fn number_of_64_bits(word: &str) -> Option<u64>
    ensures { SomeIff result (IsNumberUpTo (2 ^ 64 - 1) word.now) (digits_value 10 word.now) }
{
    if word.starts_with('+') {
        return None;
    }
    word.parse().ok()
}

/// The number of 32 bits that the word writes, read as `number` reads it.
pub fn number_of_32_bits(word: &str) -> Option<u32>
    ensures { SomeIff result (IsNumberUpTo (2 ^ 32 - 1) word.now) (digits_value 10 word.now) }
{
    if word.starts_with('+') {
        return None;
    }
    word.parse().ok()
}

/// The number from 1 to `most` that the word writes in decimal digits, read as `number` reads it.
pub fn count(word: &str, most: usize) -> Option<NonZeroUsize>
    ensures { MatchOption result (¬ (IsCountUpTo most word.now))
        (λ count. IsCountUpTo most word.now
        × (non_zero_usize_get count ≡ digits_value 10 word.now)) }
{
    NonZeroUsize::new(number(word, most)?)
}

/// The same of a word where `-` says that there is no number.
pub fn count_or_none(word: &str, most: usize) -> Option<Option<NonZeroUsize>>
    ensures { MatchOption result (¬ (IsCountOrNone most word.now)) (CountsOrNone most word.now) }
{
    if word == "-" {
        Some(None)
    } else {
        Some(Some(count(word, most)?))
    }
}

/// The word as a text, where `-` says that there is none.
pub fn text_or_none(word: &str) -> Option<&str>
    ensures { IsTextOrNone word.now result }
{
    if word == "-" { None } else { Some(word) }
}
