//! The longest word of a list, by a fold whose closures keep the laws that `FoldLaws` names.
ghost use Rattle.std.specs.Prelude.{◌≡◌, [], MatchOption, IfOk};
ghost use Rattle.parallel_fault.specs.Trouble.{IsMemoryOnErr};
ghost use Rattle.uses.specs.Words.{IsFirstLongest, longer_of};

use commonware_parallel::{Copies, Fault, Place, Strategy};
use std::alloc::Global;
use std::sync::Wait;
use std::thread::Threads;

/// The first of the longest words, and none where there is no word.
///
/// # Errors
///
/// `Fault::Memory` if an allocation fails.
pub fn longest_word<'a, Rt: Threads + Wait + Sync, P: Place, S: Strategy>(
    rt: &Rt,
    alloc: Global,
    strategy: &S,
    site: P,
    words: &[&'a str],
) -> Result<Option<&'a str>, Fault>
    ensures longest { IfOk result
        (λ longest. MatchOption longest (words.now ≡ []) (IsFirstLongest words.now)) }
    ensures fault { IsMemoryOnErr result }
{
    strategy.fold(
        rt,
        alloc,
        site,
        Copies { slice: words },
        || None,
        |longest, word| longer(longest, Some(word)),
        longer,
    )
}

// The second word where it is longer than the first, and the first otherwise.
fn longer<'a>(first: Option<&'a str>, second: Option<&'a str>) -> Option<&'a str>
    ensures { result ≡ longer_of first.entry second.entry }
{
    match (first, second) {
        (None, _) => second,
        (Some(_), None) => first,
        (Some(front), Some(back)) => {
            if front.len() < back.len() {
                second
            } else {
                first
            }
        }
    }
}
