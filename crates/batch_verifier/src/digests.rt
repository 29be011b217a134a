//! Messages and the digests that they are given with.
ghost use Rattle.std.specs.Prelude.{◌≡◌, All, length, IfOk, IfErr};
ghost use Rattle.std.specs.List.{zip};
ghost use Rattle.parallel_fault.specs.Trouble.{IfClosure, IsMemoryOnFault};
ghost use Rattle.batch_verifier.specs.Verdicts.{HasItsDigest, IsFirstMismatch, JudgesDigest};

use commonware_parallel::{Copies, Enumerated, Place, Strategy, Trouble, Zipped};
use sha2::{Digest as _, Sha256};
use std::alloc::Global;
use std::sync::Wait;
use std::thread::Threads;

/// A digest by SHA-256.
pub type Digest = [u8; 32];

/// Checks messages against the digests by SHA-256 that they are given with, and returns the index
/// of the first message of which the digest is another (`IsFirstMismatch`).
///
/// It finds damage, not forgery: whoever changes a message can give it the changed message's
/// digest, which takes no key. So it serves where the digests come from someone who is trusted. And
/// it compares them with `==`, which isn't constant in time: a tag that is made with a key is to be
/// checked by other means.
///
/// # Errors
///
/// `Trouble::Closure` with the index of a message that has another digest, before which each has
/// its own. `Trouble::Fault` with `Fault::Memory` alone.
pub fn verify_digests<Rt: Threads + Wait + Sync, P: Place, S: Strategy>(
    rt: &Rt,
    alloc: Global,
    strategy: &S,
    site: P,
    messages: &[&[u8]],
    digests: &[Digest],
) -> Result<Vec<()>, Trouble<usize>>
    requires { length messages.now ≡ length digests.now }
    ensures each { IfOk result (λ _. All HasItsDigest (zip messages.now digests.now)) }
    ensures first { IfErr result
        (λ trouble. IfClosure trouble (IsFirstMismatch (zip messages.now digests.now))) }
    ensures fault { IsMemoryOnFault result }
{
    let pairs = Zipped {
        left: Copies { slice: messages },
        right: Copies { slice: digests },
    };
    let check = |item: (usize, (&[u8], Digest))| -> Result<(), usize>
        ensures { JudgesDigest item.entry result }
    {
        let (index, (message, digest)) = item;
        if Sha256::digest(message) == digest {
            Ok(())
        } else {
            Err(index)
        }
    };
    strategy.try_map_collect_vec(rt, alloc, site, Enumerated::new(pairs), check)
}
