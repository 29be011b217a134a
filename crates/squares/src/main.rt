//! The squares of some numbers, found on the machine's cores.
#![tactic(auto)]

use commonware_parallel::{Copies, Rayon, Site};
use parallel_calls::On;
use std::io;
use std::num::NonZeroUsize;

const SITE: Site = Site {
    file: "squares/src/main.rt",
    line: 1,
    column: 1,
};

fn main(rt: HostRuntime) -> io::Result<()> {
    let (rt, alloc) = (&rt, rt.alloc());
    let strategy = &Rayon::of_machine(rt, alloc, NonZeroUsize::MIN)?;
    let on = On {
        rt,
        alloc,
        strategy,
        site: SITE,
    };
    let numbers = Copies {
        slice: &[3, 1, 4, 1, 5],
    };
    let squares = on.map(numbers, |n: u64| n.wrapping_mul(n))?;
    println!(rt; "{squares:?}")
}
