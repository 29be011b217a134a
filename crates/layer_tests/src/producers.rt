//! Producers, and what they are made of where too many items are said to come.
ghost use Rattle.std.specs.Prelude.{◌+◌};
ghost use Rattle.std.specs.Iterator.{at_most};

use crate::checks::row;
use parallel_bridge::list::partition::partition_iter;
use parallel_bridge::producer::DrainProducer;
use parallel_bridge::source::Source;
use test_support::same;

#[test]
fn a_drain_gives_its_items_from_both_ends(rt: HostRuntime) {
    let items = vec![in rt.alloc(); 1u8, 2, 3].expect(&rt, "memory");
    let mut drain = DrainProducer::from_vec(items).drain();
    same!(&rt, (drain.next(), drain.next_back()), (Some(1), Some(3)));
    same!(&rt, (drain.len(), drain.size_hint()), (1, (1, Some(1))));
    same!(&rt, (drain.next(), drain.next()), (Some(2), None));
}

// The numbers below `left`, from the greatest on, which are said to be `said` at least.
#[derive(Drop)]
struct Overstated {
    left: u8,
    said: usize,
}

impl Iterator for Overstated {
    type Item = u8;

    ghost remaining = { λ s. at_most (s.left + s.said) };

    fn next(&mut self) -> Option<u8> {
        self.left = self.left.checked_sub(1)?;
        Some(self.left)
    }

    fn size_hint(&self) -> (usize, Option<usize>) {
        (self.said, None)
    }
}

// The number, which is a key, and one that is by ten more, but for the number 1.
fn ten_more_but_of_one(item: u8) -> (u8, Option<u8>) {
    let more = item.checked_add(10);
    (item, if item == 1 { None } else { more })
}

#[test]
fn items_are_gathered_and_parted_where_too_many_are_said_to_come(rt: HostRuntime) {
    let alloc = rt.alloc();
    for said in [2, 3, 4, 4_096, usize::MAX / 8, usize::MAX] {
        let parts = Overstated { left: 3, said }.into_parts(alloc);
        let items = parts.expect(&rt, "memory").into_vec();
        row(&rt, said, items.as_slice(), [2, 1, 0].as_slice());
        let parted = partition_iter(alloc, Overstated { left: 3, said }, &ten_more_but_of_one);
        let (values, keys) = parted.expect(&rt, "memory");
        row(&rt, said, values.as_slice(), [12, 10].as_slice());
        row(&rt, said, keys.as_slice(), [1].as_slice());
    }
}
