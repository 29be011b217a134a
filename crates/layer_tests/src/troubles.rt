//! Where one part of a list can't be split and an item of another fails, the leftmost of the two
//! troubles is returned.
ghost use Rattle.std.specs.Prelude.{◌≡◌, ◌-◌, ◌<◌, ◌≤◌};
ghost use Rattle.std.specs.List.{range_with_len};

use crate::checks::row;
use parallel_bridge::bridge::bridge;
use parallel_bridge::consumer::try_fold::TryFoldConsumer;
use parallel_bridge::consumer::try_reduce::TryReduceConsumer;
use parallel_bridge::fill::fill;
use parallel_bridge::fill::writer::TryMapWriter;
use parallel_bridge::list::try_fold::try_fold_parallel;
use parallel_bridge::list::try_map::try_map_parallel;
use parallel_bridge::parts::ProducerParts;
use parallel_bridge::producer::{Indices, Producer};
use parallel_bridge::window::home::Home;
use parallel_fault::{Fault, Trouble};
use std::alloc::Global;
use std::marker::{Brand, PhantomData};
use std::ops::Range;
use std::process::Abort;
use std::thread::Threads;
use test_support::number;

// Indices of which one part can't be split.
#[derive(Clone, Copy, Debug)]
struct Refusing {
    list: Indices,
    refused: Indices,
}

impl Producer for Refusing {
    type Item = usize;

    type Iter = Range<usize>;

    ghost gives = { λ s xs. xs ≡ range_with_len s.list.start (s.list.end - s.list.start) };

    ghost may = { λ s x. (s.list.start ≤ x) × (x < s.list.end) };

    ghost count = { λ s. s.list.end - s.list.start };

    fn len(&self) -> usize {
        self.list.len()
    }

    fn split_at(self, alloc: Global, index: usize) -> Result<(Self, Self), Fault> {
        if self.list == self.refused {
            return Err(Fault::Memory);
        }
        let (front, back) = self.list.split_at(alloc, index)?;
        let front = Refusing {
            list: front,
            refused: self.refused,
        };
        let back = Refusing {
            list: back,
            refused: self.refused,
        };
        Ok((front, back))
    }

    fn into_items(self) -> Range<usize> {
        self.list.into_items()
    }
}

// The indices below 8, where the part from `start` up to `end` can't be split.
fn eight(start: usize, end: usize) -> ProducerParts<Refusing>
    ensures { result.list.list.end - result.list.list.start ≡ 8 }
{
    ProducerParts {
        list: Refusing {
            list: Indices { start: 0, end: 8 },
            refused: Indices { start, end },
        },
    }
}

// Each part that can't be split with an item that fails, and the item whose error is returned, if
// it is no refusal.
const ROWS: [(usize, usize, usize, Option<usize>); 8] = [
    (4, 8, 0, Some(0)),
    (4, 8, 3, Some(3)),
    (4, 6, 3, Some(3)),
    (6, 8, 1, Some(1)),
    (0, 4, 4, None),
    (2, 4, 5, None),
    (0, 2, 7, None),
    (0, 8, 0, None),
];

// Which call is asked for the eight items, each a segment: their results written on that many threads,
// four to seven, or one of the calls that gather them.
#[derive(Clone, Copy, Debug)]
enum Asked {
    Fill(usize),
    Map,
    Bridge,
    Fold,
}

fn no_place() -> usize {
    0
}

fn last_of(_left: usize, right: usize) -> usize {
    right
}

// The first trouble of a call for the items, of which a bad one is an error.
fn trouble<Rt: Threads + Sync + Abort>(
    rt: &Rt,
    alloc: Global,
    asked: Asked,
    parts: ProducerParts<Refusing>,
    bad: usize,
) -> Option<Trouble<usize>>
    requires { parts.list.list.end - parts.list.list.start ≡ 8 }
{
    let answer = |item: usize| if item == bad { Err(item) } else { Ok(item) };
    let step = |_: usize, item: usize| if item == bad { Err(item) } else { Ok(item) };
    let four = number(4);
    match asked {
        Asked::Map => try_map_parallel(rt, alloc, four, parts, &answer).err(),
        Asked::Fold => {
            try_fold_parallel(rt, alloc, four, parts, &no_place, &step, &last_of).err()
        }
        Asked::Fill(threads) => {
            let (room, home) = Home::reserve(alloc, 8).expect(rt, "memory");
            let writer = TryMapWriter { map_op: &answer };
            let (room, done) = fill(rt, alloc, number(threads), parts, &writer, room);
            home.free(room);
            done.err()
        }
        Asked::Bridge => {
            let domain: PhantomData<Brand> = PhantomData;
            let base = TryReduceConsumer {
                identity: &no_place,
                reduce_op: &last_of,
                domain,
            };
            let consumer = TryFoldConsumer {
                base,
                identity: &no_place,
                fold_op: &step,
                domain,
            };
            bridge(rt, alloc, four, parts, consumer).err()
        }
    }
}

#[test]
fn the_leftmost_trouble_is_answered_by_each_call_and_on_each_number_of_threads(rt: HostRuntime) {
    for asked in [
        Asked::Fill(4),
        Asked::Fill(5),
        Asked::Fill(7),
        Asked::Map,
        Asked::Bridge,
        Asked::Fold,
    ] {
        for (start, end, bad, blamed) in ROWS {
            let found = trouble(&rt, rt.alloc(), asked, eight(start, end), bad);
            let wanted = blamed.map_or(Trouble::Fault(Fault::Memory), Trouble::Closure);
            row(&rt, (asked, start, end, bad), found, Some(wanted));
        }
    }
}
