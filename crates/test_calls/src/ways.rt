//! The strategies of the tests' one list of calls, and the numbers of threads.
use crate::calls::Outcome;
use crate::clocks::Stepping;
use crate::every_call::{Act, Host, does};
use crate::noting::Noting;
use crate::visits::Visitor;
use commonware_parallel::mocks::{Explorer, Rule, TASKS, WORKERS};
use commonware_parallel::{Fault, Rayon, Sequential};
use std::alloc::Global;
use test_strategies::learning;
use test_support::number;

/// The numbers of threads of each probe.
pub const THREADS: [usize; 12] = [1, 2, 3, 4, 5, 6, 7, 8, 9, 12, 17, 65];

/// Those of them between two numbers, which belong to it.
pub fn threads_between(least: usize, most: usize) -> &'static [usize] {
    let below = THREADS.partition_point(|threads| *threads < least);
    let within = THREADS.partition_point(|threads| *threads <= most);
    THREADS.get(below..within).unwrap_or(&[])
}

// The rules of a search, in its order.
const RULES: [Rule; 6] = [
    Rule::Serial,
    Rule::Parallel,
    Rule::Seeded(0),
    Rule::Seeded(1),
    Rule::Seeded(2),
    Rule::Seeded(3),
];

/// A strategy.
#[derive(Clone, Copy, Debug, PartialEq, Eq)]
pub enum Way {
    Sequential,
    /// One of one's own, of that many threads, which writes down what it is asked and told.
    Noting(usize),
    /// A pool of that many threads that is planned for that many, for which no policy chooses.
    Pool(usize, usize),
    /// A pool of that many threads with a fresh policy, whose clock goes on by that much.
    Learning(usize, u64),
    /// An explorer, with the numbers of a pool.
    Explorer(Rule, usize, usize),
}

/// All of them, but for pools of more than nine threads, which take long.
pub fn ways(alloc: Global) -> Result<Vec<Way>, Fault> {
    let few = [
        Way::Sequential,
        Way::Noting(4),
        Way::Learning(4, 0),
        Way::Pool(1, 2),
        Way::Pool(3, 16),
    ];
    let mut ways = Vec::from_slice(alloc, &few)?;
    for threads in threads_between(1, 9) {
        ways.push(Way::Pool(*threads, *threads))?;
    }
    for rule in RULES {
        ways.push(Way::Explorer(rule, WORKERS, TASKS))?;
    }
    Ok(ways)
}

/// A call through a strategy, as a test names it.
#[derive(Clone, Copy, Debug)]
pub struct Row {
    pub way: Way,
    pub act: Act,
    pub len: usize,
}

impl Row {
    pub fn of(way: Way, act: Act, len: usize) -> Row {
        Row { way, act, len }
    }
}

/// A strategy that stands.
#[derive(Drop)]
pub enum Through {
    Sequential,
    Noting(Noting),
    Rayon(Rayon<Stepping>),
    Explorer(Explorer),
}

impl Through {
    pub fn of(rt: &impl Host, way: Way) -> Result<Through, Fault> {
        let alloc = rt.alloc();
        let (threads, planned, step) = match way {
            Way::Sequential => return Ok(Through::Sequential),
            Way::Noting(threads) => return Ok(Through::Noting(Noting::new(alloc, threads)?)),
            Way::Learning(threads, step) => (threads, threads, step),
            Way::Pool(threads, planned) | Way::Explorer(_, threads, planned) => {
                (threads, planned, 0)
            }
        };
        let learned = learning(rt, alloc, threads, Stepping::new(alloc, step)?)?;
        if matches!(way, Way::Learning(..)) {
            return Ok(Through::Rayon(learned));
        }
        let fixed = learned.with_parallelism(number(planned)).without_policy()?;
        if let Way::Explorer(rule, ..) = way {
            return Ok(Through::Explorer(Explorer::by_rule(&fixed, rule)?));
        }
        Ok(Through::Rayon(fixed))
    }

    /// Does that, each closure of which visits.
    pub fn does(&self, rt: &impl Host, act: Act, len: usize, visited: Visitor<'_>) -> Outcome {
        match self {
            Through::Sequential => does(rt, &Sequential, act, len, visited),
            Through::Noting(noting) => does(rt, noting, act, len, visited),
            Through::Rayon(rayon) => does(rt, rayon, act, len, visited),
            Through::Explorer(explorer) => does(rt, explorer, act, len, visited),
        }
    }
}
