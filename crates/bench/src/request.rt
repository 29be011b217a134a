//! What the words of the command line ask for.
use crate::case::Case;
use crate::ways::{Form, Way};
use std::num::NonZeroUsize;

/// The words, beside the cases' names, that the command line may begin with.
pub const COMMANDS: [&str; 5] = ["once", "policy", "jobs", "soak", "pools"];

/// A case to be timed over a list of `len` items, with a pool of `threads` threads.
#[derive(Clone, Copy)]
pub struct Trial {
    pub case: Case,
    pub len: usize,
    pub threads: NonZeroUsize,
    /// What a strategy is given the items by.
    pub form: Form,
    /// Whether every result is kept to the end, so that no call meets memory that was freed.
    pub is_fresh: bool,
    /// The one way that is called, once, with nothing beside it.
    pub once: Option<Way>,
}

impl Trial {
    /// Whether the case is run in a way: through the kit's `rayon` where it has the call, over a
    /// slice.
    pub fn includes(self, way: Way) -> bool {
        way != Way::Kit || (self.case.suits_kit() && self.form == Form::Slice)
    }
}

/// The two numbers after a command.
#[derive(Clone, Copy)]
pub struct Pair {
    pub first: usize,
    pub second: usize,
}

/// What the words ask for.
#[derive(Clone, Copy)]
pub enum Request {
    /// The names of the cases.
    Names,
    /// A case to be timed.
    Time(Trial),
    /// Rounds of a number of choices of a policy, planned for a number of threads.
    Policy(Pair),
    /// A number of jobs, to pools of a number of workers.
    Jobs(Pair),
    /// A number of random plans of shares, the first one's numbers from a seed.
    Soak(Pair),
    /// A number of jobs to one pool, and a number of pools.
    Pools(Pair),
}

/// What the words after the program's name ask for: nothing for the names; `policy LEN THREADS`,
/// `jobs JOBS WORKERS`, `soak PLANS SEED` or `pools JOBS POOLS`; or `CASE LEN THREADS`, with
/// `iter`, `counted` or `vec`, with `fresh` or with both after it, in that order, where a case that
/// goes by no source has none of the first three. There is one thread or worker at least. With
/// `once WAY` before a case, `WAY` being `loop`, `sequential`, `rayon`, `policy` or `kit-rayon`,
/// that way alone is called, once. Any other words ask for nothing.
pub fn parse_request(words: &[String]) -> Option<Request> {
    match words {
        [] => Some(Request::Names),
        [once, way, rest @ ..] if once.as_str() == "once" => {
            parse_trial(rest, Some(Way::named(way.as_str())?))
        }
        [name, first, second] if COMMANDS.contains(&name.as_str()) => {
            parse_pair(name.as_str(), first.as_str(), second.as_str())
        }
        _ => parse_trial(words, None),
    }
}

// What a command asks for with two numbers after it.
fn parse_pair(name: &str, first: &str, second: &str) -> Option<Request> {
    let pair = Pair {
        first: first.parse().ok()?,
        second: second.parse().ok()?,
    };
    match name {
        "policy" if pair.second > 0 => Some(Request::Policy(pair)),
        "jobs" if pair.second > 0 => Some(Request::Jobs(pair)),
        "soak" => Some(Request::Soak(pair)),
        "pools" => Some(Request::Pools(pair)),
        _ => None,
    }
}

// A case with its length, its threads and its options.
fn parse_trial(words: &[String], once: Option<Way>) -> Option<Request> {
    let [case, len, threads, options @ ..] = words else {
        return None;
    };
    let (form, is_fresh) = parse_options(options)?;
    let case = Case::named(case.as_str())?;
    let is_known = form == Form::Slice || case.takes_source();
    let trial = Trial {
        case,
        len: len.parse().ok()?,
        threads: NonZeroUsize::new(threads.parse().ok()?)?,
        form: if case.is_in_place() {
            Form::Owned
        } else {
            form
        },
        is_fresh,
        once,
    };
    let is_included = trial.includes(once.unwrap_or(Way::Loop));
    (is_known && is_included).then_some(Request::Time(trial))
}

// The form of the source, and whether results are kept.
fn parse_options(words: &[String]) -> Option<(Form, bool)> {
    match words {
        [] => Some((Form::Slice, false)),
        [word] if word.as_str() == "fresh" => Some((Form::Slice, true)),
        [form] => Some((Form::named(form.as_str())?, false)),
        [form, fresh] if fresh.as_str() == "fresh" => Some((Form::named(form.as_str())?, true)),
        _ => None,
    }
}
