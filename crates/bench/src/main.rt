//! Times folds, maps, tiles, trees and callers through a plain loop and through each strategy, the
//! choices of a policy and the jobs of a pool; empties random plans of shares, and brings jobs to
//! pools.
#![tactic(auto)]

mod callers;
mod calls;
mod case;
mod counted_job;
mod in_place;
mod jobs;
mod kit;
mod loops;
mod policies;
mod pools;
mod race;
mod ready;
mod request;
mod soak;
mod tiles;
mod times;
mod ways;
mod work;

use crate::case::CASES;
use crate::jobs::race_jobs;
use crate::policies::race_choices;
use crate::pools::soak_pools;
use crate::race::race;
use crate::request::{COMMANDS, Request, parse_request};
use crate::soak::soak;
use anyhow::Result;
use std::process::ExitCode;
use std::{env, io};

fn main(rt: HostRuntime) -> io::Result<ExitCode> {
    let outcome = match requested(&rt) {
        Ok(Some(Request::Names)) => names(&rt),
        Ok(Some(Request::Time(trial))) => race(&rt, trial),
        Ok(Some(Request::Policy(pair))) => race_choices(&rt, pair),
        Ok(Some(Request::Jobs(pair))) => race_jobs(&rt, pair),
        Ok(Some(Request::Soak(pair))) => soak(&rt, pair),
        Ok(Some(Request::Pools(pair))) => soak_pools(&rt, pair),
        Ok(None) => {
            eprintln!(rt; "bench: bad arguments")?;
            return Ok(ExitCode::from(2));
        }
        Err(error) => Err(error),
    };
    if let Err(error) = outcome {
        eprintln!(rt; "bench: {error}")?;
        return Ok(ExitCode::FAILURE);
    }
    Ok(ExitCode::SUCCESS)
}

/// What the command line asks for, if it is text and asks for anything.
///
/// # Errors
///
/// `AllocError` if an allocation fails, or the error of reading the words.
fn requested(rt: &(impl std::rt::Env + AllocGlobal)) -> Result<Option<Request>> {
    let words = match env::args(rt) {
        Ok(words) => words,
        Err(error) if error.kind() == io::ErrorKind::InvalidData => return Ok(None),
        Err(error) => return Err(error.into()),
    };
    let words = words.skip(1).collect::<Vec<String>>(rt.alloc())?;
    Ok(parse_request(words.as_slice()))
}

/// Prints the cases' names and the commands', one a line.
///
/// # Errors
///
/// The error of a write.
fn names(rt: &impl Print) -> Result<()> {
    for (name, _) in CASES {
        rt.println(name)?;
    }
    for name in COMMANDS {
        rt.println(name)?;
    }
    Ok(())
}
