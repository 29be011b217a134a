//! Runs one command of `shapes_command` and ends with its status.
#![tactic(auto)]

use std::process::ExitCode;
use std::rt::Env;
use std::{env, io};

fn main(rt: HostRuntime) -> ExitCode {
    let mut out = rt.stdout();
    let mut err = rt.stderr();
    let answered = match words(&rt) {
        Ok(words) => shapes_command::command(&rt, rt.alloc(), &words, &mut out, &mut err),
        Err(error) => shapes_command::unread(error.kind(), &mut err),
    };
    let status = match answered {
        Ok(status) => status,
        Err(error) => shapes_command::unwritten(&error, &mut err),
    };
    ExitCode::from(status)
}

// The program's arguments, without its name.
fn words(rt: &(impl Env + AllocGlobal)) -> io::Result<Vec<String>> {
    let mut words = Vec::new(rt.alloc());
    for word in env::args(rt)?.skip(1) {
        words.push(word)?;
    }
    Ok(words)
}
