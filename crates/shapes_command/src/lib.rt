//! The commands of the program `shapes`, over any two writers.
#![tactic(auto)]

ghost use Rattle.std.specs.Prelude.{◌≡◌, ◌≢◌, ◌≤◌, ◌↔◌, ◌⊎◌, ℕ, List, IfOk, OnErr};
ghost use Rattle.std.specs.Io.KnownBytes.{Appends};
ghost use Rattle.shapes_command.specs.Answer.{IsAnswer};
ghost use Rattle.shapes_command.specs.Line.{bad_arguments_line, difference_line, out_of_memory_line, AppendsPart, AppendsPartOf};
ghost use Rattle.shapes_command.specs.Request.{IsBodiesLine, IsCommandLine};

mod answer;
pub mod drain;
mod number;
pub mod request;
mod root;
mod search;
mod sum;
mod write;

use request::is_bodies;
pub use request::{Request, parse};
use search::differing_rule;
use std::alloc::Global;
use std::io;
use std::io::{ErrorKind, Write};
use std::sync::Wait;
use std::thread::Threads;
use write::write_line;

/// Runs the command that the words say and returns the program's status.
///
/// The status is 0 where the answer was written to `out`, as one line (`IsAnswer`). It is 2 where
/// the words are no command line, which is found before anything runs: `err` then gets `shapes: bad
/// arguments`. It is 1 where memory was refused, and `err` then gets `shapes: out of memory`; and
/// for `explore bodies`, where `err` gets the difference that the search ended at. The other writer
/// gets nothing.
///
/// `rt` is the right to run a command in threads, and to wait for them.
///
/// # Errors
///
/// The error of a write that failed. `out` has then got a beginning of the answer's line, or
/// nothing; what the program says of it is `unwritten`.
pub fn command<R: Threads + Wait + Sync, O: Write, E: Write>(
    rt: &R,
    alloc: Global,
    words: &[String],
    out: &mut O,
    err: &mut E,
) -> io::Result<u8>
    ensures status { IfOk result (λ status. status ≤ 2) }

    // The answer is that of the request which the words say, as one line, and nothing is said on
    // `err`.
    ensures answer { IfOk result (λ status. status ≡ 0
        → (line : List ℕ) × IsAnswer words.now line
        × Appends (O.contents out.old) (O.contents out.new) line) }
    ensures no_complaint { IfOk result (λ status. status ≡ 0 → err.new ≡ err.old) }

    // A refusal is said on `err`, and so is the difference between two bodies, and there is no
    // answer, half or whole.
    ensures refusal { IfOk result (λ status. status ≡ 1
        → Appends (E.contents err.old) (E.contents err.new) out_of_memory_line
        ⊎ (IsBodiesLine words.now × Appends (E.contents err.old)
        (E.contents err.new) difference_line)) }
    ensures bodies { IsBodiesLine words.now → IfOk result (λ status. status ≡ 1) }
    ensures refused { IfOk result (λ status. status ≡ 1 → out.new ≡ out.old) }

    // Just the words that are no command line get status 2, and no answer, even where a write
    // failed.
    ensures bad_arguments { IfOk result (λ status. status ≡ 2 ↔ (¬ (IsCommandLine words.now))) }
    ensures complaint { IfOk result (λ status. status ≡ 2
        → Appends (E.contents err.old) (E.contents err.new) bad_arguments_line) }
    ensures no_answer { (¬ (IsCommandLine words.now)) → out.new ≡ out.old }

    // A write that failed leaves a beginning of the answer's line, or nothing.
    ensures unwritten { OnErr result
        (AppendsPartOf (IsAnswer words.now) (O.contents out.old) (O.contents out.new)) }
{
    if is_bodies(words) {
        return search_bodies(rt, alloc, err);
    }
    let Some(request) = parse(words) else {
        return bad_arguments(err);
    };
    match answer::line(rt, alloc, request) {
        Ok(line) => {
            write_line(out, line.as_bytes())?;
            Ok(0)
        }
        Err(_) => out_of_memory(err),
    }
}

/// For a program whose words could not be read: returns the status, and puts a line on `err`.
///
/// A word that is no text is a bad argument, so the status is that of `bad_arguments`. Else memory
/// ran out while the words were copied, and the status is that of `out_of_memory`.
///
/// # Errors
///
/// The error of a write that failed.
pub fn unread<E: Write>(kind: ErrorKind, err: &mut E) -> io::Result<u8>
    ensures bad_arguments { IfOk result (λ status. status ≡ 2 ↔ kind ≡ ErrorKind.InvalidData) }
    ensures refused { IfOk result (λ status. status ≡ 1 ↔ kind ≢ ErrorKind.InvalidData) }
    ensures complaint { IfOk result (λ status. status ≡ 2
        → Appends (E.contents err.old) (E.contents err.new) bad_arguments_line) }
    ensures refusal { IfOk result (λ status. status ≡ 1
        → Appends (E.contents err.old) (E.contents err.new) out_of_memory_line) }
{
    match kind {
        ErrorKind::InvalidData => bad_arguments(err),
        _ => out_of_memory(err),
    }
}

/// Writes to `err` that the words are no command line. The status is 2.
///
/// # Errors
///
/// The error of a write that failed. `err` has then got a beginning of the line.
pub fn bad_arguments<E: Write>(err: &mut E) -> io::Result<u8>
    ensures status { IfOk result (λ status. status ≡ 2) }
    ensures complaint { IfOk result
        (λ _. Appends (E.contents err.old) (E.contents err.new) bad_arguments_line) }
    ensures unwritten { OnErr result
        (AppendsPart (E.contents err.old) (E.contents err.new) bad_arguments_line) }
{
    write_line(err, b"shapes: bad arguments\n")?;
    Ok(2)
}

/// Writes to `err` that memory was refused. The status is 1.
///
/// # Errors
///
/// The error of a write that failed. `err` has then got a beginning of the line.
pub fn out_of_memory<E: Write>(err: &mut E) -> io::Result<u8>
    ensures status { IfOk result (λ status. status ≡ 1) }
    ensures refusal { IfOk result (λ _. Appends (E.contents err.old)
        (E.contents err.new) out_of_memory_line) }
    ensures unwritten { OnErr result
        (AppendsPart (E.contents err.old) (E.contents err.new) out_of_memory_line) }
{
    write_line(err, b"shapes: out of memory\n")?;
    Ok(1)
}

// Searches for a rule by which a run takes another body than the serial one, and writes to `err`
// what it found. The status is 1.
fn search_bodies<R: Threads + Wait + Sync, E: Write>(
    rt: &R,
    alloc: Global,
    err: &mut E,
) -> io::Result<u8>
    ensures status { IfOk result (λ status. status ≡ 1) }
    ensures refusal { IfOk result (λ _. Appends (E.contents err.old)
        (E.contents err.new) out_of_memory_line
        ⊎ Appends (E.contents err.old) (E.contents err.new) difference_line) }
{
    // Where there is a rule, it is `Rule::Parallel`.
    if differing_rule(rt, alloc).is_err() {
        return out_of_memory(err);
    }
    outputs_differ(err)
}

/// Writes to `err` that the parallel run's output isn't the serial run's. The status is 1.
///
/// # Errors
///
/// The error of a write that failed. `err` has then got a beginning of the line.
pub fn outputs_differ<E: Write>(err: &mut E) -> io::Result<u8>
    ensures status { IfOk result (λ status. status ≡ 1) }
    ensures difference { IfOk result
        (λ _. Appends (E.contents err.old) (E.contents err.new) difference_line) }
    ensures unwritten { OnErr result
        (AppendsPart (E.contents err.old) (E.contents err.new) difference_line) }
{
    write_line(
        err,
        b"shapes: the Parallel run must return the serial run's output\n",
    )?;
    Ok(1)
}

/// Writes to `err` which error a write failed by, where that can still be written. The status is 1.
pub fn unwritten<E: Write>(error: &io::Error, err: &mut E) -> u8
    ensures { result ≡ 1 }
{
    // Where this fails too, there is nowhere left to say so.
    let _ = writeln!(err, "shapes: {error}");
    1
}
