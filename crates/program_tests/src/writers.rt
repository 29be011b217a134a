//! Writers that fail or take little, and words that could not be read.
use crate::checks::{equal, held};
use crate::commands::{text_of, words_of};
use parallel_fault::Fault;
use shapes_command::{command, out_of_memory, unread, unwritten};
use std::io;
use std::io::{ErrorKind, Write};
use std::process::Abort;

// A writer that fails at each write.
#[derive(Drop)]
struct Closed;

impl Write for Closed {
    fn write(&mut self, _buf: &[u8]) -> io::Result<usize> {
        Err(io::Error::from(ErrorKind::BrokenPipe))
    }

    fn flush(&mut self) -> io::Result<()> {
        Ok(())
    }
}

// A writer that takes one byte at a time.
#[derive(Drop)]
struct Narrow {
    taken: Vec<u8>,
}

impl Write for Narrow {
    fn write(&mut self, buf: &[u8]) -> io::Result<usize> {
        match buf.first() {
            Some(byte) => {
                self.taken.push(*byte)?;
                Ok(1)
            }
            None => Ok(0),
        }
    }

    fn flush(&mut self) -> io::Result<()> {
        Ok(())
    }
}

// Stops the test where that isn't what was written.
fn wrote(rt: &impl Abort, written: Vec<u8>, text: &str) {
    equal(rt, "written", text_of(rt, written).as_str(), text);
}

#[test]
fn a_line_is_written_in_parts(rt: HostRuntime) {
    let alloc = rt.alloc();
    let mut out = Narrow {
        taken: Vec::new(alloc),
    };
    let mut err = Narrow {
        taken: Vec::new(alloc),
    };
    let known = command(&rt, alloc, &[], &mut out, &mut err);
    held(&rt, "no words", matches!(known, Ok(0)));
    let unknown = words_of(alloc, "unknown").expect(&rt, "memory");
    let unknown = command(&rt, alloc, &unknown, &mut out, &mut err);
    held(&rt, "an unknown word", matches!(unknown, Ok(2)));
    wrote(&rt, out.taken, "0 1 2 3\n");
    wrote(&rt, err.taken, "shapes: bad arguments\n");
}

#[test]
fn a_failed_write_is_named_and_is_status_one(rt: HostRuntime) {
    let alloc = rt.alloc();
    let mut kept = Vec::new(alloc);
    let error = command(&rt, alloc, &[], &mut Closed, &mut kept).expect_err(&rt, "a closed writer");
    held(&rt, "the error", error.kind() == ErrorKind::BrokenPipe);
    let unknown = words_of(alloc, "unknown").expect(&rt, "memory");
    let answered = command(&rt, alloc, &unknown, &mut kept, &mut Closed);
    held(&rt, "nobody is told", answered.is_err() && kept.is_empty());
    held(&rt, "said to nobody", unwritten(&error, &mut Closed) == 1);
    held(&rt, "said", unwritten(&error, &mut kept) == 1);
    wrote(&rt, kept, "shapes: broken pipe\n");
}

// What the line of a refusal says is the refusal's own text.
#[test]
fn a_refusal_says_its_text(rt: HostRuntime) {
    let mut err = Vec::new(rt.alloc());
    held(&rt, "its status", matches!(out_of_memory(&mut err), Ok(1)));
    let line = format!(in rt.alloc(); "shapes: {}\n", Fault::Memory).expect(&rt, "memory");
    wrote(&rt, err, &line);
}

#[test]
fn words_that_could_not_be_read(rt: HostRuntime) {
    let mut err = Vec::new(rt.alloc());
    let no_text = unread(ErrorKind::InvalidData, &mut err);
    held(&rt, "no text", matches!(no_text, Ok(2)));
    let no_memory = unread(ErrorKind::OutOfMemory, &mut err);
    held(&rt, "no memory", matches!(no_memory, Ok(1)));
    wrote(&rt, err, "shapes: bad arguments\nshapes: out of memory\n");
}
