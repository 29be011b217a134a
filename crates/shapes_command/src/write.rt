//! A line that is written whole, or as far as the writer takes it.
ghost use Rattle.std.specs.Prelude.{◌≡◌, ℕ, ◌<◌, ◌≤◌, length, take, IfOk, OnOk, OnErr};
ghost use Rattle.std.specs.Io.KnownBytes.{Appends, Keeps};
ghost use Rattle.shapes_command.specs.Line.{AppendsPart};

use std::io;
use std::io::{ErrorKind, Write};

// Writes the line, and again what is left of it where the writer took a part. The error is that of
// a write that failed, and the writer has then got a beginning of the line: what std's `write_all`
// leaves there its contract doesn't say.
pub(crate) fn write_line<W: Write>(writer: &mut W, line: &[u8]) -> io::Result<()>
    ensures whole { OnOk result (Appends (W.contents writer.old) (W.contents writer.new) line.now) }
    ensures part { OnErr result (AppendsPart (W.contents writer.old)
        (W.contents writer.new) line.now) }
{
    let mut rest = line;
    while !rest.is_empty() {
        let count = write_part(writer, rest)?;
        rest = &rest[count..];
    }
    Ok(())
}

// Writes some of the bytes, and tries again where the writer was interrupted.
fn write_part<W: Write>(writer: &mut W, bytes: &[u8]) -> io::Result<usize>
    ensures some { IfOk result (λ count. (0 < count) × (count ≤ length bytes.now)) }
    ensures taken { IfOk result (λ count. Appends (W.contents writer.old) (W.contents writer.new)
        (take count bytes.now)) }
    ensures none { OnErr result (Keeps (W.contents writer.old) (W.contents writer.new)) }
{
    for _ in 0..u64::MAX {
        match writer.write(bytes) {
            Ok(0) => return Err(io::Error::from(ErrorKind::WriteZero)),
            Ok(count) => return Ok(count),
            Err(error) => {
                if error.kind() != ErrorKind::Interrupted {
                    return Err(error);
                }
            }
        }
    }
    Err(io::Error::from(ErrorKind::Interrupted))
}
