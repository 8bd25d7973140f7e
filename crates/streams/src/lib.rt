//! A lent buffer filled from a reader, and lent bytes written to a writer; and what an error leaves
//! of either. An error is that of the reader's own `read` or the writer's own `write`, also where a
//! signal interrupts it, or that the writer takes no more.
#![tactic(auto)]

ghost use Rattle.std.specs.Prelude.{◌<◌, ◌≤◌, length, take, IfOk, OnOk, OnErr};
ghost use Rattle.std.specs.Io.KnownBytes.{Appends, Consumes, IsAtEnd};
ghost use Rattle.streams.specs.Parts.{AppendsPart, ConsumesPart};

use std::io;
use std::io::{ErrorKind, Read, Write};

/// Reads until the buffer is full or the input ends, and answers how many bytes stand at the
/// buffer's start. (The standard `read_exact` fails where the input ends before, and does not say
/// what an error leaves.)
pub fn read_full<R: Read>(reader: &mut R, buffer: &mut [u8]) -> io::Result<usize>
    ensures bound { IfOk result (λ n. n ≤ length buffer.new) }
    ensures bytes { IfOk result (λ n.
        Consumes (R.remaining reader.old) (R.remaining reader.new) (take n buffer.new)) }
    ensures end { IfOk result (λ n. n < length buffer.new → IsAtEnd (R.remaining reader.new)) }
    ensures err { OnErr result
        (ConsumesPart (R.remaining reader.old) (R.remaining reader.new) buffer.new) }
{
    // Each turn goes on by as much as the reader gave: no range or iterator knows how far. The same
    // of a writer.
    let mut at = 0;
    while at < buffer.len() {
        let n = reader.read(&mut buffer[at..])?;
        if n == 0 {
            break;
        }
        at += n;
    }
    Ok(at)
}

/// Writes all the bytes. (The standard `write_all` does not say what an error leaves.)
pub fn write_full<W: Write>(writer: &mut W, bytes: &[u8]) -> io::Result<()>
    ensures ok { OnOk result (Appends (W.contents writer.old) (W.contents writer.new) bytes.now) }
    ensures err { OnErr result
        (AppendsPart (W.contents writer.old) (W.contents writer.new) bytes.now) }
{
    let mut at = 0;
    while at < bytes.len() {
        let n = writer.write(&bytes[at..])?;
        if n == 0 {
            return Err(io::Error::from(ErrorKind::WriteZero));
        }
        at += n;
    }
    Ok(())
}

#[cfg(test)]
mod tests;
