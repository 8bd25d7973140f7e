//! That either call succeeds where a reader gives, or a writer takes, one byte at a time, and that
//! the error of one that fails on its way is the error of the call, with what was done until then.
use crate::{read_full, write_full};
use std::io;
use std::io::{ErrorKind, Read, Write};
use std::test::*;

// Gives its bytes one at a time, and fails after so many.
#[derive(Drop)]
struct Trickle<'a> {
    bytes: &'a [u8],
    at: usize,
    fails_at: usize,
}

impl<'a> Read for Trickle<'a> {
    fn read(&mut self, buf: &mut [u8]) -> io::Result<usize> {
        if self.at == self.fails_at {
            return Err(io::Error::from(ErrorKind::BrokenPipe));
        }
        match (self.bytes.get(self.at), buf.first_mut()) {
            (Some(byte), Some(place)) => {
                *place = *byte;
                self.at = self.at.saturating_add(1);
                Ok(1)
            }
            _ => Ok(0),
        }
    }
}

// Takes bytes one at a time and counts them, fails after so many, and takes no more after others.
#[derive(Drop)]
struct Narrow {
    taken: usize,
    last: u8,
    fails_at: usize,
    full_at: usize,
}

impl Write for Narrow {
    fn write(&mut self, buf: &[u8]) -> io::Result<usize> {
        if self.taken == self.fails_at {
            return Err(io::Error::from(ErrorKind::BrokenPipe));
        }
        if self.taken == self.full_at {
            return Ok(0);
        }
        match buf.first() {
            Some(byte) => {
                self.last = *byte;
                self.taken = self.taken.saturating_add(1);
                Ok(1)
            }
            None => Ok(0),
        }
    }

    fn flush(&mut self) -> io::Result<()> {
        Ok(())
    }
}

#[test]
fn reads_to_the_end_or_to_a_full_buffer(rt: HostRuntime) -> Result<(), Fail> {
    for (room, want) in [(5, 3), (3, 3), (2, 2), (0, 0)] {
        let mut reader = Trickle {
            bytes: b"abc",
            at: 0,
            fails_at: 4,
        };
        let mut buffer = [0u8; 5];
        let n = read_full(&mut reader, &mut buffer[..room])?;
        assert_eq!(rt; n, want, "into {room} bytes");
        assert_eq!(rt; reader.at, want, "into {room} bytes");
        assert!(rt; buffer.starts_with(&b"abc"[..want]), "into {room} bytes");
    }
    Ok(())
}

#[test]
fn a_read_that_fails_is_the_error(rt: HostRuntime) {
    let mut reader = Trickle {
        bytes: b"abc",
        at: 0,
        fails_at: 2,
    };
    let mut buffer = [0u8; 5];
    let error = read_full(&mut reader, &mut buffer).err().map(|e| e.kind());
    assert!(rt; error == Some(ErrorKind::BrokenPipe));
    assert!(rt; buffer.starts_with(b"ab\0"));
}

#[test]
fn writes_all_the_bytes(rt: HostRuntime) -> Result<(), Fail> {
    let mut writer = Narrow {
        taken: 0,
        last: 0,
        fails_at: 9,
        full_at: 9,
    };
    write_full(&mut writer, b"abc")?;
    assert_eq!(rt; writer.taken, 3);
    assert_eq!(rt; writer.last, b'c');
    Ok(())
}

#[test]
fn a_write_that_fails_or_takes_nothing_is_the_error(rt: HostRuntime) {
    for (fails_at, full_at, want) in [(2, 9, ErrorKind::BrokenPipe), (9, 2, ErrorKind::WriteZero)] {
        let mut writer = Narrow {
            taken: 0,
            last: 0,
            fails_at,
            full_at,
        };
        let error = write_full(&mut writer, b"abc").err().map(|e| e.kind());
        assert!(rt; error == Some(want), "a writer that fails at {fails_at}");
        assert_eq!(rt; writer.taken, 2);
        assert_eq!(rt; writer.last, b'b');
    }
}
